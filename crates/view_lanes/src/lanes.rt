ghost use Rattle.std.specs.Prelude.{◌≡◌, ◌<◌, ◌≤◌, ◌+◌, ◌^◌, ◌==◌, ◌++◌, IfOk, OnOk, [], ◌∷◌, if◌then◌else◌, length, max, min, replicate};
ghost use Rattle.tab_core.specs.declared.TheConstants.{MAX_VCPUS};
ghost use Rattle.view_lanes.specs.Inside.Filling.{HaveMore, use_of};
ghost use Rattle.view_lanes.specs.Shown.{bars_in, held_in, is_dense, key_of, lanes_below, lanes_share, some_boxes, some_dense};

use crate::amounts::per_mille;
use crate::frame::{Bar, Frame};
use crate::shown::span_of;
use std::alloc::{AllocError, Global};
use std::marker::Model;
use tab_core::{NoMemory, VcpuNo};
use view_doc::{Stretch, Use};

/// The bars of a lane. Contracts see the bars.
#[derive(Drop)]
pub struct Lane {
    bars: Vec<Bar>,
}

impl Model for Lane {
    ghost use Rattle.std.specs.Prelude.{List};
    ghost use Rattle.view_lanes.specs.declared.frame.Bar.{Bar};

    ghost Value = { List Bar };

    ghost view = { λ lane. lane.bars.items };
}

impl Lane {
    /// The bars of the lane, in the order of the text.
    pub fn bars(&self) -> &[Bar]
        ensures { result.now ≡ self.now }
    {
        &self.bars
    }

    // Puts a bar after the others.
    fn push(&mut self, bar: Bar) -> Result<(), NoMemory>
        ensures { OnOk result (self.new ≡ self.old ++ bar ∷ []) }
    {
        match self.bars.push(bar) {
            Ok(()) => Ok(()),
            Err(_) => Err(AllocError),
        }
    }
}

/// The lanes of `count` cores or vCPUs from the number `first` on, with their bars: a bar for each
/// stretch of somebody that has ticks in the frame. There are at most 256.
///
/// Fails only when memory runs out.
pub fn lanes_from(
    alloc: Global,
    frame: &Frame,
    stretches: &[Stretch],
    first: u32,
    count: u64,
) -> Result<Vec<Lane>, NoMemory>
    requires { count ≤ MAX_VCPUS }
    ensures lanes { IfOk result (λ lanes. lanes.items ≡ lanes_below frame.now stretches.now first count) }
    ensures count { IfOk result (λ lanes. length lanes.items ≡ count) }
{
    let mut lanes = empty_lanes(alloc, count)?;
    for stretch in stretches {
        put_stretch(&mut lanes, frame, first, stretch)?;
    }
    Ok(lanes)
}

// So many lanes without a bar.
fn empty_lanes(alloc: Global, count: u64) -> Result<Vec<Lane>, NoMemory>
    ensures { IfOk result (λ lanes. lanes.items ≡ replicate count []) }
{
    let mut lanes = Vec::new(alloc);
    for _ in 0..count {
        let lane = Lane {
            bars: Vec::new(alloc),
        };
        if lanes.push(lane).is_err() {
            return Err(AllocError);
        }
    }
    Ok(lanes)
}

// Puts the bar of a stretch on the one lane where it has ticks, if somebody has them and they are shown.
fn put_stretch(
    lanes: &mut [Lane],
    frame: &Frame,
    first: u32,
    stretch: &Stretch,
) -> Result<(), NoMemory>
    ensures { OnOk result (HaveMore (λ i. bars_in frame.now (first + i) stretch.now) lanes.old lanes.new) }
{
    match stretch.by {
        Use::Idle => Ok(()),
        Use::Slot(vcpu) => put_held(lanes, frame, first, stretch, vcpu, false),
        Use::Shared(vcpu) => put_held(lanes, frame, first, stretch, vcpu, true),
    }
}

// Puts the bar of a stretch that a vCPU has, if its ticks are shown.
fn put_held(
    lanes: &mut [Lane],
    frame: &Frame,
    first: u32,
    stretch: &Stretch,
    vcpu: VcpuNo,
    shared: bool,
) -> Result<(), NoMemory>
    requires { stretch.now.by ≡ use_of vcpu shared }
    ensures { OnOk result (HaveMore (λ i. bars_in frame.now (first + i) stretch.now) lanes.old lanes.new) }
{
    if stretch.from >= frame.to || stretch.end <= frame.from {
        return Ok(());
    }
    // (on a core's lane the key is the vCPU, and on a vCPU's the core: the lane is the other of the two)
    let row = key_of(!frame.by_vcpu, stretch, vcpu);
    put_bar(lanes, first, row, cut_bar(frame, stretch, vcpu, shared))
}

// Puts a bar on the lane of a core or vCPU, if that is one of them.
fn put_bar(lanes: &mut [Lane], first: u32, row: u8, bar: Bar) -> Result<(), NoMemory>
    ensures { OnOk result (HaveMore (λ i. if first + i == row then bar ∷ [] else []) lanes.old lanes.new) }
{
    let row = u32::from(row);
    if row < first {
        return Ok(());
    }
    let i = (row - first) as usize;
    if i >= lanes.len() {
        return Ok(());
    }
    lanes[i].push(bar)
}

// The ticks of a stretch that are shown, as a bar.
fn cut_bar(frame: &Frame, stretch: &Stretch, vcpu: VcpuNo, shared: bool) -> Bar
    ensures from { result.from ≡ max stretch.now.from frame.now.from }
    ensures end { result.end ≡ min stretch.now.end frame.now.to }
    ensures key { result.key ≡ key_of frame.now.by_vcpu stretch.now vcpu }
    ensures shared { result.shared ≡ shared }
{
    Bar {
        from: stretch.from.max(frame.from),
        end: stretch.end.min(frame.to),
        key: key_of(frame.by_vcpu, stretch, vcpu),
        shared,
    }
}

// What tells the bars of a lane apart.
fn key_of(by_vcpu: bool, stretch: &Stretch, vcpu: VcpuNo) -> u8
    ensures { result ≡ key_of by_vcpu stretch.now vcpu }
{
    if by_vcpu {
        stretch.core.0 as u8
    } else {
        vcpu.0 as u8
    }
}

/// Whether a lane is drawn in columns: it has more than 342 bars.
pub fn is_dense(bars: &[Bar]) -> bool
    ensures { result ≡ is_dense bars.now }
{
    bars.len() > 342
}

// Whether one of the lanes is drawn in columns.
pub(crate) fn some_dense(lanes: &[Lane]) -> bool
    ensures { result ≡ some_dense lanes.now }
{
    lanes.iter().any(|lane| is_dense(lane.bars()))
}

// Whether one of the lanes is drawn in boxes.
pub(crate) fn some_boxes(lanes: &[Lane]) -> bool
    ensures { result ≡ some_boxes lanes.now }
{
    lanes.iter().any(|lane| !is_dense(lane.bars()))
}

/// How many of the ticks that the frame shows the bars of a lane have: at most all.
pub fn held_in(frame: &Frame, bars: &[Bar]) -> u64
    ensures value { result ≡ held_in frame.now bars.now }
    ensures small { result < 2 ^ 32 }
{
    let span = u64::from(span_of(frame));
    let mut held = 0;
    for bar in bars {
        held = (held + u64::from(bar.end.saturating_sub(bar.from))).min(span);
    }
    held
}

/// How much of the ticks that the frame shows the lanes' bars have, all lanes together, in tenths of a
/// percent. There are at most 256 lanes.
pub fn share_in(frame: &Frame, lanes: &[Lane]) -> u64
    requires { length lanes.now ≤ MAX_VCPUS }
    ensures { result ≡ lanes_share frame.now lanes.now }
{
    let mut total = 0;
    for lane in lanes {
        total += held_in(frame, lane.bars());
    }
    per_mille(total, lanes.len() as u64 * u64::from(span_of(frame)))
}
