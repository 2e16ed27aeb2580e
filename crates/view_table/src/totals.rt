ghost use Rattle.std.specs.Prelude.{◌≡◌, ◌<◌, ◌≤◌, ◌^◌, length, option_copied};
ghost use Rattle.tab_core.specs.declared.TheConstants.{MAX_CORES, MAX_VCPUS};
ghost use Rattle.tab_io.specs.Sinks.{Writes};
ghost use Rattle.view_cells.specs.CellTexts.{cell_text};
ghost use Rattle.view_table.specs.Figures.{AreFigures};
ghost use Rattle.view_table.specs.Given.{is_refused};
ghost use Rattle.view_table.specs.Groups.{count_where};
ghost use Rattle.view_table.specs.Loads.{has_slot_on};
ghost use Rattle.view_table.specs.TableTexts.{end_text};
ghost use Rattle.view_table.specs.Totals.{asked_below, asked_total, busy_below, full_of, given_below, has_all, is_share_asked, is_split, cores_with, kept_count, plain_total, split_below, total_text};

use crate::figures::{Figures, is_refused};
use crate::groups::{asked_at, given_share, is_broken, ppm_at};
use crate::rows::loads_of;
use crate::table::{put_core_head, put_cores};
use tab_core::{MAX_CORES, ROUND, Vcpu, WHOLE_PPM};
use tab_io::{Sink, WriteFault};
use view_cells::{Cell, put_cells};
use view_doc::View;

// Writes what is after the rows of vCPUs or of VMs.
pub(crate) fn put_end<K: Sink>(
    sink: &mut K,
    host: Option<&[Vcpu]>,
    view: &View,
    figures: &Figures,
    tick_ns: u32,
) -> Result<(), WriteFault>
    requires figures { AreFigures view.now figures.now }
    requires few { view.now.cores ≤ MAX_CORES }
    requires vcpus { length view.now.tasks.items ≤ MAX_VCPUS }
    ensures { Writes (K.state sink.old) (K.state sink.new)
        (end_text (option_copied host.entry) (is_refused figures.now.refusal.items) tick_ns view.now) result }
{
    put_core_head(sink)?;
    put_cores(sink, view)?;
    put_total(sink, host, view, figures, tick_ns)
}

// Writes the line of totals.
fn put_total<K: Sink>(
    sink: &mut K,
    host: Option<&[Vcpu]>,
    view: &View,
    figures: &Figures,
    tick_ns: u32,
) -> Result<(), WriteFault>
    requires figures { AreFigures view.now figures.now }
    requires few { view.now.cores ≤ MAX_CORES }
    requires vcpus { length view.now.tasks.items ≤ MAX_VCPUS }
    ensures { Writes (K.state sink.old) (K.state sink.new)
        (total_text (option_copied host.entry) (is_refused figures.now.refusal.items) tick_ns view.now) result }
{
    let given = given_below(view, figures);
    let full = full_of(busy_below(view), view.cores);
    match host {
        None => {
            let split = split_below(view, figures);
            put_plain_total(sink, view.tasks.len(), given, full, split)
        }
        Some(vcpus) => put_asked_total(sink, vcpus, view, figures, tick_ns, given, full),
    }
}

#[tactic(auto, unfolding(crate::specs::Totals::plain_total))]
fn put_plain_total<K: Sink>(
    sink: &mut K,
    vcpus: usize,
    given: u64,
    full: u64,
    split: u64,
) -> Result<(), WriteFault>
    ensures { Writes (K.state sink.old) (K.state sink.new) (plain_total vcpus given full split) result }
{
    put_cells(
        sink,
        &[
            Cell::Text(b"\ntotal: vCPUs "),
            Cell::Count(0, vcpus as u64),
            Cell::Text(b", given "),
            Cell::Percent(0, given),
            Cell::Text(b" %, load "),
            Cell::Percent(0, full),
            Cell::Text(b" %, split "),
            Cell::Count(0, split),
            Cell::Text(b"\n"),
        ],
    )
}

fn put_asked_total<K: Sink>(
    sink: &mut K,
    vcpus: &[Vcpu],
    view: &View,
    figures: &Figures,
    tick_ns: u32,
    given: u64,
    full: u64,
) -> Result<(), WriteFault>
    requires figures { AreFigures view.now figures.now }
    requires few { view.now.cores ≤ MAX_CORES }
    requires vcpus { length view.now.tasks.items ≤ MAX_VCPUS }
    ensures { Writes (K.state sink.old) (K.state sink.new)
        (asked_total (length view.now.tasks.items) (asked_below vcpus.now view.now.names.items
        (length view.now.tasks.items)) given full (is_refused figures.now.refusal.items)
        (count_where (has_all tick_ns vcpus.now view.now.names.items view.now.slots.items)
        (length view.now.tasks.items)) (count_where (is_share_asked vcpus.now view.now.names.items)
        (length view.now.tasks.items)) (split_below view.now.slots.items view.now.cores
        (length view.now.tasks.items))) result }
{
    let asked = asked_below(view, vcpus);
    let kept = kept_below(view, vcpus, figures, tick_ns);
    let admitted = admitted_below(view, vcpus);
    let split = split_below(view, figures);
    put_cells(
        sink,
        &[
            Cell::Text(b"\ntotal: vCPUs "),
            Cell::Count(0, view.tasks.len() as u64),
            Cell::Text(b", asked "),
            Cell::Percent(0, asked),
            Cell::Text(b" %, given "),
            Cell::Percent(0, given),
            Cell::Text(b" %, load "),
            Cell::Percent(0, full),
            Cell::Text(b" %, kept "),
            kept_count(is_refused(figures), kept),
            Cell::Text(b" of "),
            Cell::Count(0, admitted),
            Cell::Text(b", split "),
            Cell::Count(0, split),
            Cell::Text(b"\n"),
        ],
    )
}

// How many have what they were promised, which is open where the tables are refused.
fn kept_count(is_refused: bool, kept: u64) -> Cell<'static>
    ensures { cell_text result ≡ kept_count is_refused kept }
{
    if is_refused {
        Cell::Text(b"?")
    } else {
        Cell::Count(0, kept)
    }
}

// The shares of all vCPUs together.
#[tactic(auto, using(crate::proofs::GroupLemmas::sum_none, crate::proofs::GroupLemmas::sum_more))]
fn given_below(view: &View, figures: &Figures) -> u64
    requires figures { AreFigures view.now figures.now }
    requires vcpus { length view.now.tasks.items ≤ MAX_VCPUS }
    ensures { result ≡ given_below view.now.slots.items (length view.now.tasks.items) }
{
    let mut share = 0;
    for vcpu in 0..view.tasks.len() {
        share += given_share(view, figures, vcpu);
    }
    share
}

// The shares together that the host has for them.
#[tactic(auto, using(crate::proofs::GroupLemmas::sum_none, crate::proofs::GroupLemmas::sum_more))]
fn asked_below(view: &View, vcpus: &[Vcpu]) -> u64
    requires { length view.now.tasks.items ≤ MAX_VCPUS }
    ensures { result ≡ asked_below vcpus.now view.now.names.items (length view.now.tasks.items) }
{
    let mut share = 0;
    for vcpu in 0..view.tasks.len() {
        share += ppm_at(view, vcpus, vcpu);
    }
    share
}

// How many of them the host admits.
fn admitted_below(view: &View, vcpus: &[Vcpu]) -> u64
    requires { length view.now.tasks.items ≤ MAX_VCPUS }
    ensures { result ≡ count_where (is_share_asked vcpus.now view.now.names.items)
        (length view.now.tasks.items) }
{
    let mut count = 0;
    for vcpu in 0..view.tasks.len() {
        if is_admitted(view, vcpus, vcpu) {
            count += 1;
        }
    }
    count
}

fn is_admitted(view: &View, vcpus: &[Vcpu], vcpu: usize) -> bool
    ensures { result ≡ is_share_asked vcpus.now view.now.names.items vcpu }
{
    match asked_at(view, vcpus, vcpu) {
        Some(_) => true,
        None => false,
    }
}

// How many of these have what they were promised.
fn kept_below(view: &View, vcpus: &[Vcpu], figures: &Figures, tick_ns: u32) -> u64
    requires figures { AreFigures view.now figures.now }
    requires vcpus { length view.now.tasks.items ≤ MAX_VCPUS }
    ensures { result ≡ count_where (has_all tick_ns vcpus.now view.now.names.items view.now.slots.items)
        (length view.now.tasks.items) }
{
    let mut count = 0;
    for vcpu in 0..view.tasks.len() {
        if has_all(view, vcpus, figures, tick_ns, vcpu) {
            count += 1;
        }
    }
    count
}

fn has_all(view: &View, vcpus: &[Vcpu], figures: &Figures, tick_ns: u32, vcpu: usize) -> bool
    requires figures { AreFigures view.now figures.now }
    requires low { vcpu < length view.now.tasks.items }
    ensures { result ≡ has_all tick_ns vcpus.now view.now.names.items view.now.slots.items vcpu }
{
    is_admitted(view, vcpus, vcpu) && !is_broken(view, vcpus, figures, tick_ns, vcpu)
}

// How many of the vCPUs are split.
fn split_below(view: &View, figures: &Figures) -> u64
    requires figures { AreFigures view.now figures.now }
    requires few { view.now.cores ≤ MAX_CORES }
    requires vcpus { length view.now.tasks.items ≤ MAX_VCPUS }
    ensures { result ≡ split_below view.now.slots.items view.now.cores (length view.now.tasks.items) }
{
    let mut count = 0;
    for vcpu in 0..view.tasks.len() {
        if is_split(view, figures, vcpu) {
            count += 1;
        }
    }
    count
}

// Whether the vCPU has slots on two cores or more.
fn is_split(view: &View, figures: &Figures, vcpu: usize) -> bool
    requires figures { AreFigures view.now figures.now }
    requires few { view.now.cores ≤ MAX_CORES }
    requires low { vcpu < length view.now.tasks.items }
    ensures { result ≡ is_split view.now.slots.items view.now.cores vcpu }
{
    1 < cores_with(view, figures, vcpu)
}

// On how many cores the vCPU has slots.
fn cores_with(view: &View, figures: &Figures, vcpu: usize) -> u32
    requires figures { AreFigures view.now figures.now }
    requires few { view.now.cores ≤ MAX_CORES }
    requires low { vcpu < length view.now.tasks.items }
    ensures { result ≡ cores_with view.now.slots.items view.now.cores vcpu }
{
    let mut count = 0;
    for core in 0..view.cores {
        if has_slot_on(view, figures, vcpu, core) {
            count += 1;
        }
    }
    count
}

fn has_slot_on(view: &View, figures: &Figures, vcpu: usize, core: u32) -> bool
    requires figures { AreFigures view.now figures.now }
    requires few { core < MAX_CORES }
    requires low { vcpu < length view.now.tasks.items }
    ensures { result ≡ has_slot_on view.now.slots.items vcpu core }
{
    figures.stands[vcpu * MAX_CORES as usize + core as usize]
}

// The ticks of the slots of all cores.
#[tactic(auto, using(crate::proofs::GroupLemmas::sum_none, crate::proofs::GroupLemmas::sum_more))]
fn busy_below(view: &View) -> u64
    requires { view.now.cores ≤ MAX_CORES }
    ensures value { result ≡ busy_below view.now.slots.items view.now.cores }
    ensures small { result < 2 ^ 40 }
{
    let loads = loads_of(&view.slots);
    let mut ticks = 0;
    for core in 0..view.cores {
        ticks += u64::from(loads[core as usize]);
    }
    ticks
}

// How full the cores are, in parts per million.
fn full_of(ticks: u64, cores: u32) -> u64
    requires { ticks < 2 ^ 40 }
    ensures { result ≡ full_of ticks cores }
{
    if cores == 0 {
        0
    } else {
        ticks * u64::from(WHOLE_PPM) / (u64::from(cores) * u64::from(ROUND))
    }
}
