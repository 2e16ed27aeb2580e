ghost use Rattle.std.specs.Prelude.{◌≡◌, ◌+◌, ◌<◌, ◌≤◌, ℕ, IfOk, OnOk, length};
ghost use Rattle.tab_core.specs.declared.TheConstants.{ROUND};
ghost use Rattle.table_form.specs.Tables.Views.{plan_view};
ghost use Rattle.slice_table.specs.Inside.OwnSpans.{AreKnown, IsOwn, owner_of};
ghost use Rattle.slice_table.specs.Inside.SpanLists.{shown_at};
ghost use Rattle.slice_table.specs.Inside.Sweeps.{IsScope};
ghost use Rattle.slice_table.specs.Slices.{AreSpansOf};

use crate::full_span::sharers_there;
use crate::scope::Scope;
use crate::sight::nobody;
use crate::span_list::{Shown, SpanEntry, SpanList};
use std::alloc::{AllocError, Global};
use tab_core::{MAX_VCPUS, VcpuNo, VcpuSet};
use table_form::{Plan, Segment};

// Places for numbers of what spans show: one for each owner, and one for idle time.
const PLACES: usize = 257;

// Where an owner has no span yet.
const NONE: u32 = u32::MAX;

/// The spans of a core's row where nobody is ever away: its segments.
pub(crate) fn own_spans(alloc: Global, plan: &Plan, scope: &Scope) -> Result<SpanList, AllocError>
    requires scope { IsScope (plan_view plan.now) scope.now }
    requires alone { length scope.now.others.items ≡ 0 }
    ensures { IfOk result (λ spans. AreSpansOf (plan_view plan.now) scope.now.core 0 spans ROUND) }
{
    let segments = plan.tables.rows.items()[scope.core.index()].segments();
    let mut entries = Vec::with_capacity(alloc, segments.len())?;
    let mut shown = Vec::new(alloc);
    let mut numbers = [NONE; PLACES];
    for at in 0..segments.len() {
        let segment = segments[at];
        let number = number_of(&mut shown, &mut numbers, &segment, &scope.sharers)?;
        let end = segment.end;
        entries.push(SpanEntry { end, shown: number })?;
    }
    shown.shrink_to_fit();
    Ok(SpanList::of(entries, shown))
}

// The number of what the segment's span shows, which is added where its owner has no span yet.
fn number_of(
    shown: &mut Vec<Shown>,
    numbers: &mut [u32; PLACES],
    segment: &Segment,
    core_sharers: &VcpuSet,
) -> Result<u32, AllocError>
    requires few { length shown.old.items < ROUND }
    requires known { AreKnown core_sharers.now shown.old.items numbers.old }
    ensures known { OnOk result (AreKnown core_sharers.now shown.new.items numbers.new) }
    ensures there { IfOk result (λ number. number < length shown.new.items) }
    ensures own { IfOk result (λ number. IsOwn core_sharers.now segment.now.owner
        (shown_at shown.new.items number)) }
    ensures few { OnOk result (length shown.new.items ≤ length shown.old.items + 1) }
    ensures more { OnOk result (length shown.old.items ≤ length shown.new.items) }
    ensures kept { OnOk result ((k : ℕ) → k < length shown.old.items
        → shown_at shown.new.items k ≡ shown_at shown.old.items k) }
{
    let place = owner_place(segment.owner.vcpu());
    let number = numbers[place];
    if number != NONE {
        return Ok(number);
    }
    let next = shown.len() as u32;
    shown.push(shown_alone(segment, core_sharers))?;
    numbers[place] = next;
    Ok(next)
}

/// The place of the owner in a list with one for each owner and, at last, one for idle time.
pub(crate) fn owner_place(owner: Option<VcpuNo>) -> usize
    ensures place { result < PLACES }
    ensures owner { owner_of result ≡ owner }
{
    match owner {
        None => MAX_VCPUS as usize,
        Some(vcpu) => vcpu.index(),
    }
}

// What the segment's span shows where nobody is away.
fn shown_alone(segment: &Segment, core_sharers: &VcpuSet) -> Shown
    ensures { IsOwn core_sharers.now segment.now.owner result }
{
    let sharers = sharers_there(core_sharers, &nobody(), segment.owner.vcpu());
    Shown {
        owner: segment.owner.vcpu(),
        away: nobody(),
        sharers,
    }
}
