ghost use Rattle.std.specs.Prelude.{◌≡◌, ◌+◌, ◌-◌, ◌%◌, ◌^◌, ◌≤◌, true, false, if◌then◌else◌, min};
ghost use Rattle.tab_core.specs.declared.TheConstants.{ROUND};
ghost use Rattle.table_form.specs.Running.Choice.{IsPick, owner_runs, runs_other};
ghost use Rattle.tab_core.specs.VcpuSets.{IsInBoth};
ghost use Rattle.second_level.specs.Stints.{CanBegin, LeadsTo};

use crate::round_robin::pick_common;
use std::cmp::min;
use tab_core::{CoreNo, ROUND, Stint, VcpuNo, VcpuSet};
use table_form::{Outline, Span};

/// Where a stint begins.
#[derive(Clone, Copy)]
pub struct Begin {
    /// The core's clock, in ticks.
    pub from: u32,
    /// How many events the core has seen.
    pub seen: u32,
    /// How many events the plan of the clock's round includes.
    pub used: u32,
    /// The core's last shared pick.
    pub last: Option<VcpuNo>,
}

/// A stint that comes next, and what it leaves to the one after it.
#[derive(Clone, Copy)]
pub struct Next {
    pub stint: Stint,
    /// Whether the stint runs somebody other than the owner of its first tick.
    pub shared: bool,
    /// The core's last shared pick after the stint.
    pub last: Option<VcpuNo>,
}

/// The stint that the core runs from there on, in this span of its row.
///
/// The owner of the slot runs if it is runnable, otherwise by round robin one of the span's sharers
/// that are runnable. The stint ends with the span, and at the latest a lag after its begin, a shared
/// one a quantum after it. `LeadsTo` says all of it, in each course of the outline whose plan there
/// shows the core this span. The rules are this project's, `IsDispatch` in
/// `table_form/specs/Running/Choice.antt`.
#[inline(always)]
pub fn next_stint(outline: &Outline, core: CoreNo, begin: &Begin, span: &Span<'_>) -> Next
    requires { CanBegin outline.now begin.now span.now }
    ensures { LeadsTo outline.now core begin.now span.now result }
{
    let start = begin.from - begin.from % ROUND;
    next_stint_in(outline, core, begin, start, span)
}

/// `next_stint` for a caller that knows where the round begins in which the stint does: at `start`, in ticks of the
/// run.
#[inline(always)]
pub fn next_stint_in(
    outline: &Outline,
    core: CoreNo,
    begin: &Begin,
    start: u32,
    span: &Span<'_>,
) -> Next
    requires start { start ≡ begin.now.from - begin.now.from % ROUND }
    requires begins { CanBegin outline.now begin.now span.now }
    ensures { LeadsTo outline.now core begin.now span.now result }
{
    let Begin {
        from,
        seen,
        used,
        last,
    } = *begin;
    let chosen = choose(span, outline.runnable_after(seen), last);
    let last = last_pick(chosen.shared, &chosen.ran, &last);
    let (lag, quantum) = (outline.lag(), outline.quantum());
    let end = end_of(start, span.end, from, lag, quantum, chosen.shared);
    Next {
        stint: Stint {
            from,
            end,
            seen,
            used,
            ran: chosen.ran,
        },
        shared: chosen.shared,
        last,
    }
}

// Whom a core runs in a span, and whether that is somebody other than its owner.
#[derive(Clone, Copy)]
struct Choice {
    ran: Option<VcpuNo>,
    shared: bool,
}

// Whom the core runs in the span: the owner if it is runnable, otherwise the pick among the sharers.
#[inline(always)]
fn choose(span: &Span<'_>, runnable: &VcpuSet, last: Option<VcpuNo>) -> Choice
    ensures slot { owner_runs span.now.owner runnable.now ≡ true → result.ran ≡ span.now.owner }
    ensures pick { owner_runs span.now.owner runnable.now ≡ false
        → IsPick (IsInBoth span.now.sharers.now runnable.now) last result.ran }
    ensures other { result.shared ≡ runs_other span.now.owner result.ran }
{
    if owner_can_run(span, runnable) {
        return Choice {
            ran: span.owner,
            shared: false,
        };
    }
    let ran = pick_common(last, span.sharers, runnable);
    let shared = is_other(span, &ran);
    Choice { ran, shared }
}

fn owner_can_run(span: &Span<'_>, runnable: &VcpuSet) -> bool
    ensures { result ≡ owner_runs span.now.owner runnable.now }
{
    match span.owner {
        None => false,
        Some(vcpu) => runnable.has(vcpu),
    }
}

// Whether somebody runs who isn't the owner.
fn is_other(span: &Span<'_>, ran: &Option<VcpuNo>) -> bool
    ensures { result ≡ runs_other span.now.owner ran.now }
{
    match (*ran, span.owner) {
        (None, _) => false,
        (Some(_), None) => true,
        (Some(vcpu), Some(owner)) => vcpu != owner,
    }
}

fn last_pick(shared: bool, ran: &Option<VcpuNo>, last: &Option<VcpuNo>) -> Option<VcpuNo>
    ensures { result ≡ (if shared then ran.now else last.now) }
{
    if shared { *ran } else { *last }
}

// The end of the span in the round that begins at `start`, or of the lag, or of a shared stint's quantum, whichever is
// first.
fn end_of(start: u32, span_end: u32, from: u32, lag: u32, quantum: u32, shared: bool) -> u32
    requires start { start ≡ from - from % ROUND }
    requires from { from ≤ 2 ^ 31 }
    requires span { span_end ≤ ROUND }
    requires lag { lag ≤ ROUND }
    requires quantum { quantum ≤ ROUND }
    ensures { result
        ≡ (if shared then min (min (from - from % ROUND + span_end) (from + lag))
        (from + quantum) else min (from - from % ROUND + span_end) (from + lag)) }
{
    let slot = min(start + span_end, from + lag);
    if shared {
        min(slot, from + quantum)
    } else {
        slot
    }
}
