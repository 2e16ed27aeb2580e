ghost use Rattle.std.specs.Prelude.{ℕ, ◌≡◌, ◌⊎◌, ◌*◌, ◌<◌, ◌≤◌, Contains, IfOk, length, slice_index};
ghost use Rattle.tab_core.specs.declared.TheConstants.{ROUND};
ghost use Rattle.flow_net.specs.Allotments.{AreMarks};
ghost use Rattle.flow_net.specs.Inside.Marking.{AreAmong, IsNextMark};

use std::alloc::Global;
use tab_core::{NoMemory, ROUND};

// Adds a period, if it isn't listed.
fn add_once(few: &mut Vec<u32>, period: u32) -> Result<(), NoMemory>
    ensures added { IfOk result (λ _. Contains few.new.items period) }
    ensures kept { IfOk result (λ _. AreAmong few.old.items few.new.items) }
    ensures no_more { IfOk result (λ _. (n : ℕ) → Contains few.new.items n
        → Contains few.old.items n ⊎ (n ≡ period)) }
{
    if few.contains(&period) {
        return Ok(());
    }
    few.push(period)?;
    Ok(())
}

// The periods, each of them once.
fn each_once(alloc: Global, periods: &[u32]) -> Result<Vec<u32>, NoMemory>
    ensures all { IfOk result (λ few. AreAmong periods.now few.items) }
    ensures no_more { IfOk result (λ few. AreAmong few.items periods.now) }
{
    let mut few = Vec::new(alloc);
    for v in 0..periods.len() {
        let period = periods[v];
        add_once(&mut few, period)?;
    }
    Ok(few)
}

// The first mark after a tick: the round's end, or a multiple of a period.
fn next_mark(periods: &[u32], tick: u32) -> u32
    requires some { (v : ℕ) → v < length periods.now → 0 < slice_index periods.now v }
    requires short { (v : ℕ) → v < length periods.now → slice_index periods.now v ≤ ROUND }
    requires in_round { tick < ROUND }
    ensures { IsNextMark periods.now tick (length periods.now) result }
{
    let mut mark = ROUND;
    for v in 0..periods.len() {
        let period = periods[v];
        mark = mark.min((tick / period + 1) * period);
    }
    mark
}

// The marks of these periods, which are few.
fn marks_of_few(alloc: Global, periods: &[u32]) -> Result<Vec<u32>, NoMemory>
    requires some { (v : ℕ) → v < length periods.now → 0 < slice_index periods.now v }
    requires short { (v : ℕ) → v < length periods.now → slice_index periods.now v ≤ ROUND }
    ensures { IfOk result (λ marks. AreMarks periods.now marks.items) }
{
    let mut marks = Vec::new(alloc);
    marks.push(0)?;
    let mut tick = 0;
    while tick < ROUND {
        tick = next_mark(periods, tick);
        marks.push(tick)?;
    }
    Ok(marks)
}

// The marks of these periods.
pub(crate) fn marks_of(alloc: Global, periods: &[u32]) -> Result<Vec<u32>, NoMemory>
    requires some { (v : ℕ) → v < length periods.now → 0 < slice_index periods.now v }
    requires short { (v : ℕ) → v < length periods.now → slice_index periods.now v ≤ ROUND }
    ensures { IfOk result (λ marks. AreMarks periods.now marks.items) }
{
    let few = each_once(alloc, periods)?;
    marks_of_few(alloc, &few)
}
