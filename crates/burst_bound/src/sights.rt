ghost use Rattle.std.specs.Prelude.{◌≡◌, ◌<◌, ◌≤◌, ◌^◌, ℕ, Some, length, replicate, slice_get, slice_index};
ghost use Rattle.tab_core.specs.declared.stint.Stint.{Stint as StintValue};
ghost use Rattle.table_form.specs.Running.State.{State as StateValue};
ghost use Rattle.burst_bound.specs.Inside.Seeing.{AreInOrder, IsRaised, IsSeenBelow, IsUnseenCount};
ghost use Rattle.burst_bound.specs.KeptRuns.{IsKeptRun};

use core_workers::Crew;
use tab_core::{CoreNo, Stint};
use table_form::Course;

// For each event the tick from which on each core has seen it, which may be the run's end.
pub(crate) fn fill_sights(course: &Course, rounds: u32, crew: &Crew<'_>, sights: &mut [u32])
    requires few { length sights.old < 2 ^ 32 }
    requires kept { (s : StateValue) × IsKeptRun course.now rounds crew.now s }
    ensures size { length sights.new ≡ length sights.old }
    ensures sights { (s : StateValue) (event : ℕ) → IsKeptRun course.now rounds crew.now s
        → event < length sights.old → IsSeenBelow s course.now.cores event (slice_index sights.new event) }
{
    clear(sights);
    for core in 0..course.cores() {
        let stints = crew.actor(CoreNo(core)).stints();
        raise(stints, sights);
    }
}

// Each event is seen from the begin on.
fn clear(sights: &mut [u32])
    ensures { sights.new ≡ replicate (length sights.old) 0 }
{
    sights.fill(0);
}

// Raises the tick of each event to where these stints have seen it. Both go on together.
fn raise(stints: &[Stint], sights: &mut [u32])
    requires few { length sights.old < 2 ^ 32 }
    requires order { AreInOrder stints.now }
    ensures size { length sights.new ≡ length sights.old }
    ensures raised { (event : ℕ) → event < length sights.old
        → IsRaised event stints.now (slice_index sights.old event) (slice_index sights.new event) }
{
    let mut unseen = 0;
    for event in 0..sights.len() {
        unseen = unseen_from(stints, event as u32, unseen);
        if unseen > 0 {
            sights[event] = sights[event].max(stints[unseen - 1].end);
        }
    }
}

// How many of the stints haven't seen the event, of which these first ones haven't.
fn unseen_from(stints: &[Stint], event: u32, first: usize) -> usize
    requires order { AreInOrder stints.now }
    requires within { first ≤ length stints.now }
    requires first { (k : ℕ) (s : StintValue) → k < first → slice_get stints.now k ≡ Some s → s.seen ≤ event }
    ensures { IsUnseenCount event stints.now result }
{
    let mut unseen = first;
    while unseen < stints.len() && stints[unseen].seen <= event {
        unseen += 1;
    }
    unseen
}
