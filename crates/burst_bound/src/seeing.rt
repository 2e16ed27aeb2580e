ghost use Rattle.std.specs.Prelude.{ℕ, ◌≤◌};
ghost use Rattle.burst_bound.specs.Answers.{IsOneIfAny};
ghost use Rattle.burst_bound.specs.Bursts.{IsSeenAt};
ghost use Rattle.burst_bound.specs.Inside.Seeing.{AreInOrder, IsUnseenCount, SeesFrom};
ghost use Rattle.burst_bound.specs.KeptRuns.{IsKeptRun};
ghost use Rattle.table_form.specs.Running.State.{State as StateValue};

use core_workers::Crew;
use tab_core::{CoreNo, ROUND, Stint};
use table_form::Course;

// The tick from which on each core has seen the event, if it is before the run's end.
pub(crate) fn seen_at(course: &Course, rounds: u32, event: u32, crew: &Crew<'_>) -> Option<u32>
    requires { (s : StateValue) × IsKeptRun course.now rounds crew.now s }
    ensures { (s : StateValue) → IsKeptRun course.now rounds crew.now s
        → IsOneIfAny (IsSeenAt rounds s event) result }
{
    let mut latest = 0;
    for core in 0..course.cores() {
        let stints = crew.actor(CoreNo(core)).stints();
        latest = latest.max(unseen_until(stints, event));
    }
    if u64::from(latest) < u64::from(rounds) * u64::from(ROUND) {
        Some(latest)
    } else {
        None
    }
}

// The end of the last of the stints that hasn't seen the event.
fn unseen_until(stints: &[Stint], event: u32) -> u32
    requires { AreInOrder stints.now }
    ensures sees { SeesFrom event result stints.now }
    ensures least { (x : ℕ) → SeesFrom event x stints.now → result ≤ x }
{
    let unseen = unseen_count(stints, event);
    if unseen == 0 {
        return 0;
    }
    stints[unseen - 1].end
}

// How many of the stints haven't seen the event.
fn unseen_count(stints: &[Stint], event: u32) -> usize
    requires { AreInOrder stints.now }
    ensures { IsUnseenCount event stints.now result }
{
    stints.partition_point(|stint| stint.seen <= event)
}
