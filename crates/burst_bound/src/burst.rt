ghost use Rattle.std.specs.Prelude.{◌<◌, ◌≤◌, ℕ, length};
ghost use Rattle.tab_core.specs.declared.TheConstants.{MAX_ROUNDS};
ghost use Rattle.table_form.specs.Running.State.{State as StateValue};
ghost use Rattle.burst_bound.specs.Answers.{IsBurstAnswer};
ghost use Rattle.burst_bound.specs.KeptRuns.{IsKeptRun};

use crate::answer::BurstAnswer;
use crate::bounding::bound_since;
use crate::counting::done_at;
use crate::seeing::seen_at;
use core_workers::Crew;
use tab_core::{CoreNo, VcpuNo};
use table_form::Course;

/// What is answered of an event that brings so many ticks of work for the vCPU, in a whole run that the crew
/// keeps.
///
/// It is seen from the least tick of the run on from which on every core's stints have seen it. It is done
/// at the least tick of the run up to which the vCPU has run, since it was seen, at as many ticks as it has
/// work. Its bound is the end of the ceil(work / cost)-th whole period of the vCPU after the period in which
/// it is seen, by the task that the plan has there. There is none where that end is beyond the run, where the plan of a
/// round up to it gives the vCPU another budget, or where the vCPU isn't runnable after some count of events
/// that has the event. Where there is a bound, the burst is done by then.
///
/// Takes no memory. The rules of bursts are this project's.
pub fn bound_of(
    course: &Course,
    rounds: u32,
    event: u32,
    vcpu: VcpuNo,
    work: u32,
    crew: &Crew<'_>,
) -> BurstAnswer
    requires few { rounds ≤ MAX_ROUNDS }
    requires event { event < length course.now.ticks }
    requires work { 1 ≤ work }
    requires kept { (s : StateValue) × IsKeptRun course.now rounds crew.now s }
    ensures { (s : StateValue) → IsKeptRun course.now rounds crew.now s
        → IsBurstAnswer course.now rounds s event vcpu work result }
{
    let Some(seen) = seen_at(course, rounds, event, crew) else {
        return BurstAnswer {
            seen: None,
            bound: None,
            done: None,
        };
    };
    course.count();
    let used = crew.actor(CoreNo(0)).used();
    BurstAnswer {
        seen: Some(seen),
        bound: bound_since(course, rounds, used, event, vcpu, work, seen),
        done: done_at(course, rounds, crew, vcpu, work, seen),
    }
}
