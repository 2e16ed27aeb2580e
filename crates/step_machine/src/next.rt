ghost use Rattle.std.specs.Prelude.{◌+◌, ◌<◌, ◌≤◌, IfSome, IfNone, length};
ghost use Rattle.table_form.specs.Running.Courses.{FitsRounds};
ghost use Rattle.table_form.specs.Running.Invariant.{StateInvariant};
ghost use Rattle.table_form.specs.Running.Complete.{IsComplete};
ghost use Rattle.step_machine.specs.Inside.Logs.{IsLowestOf};
ghost use Rattle.step_machine.specs.Next.{IsNextStep};
ghost use Rattle.step_machine.specs.Inside.MachineStates.{state_of_machine};

use crate::answer::Phase;
use crate::core_log::CoreLog;
use crate::machine_state::MachineState;
use crate::premises::{has_up_to, phase_at};
use script_doc::Step;
use tab_core::CoreNo;
use table_form::Course;

// A step that is allowed now, where the run isn't whole.
pub(crate) fn next_step(course: &Course, rounds: u32, machine: &MachineState) -> Option<Step>
    requires fits { FitsRounds course.now rounds }
    requires kept { StateInvariant course.now rounds (state_of_machine machine.now) }
    ensures some { IfSome result (λ step. IsNextStep course.now rounds (state_of_machine machine.now) step) }
    ensures none { IfNone result (IsComplete course.now rounds (state_of_machine machine.now)) }
{
    // the course keeps what its type says
    let _lag = course.lag();
    let c = lowest(&machine.logs);
    let log = &machine.logs[c];
    match phase_at(log, rounds) {
        Phase::Finished => {
            if machine.posted == course.count() {
                None
            } else {
                Some(Step::Post)
            }
        }
        Phase::See => {
            if has_up_to(course, machine.posted, log.clock) {
                Some(Step::See(CoreNo(c as u32)))
            } else {
                Some(Step::Post)
            }
        }
        Phase::Decide => Some(Step::Decide(CoreNo(c as u32))),
        Phase::Run => {
            // a plan has few vCPUs, so whoever owns the slot has a number that a stint can have
            let _tasks = course.plan_after(0).tasks.items();
            Some(Step::Run(CoreNo(c as u32)))
        }
        Phase::AllPosted => unreachable!(),
    }
}

// The lowest core of least clock.
fn lowest(logs: &[CoreLog]) -> usize
    requires { 0 < length logs.now }
    ensures within { result < length logs.now }
    ensures least { IsLowestOf logs.now (length logs.now) result }
{
    let mut best = 0;
    for d in 0..logs.len() {
        best = lower_of(logs, best, d);
    }
    best
}

fn lower_of(logs: &[CoreLog], best: usize, d: usize) -> usize
    requires best { best < length logs.now }
    requires d { d < length logs.now }
    requires above { best ≤ d }
    requires least { IsLowestOf logs.now d best }
    ensures within { result < length logs.now }
    ensures least { IsLowestOf logs.now (d + 1) result }
    ensures above { result ≤ d + 1 }
{
    if logs[d].clock < logs[best].clock {
        d
    } else {
        best
    }
}
