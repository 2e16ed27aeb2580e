ghost use Rattle.std.specs.Prelude.{◌≡◌, ◌⊎◌, ◌<◌, ◌≤◌, Some, length, slice_get};
ghost use Rattle.tab_core.specs.declared.TheConstants.{MAX_ROUNDS};
ghost use Rattle.tab_core.specs.declared.entry.Entry.{Entry as EntryValue};
ghost use Rattle.table_form.specs.Running.Choice.{last_after};
ghost use Rattle.table_form.specs.Running.Invariant.{StateInvariant};
ghost use Rattle.table_form.specs.Running.State.{CoreState};
ghost use Rattle.table_form.specs.Running.Phases.{to_decide, to_run, phase_of};
ghost use Rattle.table_form.specs.Running.Stints.{IsNextStint};
ghost use Rattle.step_machine.specs.declared.core_log.CoreLog.{CoreLog as LogValue};
ghost use Rattle.step_machine.specs.Inside.Logs.{core_of_log, cores_of_logs, KnowLast};
ghost use Rattle.step_machine.specs.Inside.MachineStates.{state_of_machine};
ghost use Rattle.step_machine.specs.Inside.Worlds.{HaveSlices};

use crate::core_log::CoreLog;
use crate::machine_state::MachineState;
use second_level::{Begin, Next};
use slice_table::CoreSlices;
use tab_core::{CoreNo, ROUND};
use table_form::Course;

// The stint that the core would run now.
pub(crate) fn stint_now(
    course: &Course,
    slices: &[CoreSlices],
    rounds: u32,
    machine: &MachineState,
    c: usize,
) -> Next
    requires few { rounds ≤ MAX_ROUNDS }
    requires core { c < course.now.cores }
    requires sliced { HaveSlices course.now slices.now }
    requires kept { StateInvariant course.now rounds (state_of_machine machine.now) }
    requires known { KnowLast course.now machine.now.logs.items }
    requires due { (core : CoreState) → slice_get (cores_of_logs machine.now.logs.items) c ≡ Some core
        → phase_of rounds core ≡ to_run }
    ensures next { (core : CoreState) → slice_get (cores_of_logs machine.now.logs.items) c ≡ Some core
        → IsNextStint course.now rounds c core result.stint }
    ensures last { (log : LogValue) → slice_get machine.now.logs.items c ≡ Some log
        → result.last ≡ last_after course.now c log.last result.stint }
{
    let outline = course.outline();
    let log = &machine.logs[c];
    let (from, seen) = (log.clock, seen_by(log, rounds));
    let used = used_in(log, from / ROUND);
    let core = CoreNo(c as u32);
    let table = slices[c].table_after(course, used);
    let span = table.span(from % ROUND);
    let begin = Begin {
        from,
        seen,
        used,
        last: log.last,
    };
    second_level::next_stint(outline, core, &begin, &span)
}

// What a core has seen that is to enter a round or to run.
pub(crate) fn seen_by(log: &CoreLog, rounds: u32) -> u32
    requires { (phase_of rounds (core_of_log log.now) ≡ to_decide)
        ⊎ (phase_of rounds (core_of_log log.now) ≡ to_run) }
    ensures { log.now.seen ≡ Some result }
{
    match log.seen {
        None => unreachable!(),
        Some(seen) => seen,
    }
}

// The count of the core's entry of the round.
fn used_in(log: &CoreLog, round: u32) -> u32
    requires { round < length log.now.entries.items }
    ensures { (entry : EntryValue) → slice_get log.now.entries.items round ≡ Some entry
        → entry.used ≡ result }
{
    log.entries[round as usize].used
}
