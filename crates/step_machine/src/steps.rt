ghost use Rattle.std.specs.Prelude.{◌≡◌, ◌+◌, ◌<◌, ◌≤◌, ℕ, Some, slice_get};
ghost use Rattle.tab_core.specs.declared.TheConstants.{MAX_ROUNDS};
ghost use Rattle.script_doc.specs.declared.step.Step.{Step};
ghost use Rattle.table_form.specs.Running.Invariant.{StateInvariant};
ghost use Rattle.table_form.specs.Running.State.{CoreState};
ghost use Rattle.table_form.specs.Running.Entering.{Decides};
ghost use Rattle.table_form.specs.Running.Phases.{to_decide, phase_of, round_of};
ghost use Rattle.step_machine.specs.Answers.{AnswersStep};
ghost use Rattle.step_machine.specs.Inside.Logs.{cores_of_logs, KnowLast};
ghost use Rattle.step_machine.specs.Inside.MachineStates.{state_of_machine, HasSpare};
ghost use Rattle.step_machine.specs.Inside.Worlds.{HaveSlices};

use crate::answer::{Answer, Phase};
use crate::machine_state::MachineState;
use crate::premises::{has_up_to, lowest_behind, phase_at};
use crate::stints::{seen_by, stint_now};
use crate::updates::{push_entry, push_stint, take_count};
use script_doc::Step;
use slice_table::CoreSlices;
use tab_core::{Actor, Entry, ROUND};
use table_form::Course;

// Posts the next event, if no clock is too low.
pub(crate) fn post(course: &Course, rounds: u32, machine: &mut MachineState) -> Answer
    requires few { rounds ≤ MAX_ROUNDS }
    requires kept { StateInvariant course.now rounds (state_of_machine machine.old) }
    ensures answer { AnswersStep course.now rounds (state_of_machine machine.old) Step.Post result
        (state_of_machine machine.new) }
    ensures spare { (n : ℕ) → HasSpare rounds (n + 1) machine.old → HasSpare rounds n machine.new }
    ensures last { KnowLast course.now machine.old.logs.items → KnowLast course.now machine.new.logs.items }
{
    if machine.posted == course.count() {
        return Answer::NotNow {
            phase: Phase::AllPosted,
        };
    }
    let tick = course.tick_of(machine.posted);
    match lowest_behind(&machine.logs, course.lag(), None, tick) {
        Some(low) => Answer::Behind {
            who: Actor::Core(low.core),
            tick: low.clock,
        },
        None => {
            machine.posted += 1;
            Answer::Done
        }
    }
}

// The core takes the posted count, if that has all that it must.
pub(crate) fn see(course: &Course, rounds: u32, machine: &mut MachineState, c: usize) -> Answer
    requires few { rounds ≤ MAX_ROUNDS }
    requires core { c < course.now.cores }
    requires kept { StateInvariant course.now rounds (state_of_machine machine.old) }
    ensures answer { AnswersStep course.now rounds (state_of_machine machine.old) (Step.See c) result
        (state_of_machine machine.new) }
    ensures spare { (n : ℕ) → HasSpare rounds (n + 1) machine.old → HasSpare rounds n machine.new }
    ensures last { KnowLast course.now machine.old.logs.items → KnowLast course.now machine.new.logs.items }
{
    let log = &machine.logs[c];
    if let Phase::Finished = phase_at(log, rounds) {
        return Answer::NotNow {
            phase: Phase::Finished,
        };
    }
    if !has_up_to(course, machine.posted, log.clock) {
        return Answer::Behind {
            who: Actor::Controller,
            tick: course.tick_of(machine.posted),
        };
    }
    take_count(&mut machine.logs, c, machine.posted);
    Answer::Done
}

// The core enters its clock's round, with the round's count, which is its own if it is the first.
pub(crate) fn decide(course: &Course, rounds: u32, machine: &mut MachineState, c: usize) -> Answer
    requires few { rounds ≤ MAX_ROUNDS }
    requires core { c < course.now.cores }
    requires kept { StateInvariant course.now rounds (state_of_machine machine.old) }
    requires spare { HasSpare rounds 1 machine.old }
    ensures answer { AnswersStep course.now rounds (state_of_machine machine.old) (Step.Decide c) result
        (state_of_machine machine.new) }
    ensures spare { (n : ℕ) → HasSpare rounds (n + 1) machine.old → HasSpare rounds n machine.new }
    ensures last { KnowLast course.now machine.old.logs.items → KnowLast course.now machine.new.logs.items }
{
    let log = &machine.logs[c];
    let phase = phase_at(log, rounds);
    let Phase::Decide = phase else {
        return Answer::NotNow { phase };
    };
    let seen = seen_by(log, rounds);
    let round = log.clock / ROUND;
    enter(course, rounds, machine, c, round, seen);
    Answer::Done
}

fn enter(course: &Course, rounds: u32, machine: &mut MachineState, c: usize, round: u32, seen: u32)
    requires few { rounds ≤ MAX_ROUNDS }
    requires core { c < course.now.cores }
    requires kept { StateInvariant course.now rounds (state_of_machine machine.old) }
    requires spare { HasSpare rounds 1 machine.old }
    requires due { (core : CoreState) → slice_get (cores_of_logs machine.old.logs.items) c ≡ Some core
        → (phase_of rounds core ≡ to_decide) × (core.seen ≡ Some seen) × (round ≡ round_of core) }
    ensures answer { Decides rounds c (state_of_machine machine.old) (state_of_machine machine.new) }
    ensures spare { (n : ℕ) → HasSpare rounds (n + 1) machine.old → HasSpare rounds n machine.new }
    ensures last { KnowLast course.now machine.old.logs.items → KnowLast course.now machine.new.logs.items }
{
    if (round as usize) < machine.decided.len() {
        let used = machine.decided[round as usize];
        push_entry(
            &mut machine.logs,
            c,
            Entry {
                round,
                used,
                seen,
                won: false,
            },
        );
    } else {
        machine.decided.push_reserved(seen);
        push_entry(
            &mut machine.logs,
            c,
            Entry {
                round,
                used: seen,
                seen,
                won: true,
            },
        );
    }
}

// The core runs its next stint, if no other clock is too low.
pub(crate) fn run(
    course: &Course,
    slices: &[CoreSlices],
    rounds: u32,
    machine: &mut MachineState,
    c: usize,
) -> Answer
    requires few { rounds ≤ MAX_ROUNDS }
    requires core { c < course.now.cores }
    requires sliced { HaveSlices course.now slices.now }
    requires kept { StateInvariant course.now rounds (state_of_machine machine.old) }
    requires spare { HasSpare rounds 1 machine.old }
    requires known { KnowLast course.now machine.old.logs.items }
    ensures answer { AnswersStep course.now rounds (state_of_machine machine.old) (Step.Run c) result
        (state_of_machine machine.new) }
    ensures spare { (n : ℕ) → HasSpare rounds (n + 1) machine.old → HasSpare rounds n machine.new }
    ensures last { KnowLast course.now machine.old.logs.items → KnowLast course.now machine.new.logs.items }
{
    let log = &machine.logs[c];
    let phase = phase_at(log, rounds);
    let Phase::Run = phase else {
        return Answer::NotNow { phase };
    };
    let next = stint_now(course, slices, rounds, machine, c);
    match lowest_behind(&machine.logs, course.lag(), Some(c as u32), next.stint.end) {
        Some(low) => Answer::Behind {
            who: Actor::Core(low.core),
            tick: low.clock,
        },
        None => {
            push_stint(&mut machine.logs, c, next.stint, next.last);
            Answer::Done
        }
    }
}
