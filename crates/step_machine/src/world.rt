ghost use Rattle.std.specs.Prelude.{◌≡◌, ◌+◌, ◌<◌, ◌≤◌, ℕ, [], List, min, Some, IfOk, IfSome, IfNone, length, slice_get, vec_capacity};
ghost use Rattle.tab_core.specs.declared.TheConstants.{MAX_ROUNDS};
ghost use Rattle.script_doc.specs.declared.step.Step.{Step};
ghost use Rattle.table_form.specs.Running.Courses.{FitsRounds, IsCourse};
ghost use Rattle.table_form.specs.Running.Invariant.{StateInvariant};
ghost use Rattle.table_form.specs.Running.Complete.{IsComplete};
ghost use Rattle.table_form.specs.Running.State.{CoreState, opening};
ghost use Rattle.step_machine.specs.Answers.{AnswersStep, NamesCore};
ghost use Rattle.step_machine.specs.Inside.Logs.{cores_of_logs, AreFew, KnowLast, IsNew, AreLogsNew};
ghost use Rattle.step_machine.specs.Inside.Marks.{AllStand, all_made};
ghost use Rattle.step_machine.specs.Next.{IsNextStep};
ghost use Rattle.step_machine.specs.Inside.MachineStates.{state_of_machine, HasSpare};
ghost use Rattle.step_machine.specs.Inside.Worlds.{HaveSlices};
ghost use Rattle.step_machine.specs.Traces.{AddsMade, AreMadeBy};
ghost use Rattle.step_machine.specs.declared.answer.Answer.TheVariants.{Done};
ghost use Rattle.step_machine.specs.declared.trace.Made.{Made as MadeValue};

use crate::answer::Answer;
use crate::core_log::CoreLog;
use crate::machine_state::MachineState;
use crate::mark::Mark;
use crate::next::next_step;
use crate::steps::{decide, post, run, see};
use crate::trace::Trace;
use script_doc::Step;
use slice_table::{CoreSlices, course_owners};
use std::alloc::Global;
use std::cmp::min;
use std::marker::Model;
use tab_core::{CoreNo, Entry, NoMemory, Stint};
use table_form::Course;

/// A run of the machine so far, with room for some more steps. Contracts see the course, the count
/// of rounds, how many steps there is room for, the state, and what the steps made.
#[derive(Drop)]
pub struct World<'a> {
    course: &'a Course,
    slices: Vec<CoreSlices>,
    rounds: u32,
    spare: u32,
    machine: MachineState,
    marks: Vec<Mark>,
}

impl<'a> Model for World<'a> {
    ghost use Rattle.step_machine.specs.Worlds.{WorldView};
    ghost use Rattle.step_machine.specs.Inside.Worlds.{IsWorld};
    ghost use Rattle.step_machine.specs.Inside.Logs.{cores_of_logs};
    ghost use Rattle.step_machine.specs.Inside.MachineStates.{state_of_machine};
    ghost use Rattle.step_machine.specs.Inside.Marks.{all_made};

    ghost Value = { WorldView };

    ghost view = { λ w. record {
      course = w.course.now;
      rounds = w.rounds;
      spare = w.spare;
      state = state_of_machine w.machine;
      made = all_made (cores_of_logs w.machine.logs.items) w.marks.items;
    } };

    ghost invariant = { λ w. IsWorld w.course.now w.slices.items w.rounds w.spare w.machine w.marks };
}

impl World<'_> {
    /// The opening state of a run of so many rounds, 1 to 10,000, with room for so many steps.
    ///
    /// Each event's tick lies in the run. Fails only when memory runs out.
    pub fn make(
        alloc: Global,
        course: &Course,
        rounds: u32,
        turns: u32,
    ) -> Result<World<'_>, NoMemory>
        requires { FitsRounds course.now rounds }
        ensures opens { IfOk result
            (λ w. w ≡ record {
              course = course.now;
              rounds = rounds;
              spare = turns;
              state = opening course.now.cores;
              made = [];
            }) }
        ensures course_kept { IfOk result (λ _. IsCourse course.now) }
        ensures kept { IfOk result (λ w. StateInvariant w.course w.rounds w.state) }
    {
        let decided = Vec::with_capacity(alloc, lesser(turns, rounds) as usize)?;
        let logs = new_logs(alloc, course.cores(), rounds, turns)?;
        let slices = new_slices(alloc, course)?;
        let marks = Vec::with_capacity(alloc, turns as usize)?;
        let machine = MachineState {
            posted: 0,
            decided,
            logs,
        };
        Ok(World {
            course,
            slices,
            rounds,
            spare: turns,
            machine,
            marks,
        })
    }

    /// Takes the step if it is due and nothing is missing, and answers `Done`. Otherwise it answers
    /// why not, and leaves the state as it was.
    ///
    /// There is room for a step, and a core that the step names is below the course's cores. Each
    /// call lowers by one for how many more steps there is room. The answer is `NotNow`
    /// exactly where the step isn't due, and `Behind` exactly where it is due and has to wait: the
    /// law `a_step_has_one_answer` says that no other answer is right.
    pub fn apply(&mut self, step: Step) -> Answer
        requires spare { 1 ≤ self.old.spare }
        requires core { NamesCore self.old.course step }
        ensures answer { AnswersStep self.old.course self.old.rounds self.old.state step result self.new.state }
        ensures made { AddsMade step result self.new.state self.old.made self.new.made }
        ensures spare { self.new.spare + 1 ≡ self.old.spare }
        ensures same { (self.new.course ≡ self.old.course) × (self.new.rounds ≡ self.old.rounds) }
        ensures kept { StateInvariant self.new.course self.new.rounds self.new.state }
    {
        let answer = take_step(
            self.course,
            &self.slices,
            self.rounds,
            &mut self.machine,
            &step,
        );
        note(&mut self.marks, &self.machine, &step, &answer);
        self.spare -= 1;
        answer
    }

    /// A step that is allowed now and changes the state, of the lowest core of least clock or of
    /// the controller. None exactly where the run is whole.
    pub fn next(&self) -> Option<Step>
        ensures some { IfSome result
            (λ step. IsNextStep self.now.course self.now.rounds self.now.state step) }
        ensures none { IfNone result (IsComplete self.now.course self.now.rounds self.now.state) }
    {
        next_step(self.course, self.rounds, &self.machine)
    }

    /// How many events are posted.
    pub fn posted(&self) -> u32
        ensures posted { result ≡ self.now.state.posted }
        ensures kept { StateInvariant self.now.course self.now.rounds self.now.state }
    {
        self.machine.posted
    }

    /// The core's clock, in ticks.
    pub fn clock(&self, c: CoreNo) -> u32
        requires { c < self.now.course.cores }
        ensures { (core : CoreState) → slice_get self.now.state.cores c ≡ Some core → result ≡ core.clock }
    {
        let at = c.index();
        self.machine.logs[at].clock
    }

    /// The count of events that the round's plan includes, if a core has entered the round.
    pub fn decided(&self, round: u32) -> Option<u32>
        ensures { result ≡ slice_get self.now.state.decided round }
    {
        self.machine.decided.get(round as usize).copied()
    }

    /// The core's stints, in order.
    pub fn stints(&self, c: CoreNo) -> &[Stint]
        requires { c < self.now.course.cores }
        ensures { (core : CoreState) → slice_get self.now.state.cores c ≡ Some core
            → result.now ≡ core.stints }
    {
        let at = c.index();
        &self.machine.logs[at].stints
    }

    /// The core's entries, by round.
    pub fn entries(&self, c: CoreNo) -> &[Entry]
        requires { c < self.now.course.cores }
        ensures { (core : CoreState) → slice_get self.now.state.cores c ≡ Some core
            → result.now ≡ core.entries }
    {
        let at = c.index();
        &self.machine.logs[at].entries
    }

    /// What the steps made, and how many events they posted.
    pub fn into_trace(self) -> Trace
        ensures made { result.made ≡ self.entry.made }
        ensures posted { result.posted ≡ self.entry.state.posted }
    {
        let World { machine, marks, .. } = self;
        let MachineState { posted, logs, .. } = machine;
        Trace {
            marks,
            logs,
            posted,
        }
    }
}

fn take_step(
    course: &Course,
    slices: &[CoreSlices],
    rounds: u32,
    machine: &mut MachineState,
    step: &Step,
) -> Answer
    requires few { rounds ≤ MAX_ROUNDS }
    requires sliced { HaveSlices course.now slices.now }
    requires core { NamesCore course.now step.now }
    requires kept { StateInvariant course.now rounds (state_of_machine machine.old) }
    requires spare { HasSpare rounds 1 machine.old }
    requires known { KnowLast course.now machine.old.logs.items }
    ensures answer { AnswersStep course.now rounds (state_of_machine machine.old) step.now result (state_of_machine machine.new) }
    ensures spare { (n : ℕ) → HasSpare rounds (n + 1) machine.old → HasSpare rounds n machine.new }
    ensures last { KnowLast course.now machine.old.logs.items → KnowLast course.now machine.new.logs.items }
{
    match *step {
        Step::Post => post(course, rounds, machine),
        Step::See(c) => see(course, rounds, machine, c.index()),
        Step::Decide(c) => decide(course, rounds, machine, c.index()),
        Step::Run(c) => run(course, slices, rounds, machine, c.index()),
    }
}

// Marks what the step made, where it is done. It led to this state.
fn note(marks: &mut Vec<Mark>, machine: &MachineState, step: &Step, answer: &Answer)
    requires room { length marks.old.items < vec_capacity marks.old }
    requires few { AreFew machine.now.logs.items }
    requires makes { answer.now ≡ Done → (more : List MadeValue) × AreMadeBy step.now (state_of_machine machine.now) more }
    ensures made { AddsMade step.now answer.now (state_of_machine machine.now)
        (all_made (cores_of_logs machine.now.logs.items) marks.old.items)
        (all_made (cores_of_logs machine.now.logs.items) marks.new.items) }
    ensures stand { AllStand (cores_of_logs machine.now.logs.items) marks.old.items
        → AllStand (cores_of_logs machine.now.logs.items) marks.new.items }
    ensures room { vec_capacity marks.new ≡ vec_capacity marks.old }
    ensures one { length marks.new.items ≤ length marks.old.items + 1 }
{
    let Answer::Done = *answer else {
        return;
    };
    match *step {
        Step::Post | Step::See(_) => {}
        Step::Decide(core) => {
            let count = machine.logs[core.index()].entries.len();
            let place = (count - 1) as u32;
            marks.push_reserved(Mark::Entered { core, place });
        }
        Step::Run(core) => {
            let count = machine.logs[core.index()].stints.len();
            let place = (count - 1) as u32;
            marks.push_reserved(Mark::Ran { core, place });
        }
    }
}

fn lesser(a: u32, b: u32) -> u32
    ensures { result ≡ min a b }
{
    min(a, b)
}

// The tables of each core's spans, in which a stint is looked up.
fn new_slices(alloc: Global, course: &Course) -> Result<Vec<CoreSlices>, NoMemory>
    ensures { IfOk result (λ slices. HaveSlices course.now slices.items) }
{
    let owners = course_owners(alloc, course)?;
    let mut slices = Vec::new(alloc);
    for core in 0..course.cores() {
        slices.push(CoreSlices::make_with(alloc, course, &owners, CoreNo(core))?)?;
    }
    Ok(slices)
}

fn new_logs(alloc: Global, cores: u32, rounds: u32, turns: u32) -> Result<Vec<CoreLog>, NoMemory>
    ensures { IfOk result (λ logs. AreLogsNew cores rounds turns logs.items) }
{
    let mut logs = Vec::with_capacity(alloc, cores as usize)?;
    'filling: while (logs.len() as u32) < cores {
        let log = new_log(alloc, rounds, turns)?;
        logs.push_reserved(log);
    }
    Ok(logs)
}

fn new_log(alloc: Global, rounds: u32, turns: u32) -> Result<CoreLog, NoMemory>
    ensures { IfOk result (λ log. IsNew rounds turns log) }
{
    let entries = Vec::with_capacity(alloc, lesser(turns, rounds) as usize)?;
    let stints = Vec::with_capacity(alloc, turns as usize)?;
    Ok(CoreLog {
        clock: 0,
        seen: None,
        entries,
        stints,
        last: None,
    })
}
