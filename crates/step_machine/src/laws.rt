ghost use Rattle.std.specs.Prelude.{◌≡◌, ℕ, List};
ghost use Rattle.tab_core.specs.declared.stint.Stint.{Stint as StintValue};
ghost use Rattle.script_doc.specs.declared.step.Step.{Step};
ghost use Rattle.table_form.specs.Running.Courses.{CourseView, IsCourse};
ghost use Rattle.table_form.specs.Running.Invariant.{StateInvariant};
ghost use Rattle.table_form.specs.Promises.Run.{KeepsPromises};
ghost use Rattle.table_form.specs.Running.State.{State, CoreState, opening};
ghost use Rattle.table_form.specs.Running.Stints.{IsNextStint};
ghost use Rattle.step_machine.specs.declared.answer.Answer.{Answer};
ghost use Rattle.step_machine.specs.Answers.{AnswersStep, Moves};
ghost use Rattle.step_machine.specs.Refusals.{IsRefused};
ghost use Rattle.step_machine.specs.Runs.{Leads};
ghost use Rattle.step_machine.specs.Traces.{IsTrace};
ghost use Rattle.step_machine.specs.declared.trace.Made.{Made};

/// Whatever steps are taken, all cores use one plan in a round, no vCPU runs on two cores at one
/// tick, each is offered its cost in each of its periods and has no gap between offers that exceeds
/// what its budgets leave out, and no core idles while somebody may run there whom it has seen
/// runnable.
pub fn every_run_keeps_its_promises()
    ensures { (course : CourseView) (rounds : ℕ) (steps : List Step) (end : State) → IsCourse course
        → Leads course rounds (opening course.cores) steps end → KeepsPromises course rounds end }
{}

/// Before the first step the invariant holds.
pub fn the_opening_is_kept()
    ensures { (course : CourseView) (rounds : ℕ) → StateInvariant course rounds (opening course.cores) }
{}

/// Every allowed step keeps it.
pub fn a_step_keeps()
    ensures { (course : CourseView) (rounds : ℕ) (old new : State) (step : Step) → IsCourse course
        → StateInvariant course rounds old → Moves course rounds old step new
        → StateInvariant course rounds new }
{}

/// The stint that a core would run now is determined.
pub fn next_stint_is_determined()
    ensures { (course : CourseView) (rounds c : ℕ) (core : CoreState) (s t : StintValue)
        → IsNextStint course rounds c core s → IsNextStint course rounds c core t → s ≡ t }
{}

/// A step has one answer, and leads to one state.
pub fn a_step_has_one_answer()
    ensures { (course : CourseView) (rounds : ℕ) (s : State) (step : Step) (a b : Answer)
        (new other : State) → AnswersStep course rounds s step a new
        → AnswersStep course rounds s step b other → (a ≡ b) × (new ≡ other) }
{}

/// A list of steps has at most one run, which ends in one state and makes one list of entries and
/// stints; at most one step of it is refused, with one answer; and never both.
pub fn a_list_of_steps_has_one_run()
    ensures run { (course : CourseView) (rounds : ℕ) (steps : List Step) (end other : State)
        (made others : List Made) → IsTrace course rounds (opening course.cores) steps end made
        → IsTrace course rounds (opening course.cores) steps other others
        → (end ≡ other) × (made ≡ others) }
    ensures refusal { (course : CourseView) (rounds : ℕ) (steps : List Step) (place other : ℕ)
        (a b : Answer) → IsRefused course rounds steps place a → IsRefused course rounds steps other b
        → (place ≡ other) × (a ≡ b) }
    ensures apart { (course : CourseView) (rounds : ℕ) (steps : List Step) (place : ℕ) (answer : Answer)
        (end : State) → IsRefused course rounds steps place answer
        → Leads course rounds (opening course.cores) steps end → ⊥ }
{}
