//! Steps that can be replayed.
ghost use Rattle.std.specs.Prelude.{◌≡◌, IsTrue};
ghost use Rattle.table_form.specs.Running.Courses.{CourseView};
ghost use Rattle.step_machine.specs.Answers.{NamesCore};

use script_doc::Step;
use std::alloc::Global;
use std::marker::Model;
use tab_core::NoMemory;

// Steps that name only cores below a count. Contracts see the count and the steps.
#[derive(Drop)]
pub(crate) struct StepLog {
    cores: u32,
    steps: Vec<Step>,
}

impl Model for StepLog {
    ghost use Rattle.std.specs.Prelude.{◌≡◌, ℕ, List, Some, slice_get};
    ghost use Rattle.script_doc.specs.declared.step.Step.{Step as StepValue};
    ghost use Rattle.table_form.specs.Running.Courses.{CourseView};
    ghost use Rattle.step_machine.specs.Answers.{NamesCore};

    ghost Value = { ℕ × List StepValue };

    ghost view = { λ log. (log.cores, log.steps.items) };

    ghost invariant = { λ log. (k : ℕ) (step : StepValue) (course : CourseView) → course.cores ≡ log.cores
        → slice_get log.steps.items k ≡ Some step → NamesCore course step };
}

impl StepLog {
    ghost use Rattle.std.specs.Prelude.{◌≡◌};

    pub(crate) fn new(alloc: Global, cores: u32) -> StepLog {
        StepLog {
            cores,
            steps: Vec::new(alloc),
        }
    }

    // Notes a step, but for one that names a core that isn't below the count.
    pub(crate) fn push(&mut self, step: Step) -> Result<(), NoMemory> {
        if names_below(&step, self.cores) {
            self.steps.push(step)?;
        }
        Ok(())
    }

    pub(crate) fn cores(&self) -> u32
        ensures { result ≡ self.now.0 }
    {
        self.cores
    }

    pub(crate) fn steps(&self) -> &[Step]
        ensures { result.now ≡ self.now.1 }
    {
        &self.steps
    }
}

// Whether a core that the step names is below the count.
fn names_below(step: &Step, cores: u32) -> bool
    ensures { (course : CourseView) → course.cores ≡ cores → IsTrue result → NamesCore course step.now }
{
    match step {
        Step::Post => true,
        Step::See(core) | Step::Decide(core) | Step::Run(core) => core.index() < cores as usize,
    }
}
