ghost use Rattle.std.specs.Prelude.{◌≡◌, ℕ, Some, IfOk, IfErr, IsErrOf, slice_get};
ghost use Rattle.script_doc.specs.declared.step.Step.{Step};
ghost use Rattle.table_form.specs.Running.Courses.{FitsRounds, IsCourse};
ghost use Rattle.table_form.specs.Running.Invariant.{StateInvariant};
ghost use Rattle.table_form.specs.Running.State.{opening};
ghost use Rattle.step_machine.specs.declared.answer.Answer.{Answer};
ghost use Rattle.step_machine.specs.Answers.{NamesCore};
ghost use Rattle.step_machine.specs.Refusals.{IsFaultOf};
ghost use Rattle.step_machine.specs.Runs.{Leads};
ghost use Rattle.step_machine.specs.Traces.{AreOfCourse, IsTrace};

use crate::answer::Answer;
use crate::fault::ReplayFault;
use crate::world::World;
use script_doc::Step;
use std::alloc::Global;
use table_form::Course;

/// The world after the steps, if each of them is done. Otherwise it is refused at the first that
/// isn't, with the answer to that step.
///
/// The rounds are 1 to 10,000 and hold every event, and a core that a step names is below the
/// course's cores. Each core gets room for as many stints as there are steps. For 2^32 steps or more
/// memory runs out.
pub fn replay<'a>(
    alloc: Global,
    course: &'a Course,
    rounds: u32,
    steps: &[Step],
) -> Result<World<'a>, ReplayFault>
    requires fits { FitsRounds course.now rounds }
    requires names { (k : ℕ) (step : Step) → slice_get steps.now k ≡ Some step → NamesCore course.now step }
    ensures course { IfOk result (λ w. (w.course ≡ course.now) × (w.rounds ≡ rounds)) }
    ensures ok { IfOk result (λ w. Leads course.now rounds (opening course.now.cores) steps.now w.state) }
    ensures trace { IfOk result
        (λ w. IsTrace course.now rounds (opening course.now.cores) steps.now w.state w.made) }
    ensures of_course { IfOk result (λ w. AreOfCourse course.now w.made) }
    ensures course_kept { IfOk result (λ _. IsCourse course.now) }
    ensures kept { IfOk result (λ w. StateInvariant course.now rounds w.state) }
    ensures refused { IfErr result (λ fault. IsFaultOf course.now rounds steps.now fault) }
    ensures refused_course { (place : ℕ) (answer : Answer) → IsErrOf result (ReplayFault.Refused place answer)
        → IsCourse course.now }
{
    let Ok(turns) = u32::try_from(steps.len()) else {
        return Err(ReplayFault::NoMemory);
    };
    let mut world = World::make(alloc, course, rounds, turns)?;
    for (place, step) in steps.iter().enumerate() {
        let answer = world.apply(*step);
        let Answer::Done = answer else {
            return Err(ReplayFault::Refused {
                place: place as u32,
                answer,
            });
        };
    }
    Ok(world)
}
