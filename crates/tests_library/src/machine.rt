ghost use Rattle.std.specs.Prelude.{◌≡◌, IfOk, length};

use crate::samples::idle_plan;
use script_doc::Step;
use std::alloc::Global;
use std::test::Fail;
use step_machine::{Answer, Phase, World};
use tab_core::{CoreNo, NoMemory, VcpuSet};
use table_form::Course;

// A course of two cores without slots, and without an event.
fn idle_course(alloc: Global) -> Result<Course, NoMemory>
    ensures cores { IfOk result (λ course. course.cores ≡ 2) }
    ensures ticks { IfOk result (λ course. length course.ticks ≡ 0) }
{
    let mut plans = Vec::new(alloc);
    plans.push(idle_plan(alloc, 2)?)?;
    let mut numbers = Vec::new(alloc);
    numbers.push(0)?;
    let mut runnable = Vec::new(alloc);
    runnable.push(VcpuSet::empty())?;
    let ticks = Vec::new(alloc);
    Ok(Course::of(2, 102_600, 102_600, ticks, plans, numbers, runnable))
}

// A core sees, then enters its round, then runs; a step out of turn is answered by what comes
// first.
#[test]
fn a_core_sees_enters_and_runs(rt: HostRuntime) -> Result<(), Fail> {
    let course = idle_course(rt.alloc())?;
    let mut world = World::make(rt.alloc(), &course, 1, 8)?;
    let core = CoreNo(0);
    let not_now = |phase| Answer::NotNow { phase };
    assert_eq!(rt; world.apply(Step::Run(core)), not_now(Phase::See));
    assert_eq!(rt; world.next(), Some(Step::See(core)));
    assert_eq!(rt; world.apply(Step::See(core)), Answer::Done);
    assert_eq!(rt; world.apply(Step::Run(core)), not_now(Phase::Decide));
    assert_eq!(rt; world.next(), Some(Step::Decide(core)));
    assert_eq!(rt; world.apply(Step::Decide(core)), Answer::Done);
    assert_eq!(rt; world.apply(Step::Decide(core)), not_now(Phase::Run));
    assert_eq!(rt; world.apply(Step::Post), not_now(Phase::AllPosted));
    assert_eq!(rt; world.apply(Step::Run(core)), Answer::Done);
    assert_eq!(rt; world.clock(core), 102_600);
    assert_eq!(rt; world.apply(Step::See(core)), not_now(Phase::Finished));
    assert_eq!(rt; world.next(), Some(Step::See(CoreNo(1))));
    Ok(())
}
