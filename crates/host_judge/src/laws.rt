ghost use Rattle.std.specs.Prelude.{ℕ, ◌≤◌};
ghost use Rattle.host_judge.specs.Courses.{StateCourse};
ghost use Rattle.host_judge.specs.Owed.{IsNeverBlocked, KeepsPlan, KeepsPlanInTime, due};
ghost use Rattle.host_judge.specs.Windows.{IsWindow, run_in};
ghost use Rattle.host_judge.specs.declared.owed.Owed.TheVariants.{Plan};
ghost use Rattle.host_judge.specs.declared.owed.PlanOwed.{PlanOwed};

/// A vCPU that keeps a plan in its running and waiting has in each window at least what the plan owes it there.
pub fn a_kept_plan_is_never_broken()
    ensures { (course : StateCourse) (window time begin start end : ℕ) (by : PlanOwed)
        → KeepsPlan course time by.cost_ns by.period_ns begin → IsWindow course window time start end
        → due (Plan by) window ≤ run_in course start end }
{}

/// A vCPU that is never blocked keeps a plan in its running and waiting where it keeps it in time: so by its periods it is
/// never said to have less than the plan owes.
pub fn a_plan_kept_in_time_is_kept()
    ensures { (course : StateCourse) (first time cost period begin : ℕ) → IsNeverBlocked course first time
        → KeepsPlanInTime course first time cost period begin → KeepsPlan course time cost period begin }
{}
