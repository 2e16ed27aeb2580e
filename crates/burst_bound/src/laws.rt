ghost use Rattle.std.specs.Prelude.{ℕ, ◌+◌, ◌*◌, ◌<◌, ◌≤◌, length};
ghost use Rattle.tab_core.specs.declared.TheConstants.{ROUND};
ghost use Rattle.table_form.specs.Running.Courses.{CourseView, IsCourse, tick_at};
ghost use Rattle.table_form.specs.Running.Complete.{IsComplete};
ghost use Rattle.table_form.specs.Running.Invariant.{StateInvariant};
ghost use Rattle.table_form.specs.Running.State.{State};
ghost use Rattle.burst_bound.specs.Bursts.{IsBurstBound, IsDoneAt, IsSeenAt};

/// In a whole run a burst that has a bound is done, by its bound at the latest.
pub fn a_burst_is_done_by_its_bound()
    ensures { (course : CourseView) (rounds event vcpu work seen bound : ℕ) (s : State)
        → IsCourse course → StateInvariant course rounds s → IsComplete course rounds s
        → IsSeenAt rounds s event seen → IsBurstBound course rounds s.decided event vcpu work seen bound
        → (done : ℕ) × IsDoneAt rounds s vcpu work seen done × (done ≤ bound) }
{}

/// In a run each event whose tick is more than two lags before the end is seen by all cores for good,
/// within two lags.
pub fn an_event_is_seen_early()
    ensures { (course : CourseView) (rounds event : ℕ) (s : State) → IsCourse course
        → StateInvariant course rounds s → event < length course.ticks
        → tick_at course event + 2 * course.lag < rounds * ROUND
        → (seen : ℕ) × IsSeenAt rounds s event seen × (seen ≤ tick_at course event + 2 * course.lag) }
{}
