ghost use Rattle.std.specs.Prelude.{◌≡◌, ◌<◌, ℕ, Some, length, slice_get};
ghost use Rattle.table_form.specs.Running.Courses.{CourseView, IsCourse};
ghost use Rattle.table_form.specs.Running.Complete.{IsComplete};
ghost use Rattle.table_form.specs.Running.Invariant.{StateInvariant};
ghost use Rattle.table_form.specs.Promises.Run.{KeepsPromises};
ghost use Rattle.table_form.specs.Running.State.{State};

/// A state that keeps the invariant keeps all promises, however it came about.
pub fn a_kept_run_keeps_its_promises()
    ensures { (course : CourseView) (rounds : ℕ) (s : State) → IsCourse course → StateInvariant course rounds s
        → KeepsPromises course rounds s }
{}

/// A complete run has entered each of its rounds, and has a count for no other.
pub fn a_whole_run_entered_each_round()
    ensures entered { (course : CourseView) (rounds : ℕ) (s : State) → IsCourse course
        → StateInvariant course rounds s → IsComplete course rounds s
        → (r : ℕ) → r < rounds → (d : ℕ) × (slice_get s.decided r ≡ Some d) }
    ensures no_more { (course : CourseView) (rounds : ℕ) (s : State) → IsCourse course
        → StateInvariant course rounds s → IsComplete course rounds s → length s.decided ≡ rounds }
{}
