ghost use Rattle.std.specs.Prelude.{ℕ, ◌≡◌, ◌*◌, ◌≤◌, length};
ghost use Rattle.table_form.specs.Running.Courses.{CourseView, IsCourse};
ghost use Rattle.table_form.specs.Running.Invariant.{StateInvariant};
ghost use Rattle.table_form.specs.Running.State.{CoreState, IsCore, State};
ghost use Rattle.run_limit.specs.StintBounds.{
  IsLargestSpans,
  IsStintBound,
  stints_in,
  stints_of_round,
};

/// In each state of a run, complete or not, a core has at most as many stints as its rounds can hold.
pub fn no_core_has_more_stints()
    ensures { (course : CourseView) (rounds c most : ℕ) (s : State) (core : CoreState)
        → IsCourse course → StateInvariant course rounds s → IsLargestSpans course c most → IsCore s c core
        → length core.stints ≤ rounds * stints_of_round course most }
{}

/// All cores together have at most as many as the bound.
pub fn all_stints_are_within_the_bound()
    ensures { (course : CourseView) (rounds bound : ℕ) (s : State) → IsCourse course
        → StateInvariant course rounds s → IsStintBound course rounds bound → stints_in s ≤ bound }
{}

/// A course has one bound for its rounds.
pub fn a_course_has_one_bound()
    ensures { (course : CourseView) (rounds a b : ℕ) → IsStintBound course rounds a
        → IsStintBound course rounds b → a ≡ b }
{}
