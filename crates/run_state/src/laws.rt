ghost use Rattle.std.specs.Prelude.{◌≡◌, ◌<◌, ◌↔◌, ℕ, List, Some, length, true};
ghost use Rattle.table_form.specs.Running.Courses.{CourseView, IsCourse};
ghost use Rattle.table_form.specs.Running.Complete.{IsComplete};
ghost use Rattle.table_form.specs.Running.Invariant.{StateInvariant};
ghost use Rattle.table_form.specs.Promises.Run.{KeepsPromises};
ghost use Rattle.table_form.specs.Promises.Fresh.{HasUpTo};
ghost use Rattle.round_words.specs.Views.{last_of, part};
ghost use Rattle.round_words.specs.declared.view.View.{View};
ghost use Rattle.dispatch_core.specs.Parts.{used_counts};
ghost use Rattle.run_state.specs.Readings.{has_up_to, seen_by, state_of};
ghost use Rattle.run_state.specs.RunViews.{IsFinished, IsRunView};

/// A view of all parts of a run, read as a state, keeps what every step of a run keeps.
pub fn a_run_view_is_kept()
    ensures { (course : CourseView) (rounds : ℕ) (v : View) → IsRunView course rounds v
        → StateInvariant course rounds (state_of course v) }
{}

/// A view of all parts of a run, read as a state, keeps all promises of a run, wherever the actors
/// stopped.
pub fn a_run_view_keeps_its_promises()
    ensures { (course : CourseView) (rounds : ℕ) (v : View) → IsCourse course → IsRunView course rounds v
        → KeepsPromises course rounds (state_of course v) }
{}

/// Where all clocks are at the run's end and all events are posted, the run is complete.
pub fn a_finished_run_view_is_complete()
    ensures { (course : CourseView) (rounds : ℕ) (v : View) → IsRunView course rounds v
        → IsFinished rounds v → IsComplete course rounds (state_of course v) }
{}

/// In a complete run each core has used the count of each round, one for each round of the run.
pub fn every_core_used_the_decided_counts()
    ensures counts { (course : CourseView) (rounds c : ℕ) (v : View) → IsRunView course rounds v
        → IsFinished rounds v → c < v.cores
        → used_counts (part v c).entries ≡ (state_of course v).decided }
    ensures each_round { (course : CourseView) (rounds c : ℕ) (v : View) → IsRunView course rounds v
        → IsFinished rounds v → c < v.cores → length (state_of course v).decided ≡ rounds }
{}

/// A core is read as having seen a count where that is its last sight since its last stint, and has each
/// event of tick at most its clock less the lag.
pub fn a_recent_sight_is_seen()
    ensures seen { (course : CourseView) (clock n : ℕ) (sights : List ℕ)
        → (seen_by course clock sights ≡ Some n)
        ↔ ((0 < length sights) × (last_of sights ≡ n) × HasUpTo course n clock) }
    ensures test { (course : CourseView) (count x : ℕ) → (has_up_to course count x ≡ true)
        ↔ HasUpTo course count x }
{}
