ghost use Rattle.std.specs.Prelude.{◌≡◌, ℕ, List, None};
ghost use Rattle.view_doc.specs.declared.view.Task.{Task};
ghost use Rattle.view_schedulers.specs.Fits.{FitsCore};
ghost use Rattle.view_schedulers.specs.Unkept.{core_fault};
ghost use Rattle.view_schedulers.specs.declared.scheduler.Scheduler.{Scheduler};

/// A core that a plan fills just as far as a scheduler gives it away isn't overbooked.
pub fn an_exact_fit_is_not_overbooked()
    ensures { (s : Scheduler) (tick core : ℕ) (tasks : List Task)
        → FitsCore s tick core tasks → core_fault s tick tasks core ≡ None }
{}
