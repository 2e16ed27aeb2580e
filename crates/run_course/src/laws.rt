ghost use Rattle.std.specs.Prelude.{◌≡◌, ℕ, List, length};
ghost use Rattle.tab_core.specs.declared.host.Host.{Host};
ghost use Rattle.tab_words.specs.declared.command.RunMode.{RunMode};
ghost use Rattle.table_form.specs.Running.Courses.{CourseView};
ghost use Rattle.round_words.specs.declared.view.View.{View};
ghost use Rattle.plan_book.specs.declared.outcome.Outcome.{Outcome};
ghost use Rattle.trace_report.specs.RunReports.{vcpu_count};
ghost use Rattle.run_state.specs.Readings.{state_of};
ghost use Rattle.run_course.specs.RunText.{run_text};
ghost use Rattle.run_course.specs.Runs.{IsRunOf, IsRunWritable, RanView, kept_stints, stints_at};

/// A run can be written for the names of a host of as many vCPUs and cores as the course's.
pub fn a_run_can_be_told()
    ensures { (course : CourseView) (rounds : ℕ) (mode : RunMode) (view : View) (ran : RanView) (host : Host)
        → IsRunOf course rounds mode view ran → length host.vcpus ≡ vcpu_count course
        → host.cores ≡ course.cores → IsRunWritable mode host ran }
{}

/// What is written of a run is the text of the state as which its view reads: its trace has all stints of
/// that state.
pub fn a_run_tells_of_its_state()
    ensures { (course : CourseView) (rounds : ℕ) (mode : RunMode) (view : View) (ran : RanView) (host : Host)
        (changes : List (ℕ × Outcome)) → IsRunOf course rounds mode view ran
        → run_text mode host changes ran.crew.course rounds (kept_stints ran) ran.report
        ≡ run_text mode host changes course rounds (stints_at (state_of course view)) ran.report }
{}
