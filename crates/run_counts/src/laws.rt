ghost use Rattle.std.specs.Prelude.{◌≡◌, ℕ, List};
ghost use Rattle.table_form.specs.Running.Courses.{CourseView};
ghost use Rattle.run_counts.specs.Reports.{IsReported};

/// What is reported of a vCPU is determined by the rounds' counts.
pub fn a_report_is_determined()
    ensures { (course : CourseView) (decided : List ℕ) (v offered gap offered' gap' : ℕ)
        → IsReported course decided v offered gap → IsReported course decided v offered' gap'
        → (offered ≡ offered') × (gap ≡ gap') }
{}
