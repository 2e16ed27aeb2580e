ghost use Rattle.std.specs.Prelude.{◌≡◌, ◌<◌, ◌∷◌, ◌++◌, ℕ, List, [], length};
ghost use Rattle.run_counts.specs.declared.account.CoreAccount.{CoreAccount};
ghost use Rattle.table_form.specs.Running.Courses.{CourseView};
ghost use Rattle.trace_report.specs.ReportViews.{ReportView};
ghost use Rattle.trace_report.specs.RunReports.{IsAccountAdded, IsFilled, IsReportOf, IsReportSoFar};

/// A report that is filled, and then given the cores' accounts by rising number, is the report of these
/// accounts.
pub fn accounts_make_a_report()
    ensures begun { (course : CourseView) (used : List ℕ) (report : ReportView)
        → IsFilled course used report → IsReportSoFar course used [] report }
    ensures more { (course : CourseView) (used : List ℕ) (accounts : List CoreAccount) (account : CoreAccount)
        (old new : ReportView)
        → IsReportSoFar course used accounts old → length accounts < course.cores
        → IsAccountAdded (length accounts) account old new
        → IsReportSoFar course used (accounts ++ account ∷ []) new }
    ensures whole { (course : CourseView) (used : List ℕ) (accounts : List CoreAccount) (report : ReportView)
        → IsReportSoFar course used accounts report → length accounts ≡ course.cores
        → IsReportOf course used accounts report }
{}

/// What a report tells is determined by the rounds' counts and the cores' accounts.
pub fn a_run_has_one_report()
    ensures { (course : CourseView) (used : List ℕ) (accounts : List CoreAccount) (report other : ReportView)
        → IsReportOf course used accounts report → IsReportOf course used accounts other
        → (other.plans ≡ report.plans) × (other.vcpus ≡ report.vcpus) × (other.cores ≡ report.cores) }
{}
