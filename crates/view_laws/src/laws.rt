ghost use Rattle.std.specs.Prelude.{ℕ, ◌<◌, ◌^◌, List, length};
ghost use Rattle.tab_core.specs.declared.TheConstants.{ROUND};
ghost use Rattle.tab_core.specs.declared.host.Host.{Host};
ghost use Rattle.tab_words.specs.declared.command.RunMode.TheVariants.{Trace};
ghost use Rattle.table_form.specs.Running.Courses.{CourseView};
ghost use Rattle.table_form.specs.Running.State.{State};
ghost use Rattle.table_form.specs.Tables.Plans.{PlanView};
ghost use Rattle.table_form.specs.Tables.Serves.{owner_at};
ghost use Rattle.vcpu_names.specs.Names.{names_of};
ghost use Rattle.plan_text.specs.PlanText.{plan_text};
ghost use Rattle.plan_text.specs.Written.{IsHostWithPlan};
ghost use Rattle.replay_text.specs.ReplayText.{replay_text};
ghost use Rattle.step_machine.specs.declared.trace.Made.{Made};
ghost use Rattle.plan_book.specs.declared.outcome.Outcome.{Outcome};
ghost use Rattle.trace_report.specs.ReportViews.{ReportView};
ghost use Rattle.run_course.specs.RunText.{run_text};
ghost use Rattle.run_course.specs.Runs.{stints_at};
ghost use Rattle.view_doc.specs.Grammar.{Front};
ghost use Rattle.view_doc.specs.Texts.{IsFirstBad, IsText};
ghost use Rattle.view_doc.specs.Views.{IsViewOf};
ghost use Rattle.view_doc.specs.declared.view.View.{View};
ghost use Rattle.view_laws.specs.ShownPlans.{IsShownAs, ShowsPlan, owner_holder, plan_front, plan_told};
ghost use Rattle.view_laws.specs.ShownReplays.{IsReplayOf, ShowsReplay, replay_told};
ghost use Rattle.view_laws.specs.ShownTraces.{IsTraceText, IsWholeRun, ShowsStints, stints_below};

/// What `tableau plan` wrote is shown as that plan: its count of cores, the names, tasks and homes of its
/// admitted vCPUs in their order, and each core's row by its maximal segments, core by core. So each tick of
/// a core is shown as the owner's that the row has there, or as nobody's.
///
/// The text tells exactly that, has no bad line and is short enough to be read, so `read_view` answers with
/// such a view or finds no memory.
pub fn a_plan_text_is_read_back()
    ensures told { (host : Host) (plan : PlanView) → IsHostWithPlan host plan
        → IsText (plan_text (names_of host.vcpus) plan) (plan_told (names_of host.vcpus) plan)
        (plan_front (names_of host.vcpus) plan) }
    ensures shown { (host : Host) (plan : PlanView) (view : View) → IsHostWithPlan host plan
        → IsViewOf (plan_text (names_of host.vcpus) plan) view → ShowsPlan host plan view }
    ensures ticks { (host : Host) (plan : PlanView) (view : View) (c tick : ℕ) → IsHostWithPlan host plan
        → IsViewOf (plan_text (names_of host.vcpus) plan) view → c < host.cores → tick < ROUND
        → IsShownAs view c tick (owner_holder (names_of host.vcpus) (owner_at plan.rows c tick)) }
    ensures no_bad_line { (host : Host) (plan : PlanView) (bad : ℕ) → IsHostWithPlan host plan
        → ¬ (IsFirstBad (plan_text (names_of host.vcpus) plan) bad) }
    ensures short { (host : Host) (plan : PlanView) → IsHostWithPlan host plan
        → length (plan_text (names_of host.vcpus) plan) < 2 ^ 31 }
{}

/// What `tableau replay` wrote is shown as the entries and the stints that the steps made, in their order,
/// each stint with whoever ran and whether in its own slot; and there is no plan and no other line.
///
/// The text tells exactly that and has no bad line.
pub fn a_replay_text_is_read_back()
    ensures told { (host : Host) (course : CourseView) (rounds : ℕ) (state : State) (made : List Made)
        → IsReplayOf host course rounds state made
        → (front : Front) × IsText (replay_text (names_of host.vcpus) course made state.posted)
        (replay_told (names_of host.vcpus) course made state.posted) front }
    ensures shown { (host : Host) (course : CourseView) (rounds : ℕ) (state : State) (made : List Made)
        (view : View) → IsReplayOf host course rounds state made
        → IsViewOf (replay_text (names_of host.vcpus) course made state.posted) view
        → ShowsReplay (names_of host.vcpus) course made view }
    ensures no_bad_line { (host : Host) (course : CourseView) (rounds : ℕ) (state : State) (made : List Made)
        (bad : ℕ) → IsReplayOf host course rounds state made
        → ¬ (IsFirstBad (replay_text (names_of host.vcpus) course made state.posted) bad) }
{}

/// What `tableau run ROUNDS trace` wrote is shown as the stints of the run's state: of each core by number all
/// of them in their order, each with whoever ran and whether in its own slot. The report is read past.
///
/// The text tells exactly those stints and then a report, and has no bad line.
pub fn a_trace_text_is_read_back()
    ensures told { (host : Host) (changes : List (ℕ × Outcome)) (course : CourseView) (rounds : ℕ)
        (state : State) (report : ReportView) → IsWholeRun host changes course rounds state report
        → IsTraceText (run_text Trace host changes course rounds (stints_at state) report)
        (stints_below (names_of host.vcpus) course (stints_at state) course.cores) }
    ensures shown { (host : Host) (changes : List (ℕ × Outcome)) (course : CourseView) (rounds : ℕ)
        (state : State) (report : ReportView) (view : View) → IsWholeRun host changes course rounds state report
        → IsViewOf (run_text Trace host changes course rounds (stints_at state) report) view
        → ShowsStints (names_of host.vcpus) course (stints_at state) view }
    ensures no_bad_line { (host : Host) (changes : List (ℕ × Outcome)) (course : CourseView) (rounds : ℕ)
        (state : State) (report : ReportView) (bad : ℕ) → IsWholeRun host changes course rounds state report
        → ¬ (IsFirstBad (run_text Trace host changes course rounds (stints_at state) report) bad) }
{}
