ghost use Rattle.std.specs.Prelude.{List, ℕ};
ghost use Rattle.tab_core.specs.declared.host.Host.{Host};
ghost use Rattle.table_form.specs.Running.Courses.{CourseView, IsCourse};
ghost use Rattle.table_form.specs.Running.Complete.{IsComplete};
ghost use Rattle.table_form.specs.Promises.Run.{KeepsPromises};
ghost use Rattle.table_form.specs.Running.State.{State};
ghost use Rattle.table_form.specs.Tables.Plans.{IsPlan, PlanView};
ghost use Rattle.table_form.specs.Tables.Serves.{Apart, Serves};
ghost use Rattle.period_choice.specs.Tasks.{AreTasksOf};
ghost use Rattle.plan_make.specs.Planned.{IsPlanned};
ghost use Rattle.script_doc.specs.declared.event.Event.{Event};
ghost use Rattle.plan_book.specs.Courses.{IsCourseOf};
ghost use Rattle.plan_promises.specs.Reservations.{KeepsReservations};
ghost use Rattle.plan_promises.specs.RunPromises.{IsPromisedRun};
ghost use Rattle.plan_promises.specs.Runs.{RunKeepsReservations};

/// The plan of a host keeps the host's reservations, as its rows repeat round after round without end:
/// each admitted vCPU gets at least its share of each of its periods, and waits no longer than its
/// latency, in nanoseconds of the host's tick.
///
/// Source: the two promises of a reservation in M. Vanga, A. Gujarati and B. B. Brandenburg, EuroSys 2018.
pub fn a_plan_keeps_the_reservations()
    ensures { (host : Host) (plan : PlanView) → IsPlanned host plan → IsPlan plan
        → KeepsReservations host plan }
{}

/// Rows keep the reservations that give the host's tasks their costs, with no vCPU in two rows at
/// one place, whoever made them.
pub fn rows_that_serve_keep_the_reservations()
    ensures { (host : Host) (plan : PlanView) → AreTasksOf host plan.tasks
        → Serves plan.tasks plan.rows → Apart plan.rows → KeepsReservations host plan }
{}

/// A run that keeps its promises, on the course of a host and a script, keeps the reservations in the hosts of
/// its rounds: each admitted vCPU gets at least its share of each of its periods in a round, and each wait is
/// within the greater of the latencies at its two ends, in nanoseconds of the host's tick.
///
/// Source: the two promises of a reservation in M. Vanga, A. Gujarati and B. B. Brandenburg, EuroSys 2018.
pub fn a_run_keeps_the_reservations()
    ensures { (host : Host) (events : List Event) (course : CourseView) (rounds : ℕ) (state : State)
        → IsCourseOf host events course → KeepsPromises course rounds state
        → RunKeepsReservations host events course state }
{}

/// A whole run keeps what was promised to whoever was sold a vCPU, by hosts that the events make of the first.
pub fn a_whole_run_is_as_promised()
    ensures { (rounds : ℕ) (host : Host) (events : List Event) (course : CourseView) (state : State)
        → IsCourseOf host events course → IsCourse course → KeepsPromises course rounds state
        → IsComplete course rounds state → IsPromisedRun rounds host events course state }
{}
