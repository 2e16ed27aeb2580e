ghost use Rattle.std.specs.Prelude.{◌≡◌, ◌≤◌, List, ℕ, length};
ghost use Rattle.tab_core.specs.Vcpus.{capped_set};
ghost use Rattle.tab_core.specs.declared.host.Host.{Host};
ghost use Rattle.table_form.specs.Running.Courses.{CourseView, IsCourseForm, plan_after};
ghost use Rattle.script_doc.specs.declared.event.Event.{Event};
ghost use Rattle.plan_book.specs.After.{IsKnownAfter};
ghost use Rattle.plan_book.specs.Courses.{IsCourseOf};
ghost use Rattle.plan_book.specs.States.{BookState};

/// Each plan of a course has the capped vCPUs of the course's host, whatever the changes.
pub fn the_capped_stay_capped()
    ensures { (host : Host) (events : List Event) (course : CourseView) (n : ℕ)
        → IsCourseOf host events course → n ≤ length events
        → (plan_after course n).capped ≡ capped_set host.vcpus }
{}

/// No event changes the tick, so each host that a script leads to has that of the first.
pub fn a_run_has_one_tick()
    ensures { (host : Host) (events : List Event) (n : ℕ) (known : BookState)
        → IsKnownAfter host events n known → known.host.tick_ns ≡ host.tick_ns }
{}

/// A script makes at most one course of a host.
pub fn a_script_makes_one_course()
    ensures { (host : Host) (events : List Event) (course other : CourseView)
        → IsCourseOf host events course → IsCourseForm course → IsCourseOf host events other
        → IsCourseForm other → course ≡ other }
{}
