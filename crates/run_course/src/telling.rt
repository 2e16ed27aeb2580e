ghost use Rattle.std.specs.Prelude.{◌≤◌};
ghost use Rattle.tab_core.specs.declared.TheConstants.{MAX_ROUNDS};
ghost use Rattle.trace_report.specs.RunReports.{HasRoom, IsReportOf};
ghost use Rattle.run_course.specs.Inside.Telling.{AreRunAccounts, accounts_below, first_used};

use core_workers::Crew;
use tab_core::CoreNo;
use trace_report::{Report, accounts_make_a_report};

// Fills the report with what the crew's actors tell of their run of so many rounds. Takes no memory.
pub(crate) fn tell(crew: &Crew<'_>, rounds: u32, report: &mut Report)
    requires room { HasRoom crew.now.course rounds report.old }
    requires few { rounds ≤ MAX_ROUNDS }
    requires told { AreRunAccounts crew.now rounds }
    ensures { IsReportOf crew.now.course (first_used crew.now) (accounts_below crew.now crew.now.course.cores)
        report.new }
{
    let course = crew.course();
    let cores = course.cores();
    accounts_make_a_report();
    report.fill(course, rounds, crew.actor(CoreNo(0)).used());
    for core in 0..cores {
        let state = crew.actor(CoreNo(core));
        report.add(CoreNo(core), state.account());
    }
}
