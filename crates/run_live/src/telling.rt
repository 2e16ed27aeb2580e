ghost use Rattle.std.specs.Prelude.{◌≡◌, ◌<◌, ◌≤◌};
ghost use Rattle.tab_core.specs.declared.TheConstants.{MAX_CORES, MAX_ROUNDS};
ghost use Rattle.trace_report.specs.RunReports.{HasRoom, IsReportOf};
ghost use Rattle.run_live.specs.Inside.Telling.{AreLiveRunAccounts, accounts_of, live_first_used};

use live_plan::LiveActor;
use tab_core::CoreNo;
use table_form::Course;
use trace_report::{Report, accounts_make_a_report};

// Fills the report with what the actors of the course's cores, by core, tell of their run of so many rounds. Takes
// no memory.
pub(crate) fn tell(
    course: &Course,
    cores: u32,
    actors: &[LiveActor],
    rounds: u32,
    report: &mut Report,
)
    requires cores { cores ≡ course.now.cores }
    requires some { 0 < cores }
    requires most { cores ≤ MAX_CORES }
    requires room { HasRoom course.now rounds report.old }
    requires few { rounds ≤ MAX_ROUNDS }
    requires told { AreLiveRunAccounts course.now actors.now rounds }
    ensures { IsReportOf course.now (live_first_used actors.now) (accounts_of actors.now) report.new }
{
    accounts_make_a_report();
    report.fill(course, rounds, actors[0].used());
    for core in 0..cores {
        let number = core as usize;
        report.add(CoreNo(core), actors[number].account());
    }
}
