ghost use Rattle.tab_io.specs.Sinks.{Writes};
ghost use Rattle.trace_report.specs.ReportText.{report_text};
ghost use Rattle.std.specs.Prelude.{length};
ghost use Rattle.run_live.specs.LiveRuns.{IsLiveRunWritable};

use crate::ran::Ran;
use tab_core::Host;
use tab_io::{Sink, WriteFault};
use trace_report::write_report;

/// Writes the report of a run, for the names of a host of as many vCPUs and cores as the run's.
///
/// A fault leaves a prefix of the text in the sink. Nothing is settled, and nothing is allocated.
pub fn write_run<K: Sink>(
    sink: &mut K,
    host: &Host,
    rounds: u32,
    ran: &Ran,
) -> Result<(), WriteFault>
    requires { IsLiveRunWritable host.now ran.now }
    ensures { Writes (K.state sink.old) (K.state sink.new) (report_text host.now ran.now.changes
        (length ran.now.book.course.ticks) rounds ran.now.report) result }
{
    let events = ran.book.course().count();
    write_report(sink, host, &ran.changes, events, rounds, &ran.report)
}
