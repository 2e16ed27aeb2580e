ghost use Rattle.std.specs.Prelude.{◌≡◌, ◌≤◌, ◌<◌, ℕ, All, length};
ghost use Rattle.tab_core.specs.declared.stint.Stint.{Stint as StintValue};
ghost use Rattle.tab_io.specs.Sinks.{Writes};
ghost use Rattle.vcpu_names.specs.Names.{names_of};
ghost use Rattle.trace_report.specs.ReportText.{report_text};
ghost use Rattle.run_course.specs.RunText.{run_text, traces};
ghost use Rattle.run_course.specs.Runs.{IsRunWritable, kept_stints};

use crate::ran::Ran;
use plan_book::Outcome;
use tab_core::{CoreNo, Host};
use tab_io::{Sink, WriteFault};
use tab_words::RunMode;
use trace_report::{write_report, write_trace};

/// Writes a run: its trace if that is asked for, then its report, for the names of a host. Lines of bursts
/// are not written. `changes` has for each change of the script its tick and what became of it.
///
/// A fault leaves a prefix of the text in the sink. Nothing is settled, and nothing is allocated.
pub fn write_run<K: Sink>(
    sink: &mut K,
    mode: RunMode,
    host: &Host,
    changes: &[(u32, Outcome)],
    rounds: u32,
    ran: &Ran<'_>,
) -> Result<(), WriteFault>
    requires { IsRunWritable mode host.now ran.now }
    ensures { Writes (K.state sink.old) (K.state sink.new)
        (run_text mode host.now changes.now ran.now.crew.course rounds (kept_stints ran.now) ran.now.report) result }
{
    match mode {
        RunMode::Report | RunMode::Burst | RunMode::Live => {
            put_report(sink, host, changes, rounds, ran)
        }
        RunMode::Trace => {
            put_traces(sink, host, ran)?;
            put_report(sink, host, changes, rounds, ran)
        }
    }
}

// Writes the report.
fn put_report<K: Sink>(
    sink: &mut K,
    host: &Host,
    changes: &[(u32, Outcome)],
    rounds: u32,
    ran: &Ran<'_>,
) -> Result<(), WriteFault>
    requires each_vcpu { length ran.now.report.vcpus ≡ length host.now.vcpus }
    requires each_core { length ran.now.report.cores ≡ host.now.cores }
    ensures { Writes (K.state sink.old) (K.state sink.new)
        (report_text host.now changes.now (length ran.now.crew.course.ticks) rounds ran.now.report) result }
{
    let events = ran.crew.course().count();
    write_report(sink, host, changes, events, rounds, &ran.report)
}

// Writes the traces of all cores, by number.
fn put_traces<K: Sink>(sink: &mut K, host: &Host, ran: &Ran<'_>) -> Result<(), WriteFault>
    requires { (c : ℕ) → c < ran.now.crew.course.cores
        → All (λ (s : StintValue). s.used ≤ length ran.now.crew.course.ticks) (kept_stints ran.now c) }
    ensures { Writes (K.state sink.old) (K.state sink.new)
        (traces (names_of host.now.vcpus) ran.now.crew.course (kept_stints ran.now)) result }
{
    let course = ran.crew.course();
    for core in 0..course.cores() {
        let stints = ran.crew.actor(CoreNo(core)).stints();
        write_trace(sink, host, course, CoreNo(core), stints)?;
    }
    Ok(())
}
