ghost use Rattle.std.specs.Prelude.{◌<◌, ◌≤◌, All, length};
ghost use Rattle.tab_core.specs.declared.stint.Stint.{Stint as StintValue};
ghost use Rattle.tab_io.specs.Sinks.{Writes};
ghost use Rattle.vcpu_names.specs.Names.{names_of};
ghost use Rattle.trace_report.specs.TraceText.{trace_text};

use stint_text::StintLines;
use tab_core::{CoreNo, Host, Stint, Vcpu};
use tab_io::{Sink, WriteFault};
use table_form::Course;

/// Writes the trace of a core: the lines of its stints, for the names of a host.
///
/// Each stint has counts of the course. A fault leaves a prefix of the text in the sink. Nothing is
/// settled, and nothing is allocated.
pub fn write_trace<K: Sink>(
    sink: &mut K,
    host: &Host,
    course: &Course,
    core: CoreNo,
    stints: &[Stint],
) -> Result<(), WriteFault>
    requires core { core < course.now.cores }
    requires used { All (λ (s : StintValue). s.used ≤ length course.now.ticks) stints.now }
    ensures { Writes (K.state sink.old) (K.state sink.new)
        (trace_text (names_of host.now.vcpus) course.now core stints.now) result }
{
    put_stints(sink, host.vcpus.items(), course, core, stints)
}

// Writes the lines for these vCPUs, many at once.
fn put_stints<K: Sink>(
    sink: &mut K,
    vcpus: &[Vcpu],
    course: &Course,
    core: CoreNo,
    stints: &[Stint],
) -> Result<(), WriteFault>
    requires core { core < course.now.cores }
    requires used { All (λ (s : StintValue). s.used ≤ length course.now.ticks) stints.now }
    ensures { Writes (K.state sink.old) (K.state sink.new)
        (trace_text (names_of vcpus.now) course.now core stints.now) result }
{
    let mut lines = StintLines::of(vcpus);
    for stint in stints {
        lines.put_stint(sink, course, core, stint)?;
    }
    lines.write(sink)
}
