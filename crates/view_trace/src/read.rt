ghost use Rattle.std.specs.Prelude.{◌≡◌, ◌<◌, ◌^◌, [], IfErr, IfOk, length, true};
ghost use Rattle.tab_words.specs.Lines.{lines_of};
ghost use Rattle.view_trace.specs.Inside.Readings.{AreReadMarks, IsMarksFault};
ghost use Rattle.view_trace.specs.Stints.{trace_begin};
ghost use Rattle.view_trace.specs.Traces.{HasTraceFault, IsDrawn, ShowsMarks, is_host_trace};

use crate::fault::TraceFault;
use crate::lines::read_lines;
use crate::reading::Reading;
use crate::stints::{clash_in, stints_of};
use crate::stretches::{stretches_of, tick_of};
use crate::trace::HostTrace;
use host_trace::Mark;
use script_doc::is_skipped;
use std::alloc::Global;
use tab_core::Name;
use tab_words::Lines;
use view_doc::{Stretch, View};

/// Whether a text is taken for a host's trace: the first of its lines that has words and doesn't begin with `#` has
/// a comma. No line of a plan or a run has one.
pub fn is_host_trace(bytes: &[u8]) -> bool
    ensures { result ≡ is_host_trace (lines_of bytes.now) }
{
    for line in Lines::over(bytes) {
        if !is_skipped(line) {
            return line.contains(&b',');
        }
    }
    false
}

/// What a host's trace of less than 2^31 bytes shows.
///
/// A vCPU runs from a line `run` that names a CPU below 32 up to its next line, whatever that says, or up to the last
/// line. Each such stretch that has a nanosecond is a stint; no other is.
///
/// `BadLine` comes exactly where a line can't be drawn after those before it, and names the first, with the first cause
/// in the order of `LineCause`. The other faults are of a trace whose lines each can be: `Shared` before `TooLong`, and
/// that before `Short`.
pub fn read_trace(alloc: Global, bytes: &[u8]) -> Result<HostTrace, TraceFault>
    requires { length bytes.now < 2 ^ 31 }
    ensures drawn { IfOk result (IsDrawn bytes.now) }
    ensures fault { IfErr result (HasTraceFault bytes.now) }
{
    match read_lines(alloc, bytes) {
        Ok(reading) => drawn(alloc, reading),
        Err(fault) => Err(fault),
    }
}

// What the marks of a trace show, whose lines all were read.
fn drawn(alloc: Global, reading: Reading) -> Result<HostTrace, TraceFault>
    requires read { AreReadMarks reading.marks.items reading.time_ns }
    ensures shows { IfOk result (ShowsMarks reading.names.items reading.marks.items) }
    ensures fault { IfErr result (IsMarksFault reading.marks.items) }
{
    let begin_ns = begin_of(&reading.marks);
    let end_ns = reading.time_ns;
    let Ok(stints) = stints_of(alloc, &reading.marks, end_ns) else {
        return Err(TraceFault::NoMemory);
    };
    if let Some(line) = clash_in(&stints) {
        return Err(TraceFault::Shared { line });
    }
    let span_ns = end_ns.saturating_sub(begin_ns);
    let Some(tick_ns) = tick_of(span_ns) else {
        return Err(TraceFault::TooLong);
    };
    match stretches_of(alloc, begin_ns, tick_ns, &stints) {
        Ok(stretches) => Ok(HostTrace {
            view: view_of(alloc, reading.names, stretches),
            tick_ns,
            end: (span_ns / u64::from(tick_ns)) as u32,
        }),
        Err(fault) => Err(fault),
    }
}

// The time of the first mark, and 0 where there is none.
fn begin_of(marks: &[Mark]) -> u64
    ensures { result ≡ trace_begin marks.now }
{
    match marks.first() {
        Some(mark) => mark.time_ns,
        None => 0,
    }
}

// These stints of vCPUs of these names, as a view.
fn view_of(alloc: Global, names: Vec<Name>, stints: Vec<Stretch>) -> View
    ensures cores { result.cores ≡ 0 }
    ensures run { result.is_run ≡ true }
    ensures names { result.names.items ≡ names.items }
    ensures tasks { result.tasks.items ≡ [] }
    ensures slots { result.slots.items ≡ [] }
    ensures entries { result.entries.items ≡ [] }
    ensures stints { result.stints.items ≡ stints.items }
{
    View {
        cores: 0,
        is_run: true,
        names,
        tasks: Vec::new(alloc),
        slots: Vec::new(alloc),
        entries: Vec::new(alloc),
        stints,
    }
}
