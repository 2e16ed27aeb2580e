ghost use Rattle.std.specs.Prelude.{◌≡◌, ◌<◌, ◌≤◌, IfOk, IsErrOf, Ok, Err, length, true};
ghost use Rattle.tab_core.specs.declared.TheConstants.{MAX_CORES, MAX_VCPUS};
ghost use Rattle.tab_io.specs.Sinks.{Writes};
ghost use Rattle.view_lanes.specs.Shown.{shows_no_trace};
ghost use Rattle.view_text.specs.TextCharts.{by_core};
ghost use Rattle.view_text.specs.TraceTexts.{shown_trace_text, trace_lanes_text, trace_lines, view_trace_text};
ghost use Rattle.view_lanes.specs.declared.fault.ChartFault.TheVariants as fault;

use crate::options::TextOptions;
use crate::text_chart::{by_core, put_keys, put_lines, put_more};
use std::alloc::Global;
use tab_core::Name;
use tab_io::{Sink, WriteFault, write_all};
use view_doc::View;
use view_lanes::{
    ChartFault, Frame, Head, Lane, head_in, lanes_from, lanes_of, put_trace_sub, put_trace_title,
    shown_in, shows_no_trace, trace_frame,
};

/// Draws a host's trace of at most 32 cores and 256 vCPUs, which ends at a tick, as a text: a line for each core, and
/// below these the letters' vCPUs, as `write_text_chart` draws a run. Times are in ns.
///
/// A fault of writing leaves a prefix of the text in the sink; nothing is written where there is no memory, or where
/// no tick or no core is shown. Nothing is settled.
pub fn write_trace_text<K: Sink>(
    alloc: Global,
    sink: &mut K,
    view: &View,
    end: u32,
    options: &TextOptions,
) -> Result<(), ChartFault>
    requires cores { view.now.cores ≤ MAX_CORES }
    requires vcpus { length view.now.names.items ≤ MAX_VCPUS }
    requires some { 0 < options.now.columns }
    requires few { options.now.columns ≤ 8000 }
    ensures ok { IfOk result (λ u. Writes (K.state sink.old) (K.state sink.new)
        (shown_trace_text options.now end view.now) (Ok u)) }
    ensures broken { IsErrOf result fault.Write → Writes {U = Unit {0}} (K.state sink.old) (K.state sink.new)
        (shown_trace_text options.now end view.now) (Err (record {})) }
    ensures nothing { IsErrOf result fault.Nothing → shows_no_trace (by_core options.now) end view.now ≡ true }
    ensures nothing_due { shows_no_trace (by_core options.now) end view.now ≡ true → IsErrOf result fault.Nothing }
    ensures unwritten { IsErrOf result fault.NoMemory → sink.new ≡ sink.old }
    ensures unwritten_nothing { IsErrOf result fault.Nothing → sink.new ≡ sink.old }
{
    let chosen = by_core(options);
    if shows_no_trace(view, &chosen, end) {
        return Err(ChartFault::Nothing);
    }
    let count = lanes_of(view, &chosen);
    let frame = trace_frame(&chosen, end);
    let Ok(lanes) = lanes_from(alloc, &frame, shown_in(view), options.first, count) else {
        return Err(ChartFault::NoMemory);
    };
    match put_view(sink, options, &frame, view, &lanes) {
        Ok(()) => Ok(()),
        Err(WriteFault) => Err(ChartFault::Write),
    }
}

// Writes the text of these lanes of a trace.
fn put_view<K: Sink>(
    sink: &mut K,
    options: &TextOptions,
    frame: &Frame,
    view: &View,
    lanes: &[Lane],
) -> Result<(), WriteFault>
    requires lanes { length lanes.now ≤ MAX_VCPUS }
    requires vcpus { length view.now.names.items ≤ MAX_VCPUS }
    requires some { 0 < options.now.columns }
    requires few { options.now.columns ≤ 8000 }
    ensures { Writes (K.state sink.old) (K.state sink.new)
        (view_trace_text options.now frame.now view.now lanes.now) result }
{
    let head = head_in(frame, view, lanes);
    put_trace(sink, options, frame, &head, &view.names, lanes)
}

// Writes the text of these lanes of vCPUs of these names, below what the head says.
fn put_trace<K: Sink>(
    sink: &mut K,
    options: &TextOptions,
    frame: &Frame,
    head: &Head,
    names: &[Name],
    lanes: &[Lane],
) -> Result<(), WriteFault>
    requires lanes { length lanes.now ≤ MAX_VCPUS }
    requires vcpus { length names.now ≤ MAX_VCPUS }
    requires some { 0 < options.now.columns }
    requires few { options.now.columns ≤ 8000 }
    ensures { Writes (K.state sink.old) (K.state sink.new)
        (trace_lanes_text options.now frame.now head.now names.now lanes.now) result }
{
    put_trace_lines(sink, head, frame.tick)?;
    put_lines(
        sink,
        frame,
        options.columns,
        names.len(),
        options.first,
        lanes,
    )?;
    put_keys(sink, names)?;
    put_more(sink, names.len())
}

fn put_trace_lines<K: Sink>(sink: &mut K, head: &Head, tick: u16) -> Result<(), WriteFault>
    ensures { Writes (K.state sink.old) (K.state sink.new) (trace_lines head.now tick) result }
{
    put_trace_title(sink, head)?;
    write_all(sink, b"\n")?;
    put_trace_sub(sink, head, tick)?;
    write_all(sink, b"\n")
}
