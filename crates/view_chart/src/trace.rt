ghost use Rattle.std.specs.Prelude.{◌≡◌, ◌≤◌, IfOk, IsErrOf, Ok, Err, length, true};
ghost use Rattle.tab_core.specs.declared.TheConstants.{MAX_CORES, MAX_VCPUS};
ghost use Rattle.tab_io.specs.Sinks.{Writes};
ghost use Rattle.view_table.specs.Figures.{AreFigures};
ghost use Rattle.view_chart.specs.Traces.{cores_trace, trace_chart, vcpus_trace};
ghost use Rattle.view_lanes.specs.Shown.{shows_no_trace, trace_lanes};
ghost use Rattle.view_lanes.specs.declared.fault.ChartFault.TheVariants as fault;

use crate::chart::told;
use crate::trace_picture::put_trace_picture;
use std::alloc::Global;
use tab_io::Sink;
use view_doc::View;
use view_lanes::{
    ChartFault, ChartOptions, Frame, Lane, core_names, core_tones, cores_in, lanes_from, lanes_of,
    shown_in, shows_no_trace, trace_frame, vcpu_tones,
};
use view_svg::Palette;
use view_table::Figures;

/// Draws a host's trace of at most 32 cores and 256 vCPUs, which ends at a tick, as a picture, in SVG.
///
/// Each core or vCPU that the options name has a lane, with boxes for its stints in the ticks that are shown, and
/// right of the lane a key, as `write_chart` draws a run. It has no rounds, and its times are in ns. A fault of
/// writing leaves a prefix of the text in the sink; nothing is written where there is no memory, or where no tick
/// or no lane is shown. Nothing is settled.
pub fn write_trace_chart<K: Sink>(
    alloc: Global,
    sink: &mut K,
    view: &View,
    figures: &Figures,
    end: u32,
    options: &ChartOptions,
) -> Result<(), ChartFault>
    requires cores { view.now.cores ≤ MAX_CORES }
    requires vcpus { length view.now.names.items ≤ MAX_VCPUS }
    requires figures { AreFigures view.now figures.now }
    ensures ok { IfOk result (λ u. Writes (K.state sink.old) (K.state sink.new)
        (trace_chart options.now end view.now figures.now) (Ok u)) }
    ensures broken { IsErrOf result fault.Write → Writes {U = Unit {0}} (K.state sink.old) (K.state sink.new)
        (trace_chart options.now end view.now figures.now) (Err (record {})) }
    ensures nothing { IsErrOf result fault.Nothing → shows_no_trace options.now end view.now ≡ true }
    ensures nothing_due { shows_no_trace options.now end view.now ≡ true → IsErrOf result fault.Nothing }
    ensures unwritten { IsErrOf result fault.NoMemory → sink.new ≡ sink.old }
    ensures unwritten_nothing { IsErrOf result fault.Nothing → sink.new ≡ sink.old }
{
    if shows_no_trace(view, options, end) {
        return Err(ChartFault::Nothing);
    }
    let count = lanes_of(view, options);
    let frame = trace_frame(options, end);
    let Ok(lanes) = lanes_from(alloc, &frame, shown_in(view), options.first, count) else {
        return Err(ChartFault::NoMemory);
    };
    if options.by_vcpu {
        draw_vcpus(alloc, sink, view, figures, options, &frame, &lanes)
    } else {
        draw_cores(alloc, sink, view, figures, options, &frame, &lanes)
    }
}

// Draws lanes of cores.
fn draw_cores<K: Sink>(
    alloc: Global,
    sink: &mut K,
    view: &View,
    figures: &Figures,
    options: &ChartOptions,
    frame: &Frame,
    lanes: &[Lane],
) -> Result<(), ChartFault>
    requires vcpus { length view.now.names.items ≤ MAX_VCPUS }
    requires lanes { lanes.now ≡ trace_lanes options.now frame.now view.now }
    requires few { length lanes.now ≤ MAX_VCPUS }
    ensures ok { IfOk result (λ u. Writes (K.state sink.old) (K.state sink.new)
        (cores_trace options.now frame.now view.now figures.now) (Ok u)) }
    ensures broken { IsErrOf result fault.Write → Writes {U = Unit {0}} (K.state sink.old) (K.state sink.new)
        (cores_trace options.now frame.now view.now figures.now) (Err (record {})) }
    ensures some { IsErrOf result fault.Nothing → ⊥ }
    ensures unwritten { IsErrOf result fault.NoMemory → sink.new ≡ sink.old }
{
    let Ok(tones) = vcpu_tones(alloc, view, figures) else {
        return Err(ChartFault::NoMemory);
    };
    let palette = Palette {
        names: &view.names,
        tasks: &[],
        colours: &tones,
    };
    told(put_trace_picture(sink, options, frame, view, figures, &palette, lanes))
}

// Draws lanes of vCPUs.
fn draw_vcpus<K: Sink>(
    alloc: Global,
    sink: &mut K,
    view: &View,
    figures: &Figures,
    options: &ChartOptions,
    frame: &Frame,
    lanes: &[Lane],
) -> Result<(), ChartFault>
    requires cores { view.now.cores ≤ MAX_CORES }
    requires lanes { lanes.now ≡ trace_lanes options.now frame.now view.now }
    requires few { length lanes.now ≤ MAX_VCPUS }
    ensures ok { IfOk result (λ u. Writes (K.state sink.old) (K.state sink.new)
        (vcpus_trace options.now frame.now view.now figures.now) (Ok u)) }
    ensures broken { IsErrOf result fault.Write → Writes {U = Unit {0}} (K.state sink.old) (K.state sink.new)
        (vcpus_trace options.now frame.now view.now figures.now) (Err (record {})) }
    ensures some { IsErrOf result fault.Nothing → ⊥ }
    ensures unwritten { IsErrOf result fault.NoMemory → sink.new ≡ sink.old }
{
    let cores = cores_in(view);
    let Ok(names) = core_names(alloc, cores) else {
        return Err(ChartFault::NoMemory);
    };
    let Ok(tones) = core_tones(alloc, cores) else {
        return Err(ChartFault::NoMemory);
    };
    let palette = Palette {
        names: &names,
        tasks: &[],
        colours: &tones,
    };
    told(put_trace_picture(sink, options, frame, view, figures, &palette, lanes))
}
