ghost use Rattle.std.specs.Prelude.{◌≡◌, ◌≤◌, IfErr, IfOk, IsErrOf, Ok, Err, length, true};
ghost use Rattle.tab_core.specs.declared.TheConstants.{MAX_CORES, MAX_VCPUS};
ghost use Rattle.tab_io.specs.Sinks.{Writes};
ghost use Rattle.view_table.specs.Figures.{AreFigures};
ghost use Rattle.view_chart.specs.Charts.{chart_text, cores_chart, vcpus_chart};
ghost use Rattle.view_lanes.specs.Shown.{chart_lanes, shows_nothing};
ghost use Rattle.view_lanes.specs.declared.fault.ChartFault.TheVariants as fault;

use crate::picture::put_picture;
use std::alloc::Global;
use tab_core::NoMemory;
use tab_io::{Sink, WriteFault};
use view_doc::View;
use view_lanes::{
    ChartFault, ChartOptions, Lane, core_names, core_tones, cores_in, frame_of, lanes_from,
    lanes_of, shown_in, shows_nothing, vcpu_tones,
};
use view_svg::{Palette, Vcpus};
use view_table::Figures;

/// Draws a view of at most 32 cores and 256 vCPUs as a picture, in SVG.
///
/// Each core or vCPU that the options name has a lane, and right of it a key. In the ticks that are shown the lane
/// has a box for each slot of a plan, and of a run for each shared stint and for each slot as far as it ran on. On a
/// vCPU's lane of a plan a line marks its longest wait, which the figures have; right of it are how long it is and
/// the promise, in nanoseconds, if there is one. A fault of writing leaves a prefix of the text in the sink; nothing
/// is written where there is no memory, or where no tick or no lane is shown. Nothing is settled.
pub fn write_chart<K: Sink>(
    alloc: Global,
    sink: &mut K,
    view: &View,
    figures: &Figures,
    promises: &[Option<u64>],
    options: &ChartOptions,
) -> Result<(), ChartFault>
    requires cores { view.now.cores ≤ MAX_CORES }
    requires vcpus { length view.now.names.items ≤ MAX_VCPUS }
    requires figures { AreFigures view.now figures.now }
    ensures ok { IfOk result (λ u. Writes (K.state sink.old) (K.state sink.new)
        (chart_text options.now view.now figures.now promises.now) (Ok u)) }
    ensures broken { IsErrOf result fault.Write → Writes {U = Unit {0}} (K.state sink.old) (K.state sink.new)
        (chart_text options.now view.now figures.now promises.now) (Err (record {})) }
    ensures nothing { IsErrOf result fault.Nothing → shows_nothing options.now view.now ≡ true }
    ensures nothing_due { shows_nothing options.now view.now ≡ true → IsErrOf result fault.Nothing }
    ensures unwritten { IsErrOf result fault.NoMemory → sink.new ≡ sink.old }
    ensures unwritten_nothing { IsErrOf result fault.Nothing → sink.new ≡ sink.old }
{
    if shows_nothing(view, options) {
        return Err(ChartFault::Nothing);
    }
    let count = lanes_of(view, options);
    let frame = frame_of(view, options);
    let Ok(lanes) = lanes_from(alloc, &frame, shown_in(view), options.first, count) else {
        return Err(ChartFault::NoMemory);
    };
    if options.by_vcpu {
        draw_vcpus(alloc, sink, view, figures, promises, options, &lanes)
    } else {
        draw_cores(alloc, sink, view, figures, promises, options, &lanes)
    }
}

// Draws lanes of cores.
fn draw_cores<K: Sink>(
    alloc: Global,
    sink: &mut K,
    view: &View,
    figures: &Figures,
    promises: &[Option<u64>],
    options: &ChartOptions,
    lanes: &[Lane],
) -> Result<(), ChartFault>
    requires vcpus { length view.now.names.items ≤ MAX_VCPUS }
    requires lanes { lanes.now ≡ chart_lanes view.now options.now }
    requires few { length lanes.now ≤ MAX_VCPUS }
    ensures ok { IfOk result (λ u. Writes (K.state sink.old) (K.state sink.new)
        (cores_chart options.now view.now figures.now promises.now) (Ok u)) }
    ensures broken { IsErrOf result fault.Write → Writes {U = Unit {0}} (K.state sink.old) (K.state sink.new)
        (cores_chart options.now view.now figures.now promises.now) (Err (record {})) }
    ensures some { IsErrOf result fault.Nothing → ⊥ }
    ensures unwritten { IsErrOf result fault.NoMemory → sink.new ≡ sink.old }
{
    let Ok(tones) = vcpu_tones(alloc, view, figures) else {
        return Err(ChartFault::NoMemory);
    };
    let frame = frame_of(view, options);
    let vcpus = Vcpus {
        names: &view.names,
        figures,
        promises,
    };
    let palette = Palette {
        names: &view.names,
        tasks: &view.tasks,
        colours: &tones,
    };
    told(put_picture(sink, options, &frame, view, &vcpus, &palette, lanes))
}

// Draws lanes of vCPUs.
fn draw_vcpus<K: Sink>(
    alloc: Global,
    sink: &mut K,
    view: &View,
    figures: &Figures,
    promises: &[Option<u64>],
    options: &ChartOptions,
    lanes: &[Lane],
) -> Result<(), ChartFault>
    requires cores { view.now.cores ≤ MAX_CORES }
    requires lanes { lanes.now ≡ chart_lanes view.now options.now }
    requires few { length lanes.now ≤ MAX_VCPUS }
    ensures ok { IfOk result (λ u. Writes (K.state sink.old) (K.state sink.new)
        (vcpus_chart options.now view.now figures.now promises.now) (Ok u)) }
    ensures broken { IsErrOf result fault.Write → Writes {U = Unit {0}} (K.state sink.old) (K.state sink.new)
        (vcpus_chart options.now view.now figures.now promises.now) (Err (record {})) }
    ensures some { IsErrOf result fault.Nothing → ⊥ }
    ensures unwritten { IsErrOf result fault.NoMemory → sink.new ≡ sink.old }
{
    let cores = cores_in(view);
    let Ok(names) = core_names(alloc, cores) else {
        return Err(ChartFault::NoMemory);
    };
    let Ok(tones) = core_tones(alloc, cores) else {
        return Err(ChartFault::NoMemory);
    };
    let frame = frame_of(view, options);
    let vcpus = Vcpus {
        names: &view.names,
        figures,
        promises,
    };
    let palette = Palette {
        names: &names,
        tasks: &[],
        colours: &tones,
    };
    told(put_picture(sink, options, &frame, view, &vcpus, &palette, lanes))
}

// What a fault of writing is here.
pub(crate) fn told(written: Result<(), WriteFault>) -> Result<(), ChartFault>
    ensures ok { IfOk result (λ u. written ≡ Ok u) }
    ensures broken { IfErr result (λ f. (f ≡ fault.Write) × (written ≡ Err (record {}))) }
{
    match written {
        Ok(()) => Ok(()),
        Err(WriteFault) => Err(ChartFault::Write),
    }
}
