ghost use Rattle.std.specs.Prelude.{◌≤◌, length};
ghost use Rattle.tab_core.specs.declared.TheConstants.{MAX_VCPUS};
ghost use Rattle.tab_io.specs.Sinks.{Writes};
ghost use Rattle.view_chart.specs.Charts.{tall_of};
ghost use Rattle.view_chart.specs.Legends.{listed_in};
ghost use Rattle.view_chart.specs.Traces.{drawn_trace, trace_head};
ghost use Rattle.view_svg.specs.Drawings.{palette_view};
ghost use Rattle.view_lanes.specs.Titles.{head_in};

use crate::legend::{listed_in, put_legend};
use crate::picture::{put_grounds, put_lanes, tall_of};
use crate::trace_axis::put_trace_axis;
use crate::trace_head::put_trace_head;
use tab_core::Name;
use tab_io::{Sink, WriteFault, write_all};
use view_doc::View;
use view_lanes::{ChartOptions, Frame, Lane, head_in};
use view_svg::{Palette, Vcpus};
use view_table::Figures;

// Writes the picture of these lanes of a trace, whose vCPUs have these figures.
pub(crate) fn put_trace_picture<K: Sink>(
    sink: &mut K,
    options: &ChartOptions,
    frame: &Frame,
    view: &View,
    figures: &Figures,
    palette: &Palette<'_>,
    lanes: &[Lane],
) -> Result<(), WriteFault>
    requires { length lanes.now ≤ MAX_VCPUS }
    ensures { Writes (K.state sink.old) (K.state sink.new)
        (drawn_trace options.now frame.now view.now figures.now (palette_view palette.now) lanes.now) result }
{
    let vcpus = Vcpus {
        names: &view.names,
        figures,
        promises: &[],
    };
    put_picture_head(sink, options.width, frame, view, palette.names, lanes)?;
    put_grounds(sink, lanes.len() as u32)?;
    put_trace_axis(sink, frame, lanes.len() as u32)?;
    put_lanes(sink, frame, options.first, &vcpus, palette, lanes)?;
    put_legend(sink, frame, palette, lanes)?;
    write_all(sink, b"</svg>\n")
}

// Writes the head.
fn put_picture_head<K: Sink>(
    sink: &mut K,
    width: u32,
    frame: &Frame,
    view: &View,
    names: &[Name],
    lanes: &[Lane],
) -> Result<(), WriteFault>
    requires lanes { length lanes.now ≤ MAX_VCPUS }
    requires few { length names.now ≤ MAX_VCPUS }
    ensures { Writes (K.state sink.old) (K.state sink.new)
        (trace_head width (tall_of (length lanes.now) (listed_in lanes.now names.now))
        (head_in frame.now view.now lanes.now) frame.now.tick) result }
{
    let head = head_in(frame, view, lanes);
    let keys = listed_in(lanes, names);
    put_trace_head(
        sink,
        width,
        tall_of(lanes.len() as u32, keys),
        &head,
        frame.tick,
    )
}
