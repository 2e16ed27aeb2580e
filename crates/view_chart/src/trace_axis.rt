ghost use Rattle.std.specs.Prelude.{◌≤◌, ◌<◌, ◌-◌};
ghost use Rattle.tab_core.specs.declared.TheConstants.{MAX_VCPUS};
ghost use Rattle.tab_io.specs.Sinks.{Writes};
ghost use Rattle.tab_words.specs.Texts.{texts_below};
ghost use Rattle.view_svg.specs.Frames.{foot_of};
ghost use Rattle.view_chart.specs.Axes.{end_tick, first_tick};
ghost use Rattle.view_chart.specs.Traces.{ns_axis, ns_axis_of, ns_number, ns_word, trace_axis};

use crate::axis::{marked_tick, put_tick, put_time_axis, tick_marks};
use tab_io::{Sink, WriteFault};
use tab_words::{TextPiece, put_pieces};
use view_lanes::Frame;
use view_svg::{foot_of, x_at};

// Writes the axes of a trace: of time above, and of ns below so many lanes.
pub(crate) fn put_trace_axis<K: Sink>(
    sink: &mut K,
    frame: &Frame,
    lanes: u32,
) -> Result<(), WriteFault>
    requires { lanes ≤ MAX_VCPUS }
    ensures { Writes (K.state sink.old) (K.state sink.new) (trace_axis frame.now (foot_of lanes)) result }
{
    put_time_axis(sink, frame, lanes)?;
    put_ns_axis(sink, frame, lanes)
}

fn put_ns_axis<K: Sink>(sink: &mut K, frame: &Frame, lanes: u32) -> Result<(), WriteFault>
    requires { lanes ≤ MAX_VCPUS }
    ensures { Writes (K.state sink.old) (K.state sink.new) (ns_axis frame.now (foot_of lanes)) result }
{
    put_ns_axis_of(sink, frame, foot_of(lanes) + 1300, tick_marks(frame))
}

fn put_ns_axis_of<K: Sink>(
    sink: &mut K,
    frame: &Frame,
    y: u32,
    marks: u64,
) -> Result<(), WriteFault>
    requires { marks ≤ end_tick frame.now - first_tick frame.now }
    ensures { Writes (K.state sink.old) (K.state sink.new) (ns_axis_of frame.now y marks) result }
{
    put_ns_numbers(sink, frame, y, marks)?;
    put_ns_word(sink, y)
}

#[tactic(auto, unfolding(crate::specs::Traces::ns_word))]
fn put_ns_word<K: Sink>(sink: &mut K, y: u32) -> Result<(), WriteFault>
    ensures { Writes (K.state sink.old) (K.state sink.new) (ns_word y) result }
{
    put_pieces(
        sink,
        &[
            TextPiece::Text(b"<text x=\"4000\" y=\""),
            TextPiece::Number(y),
            TextPiece::Text(b"\" font-size=\"900\" class=\"dim\">ns</text>\n"),
        ],
    )
}

fn put_ns_numbers<K: Sink>(
    sink: &mut K,
    frame: &Frame,
    y: u32,
    marks: u64,
) -> Result<(), WriteFault>
    requires { marks ≤ end_tick frame.now - first_tick frame.now }
    ensures { Writes (K.state sink.old) (K.state sink.new) (texts_below (ns_number frame.now y) marks) result }
{
    for k in 0..marks {
        put_ns_number(sink, frame, y, k)?;
    }
    Ok(())
}

fn put_ns_number<K: Sink>(sink: &mut K, frame: &Frame, y: u32, k: u64) -> Result<(), WriteFault>
    requires { k < end_tick frame.now - first_tick frame.now }
    ensures { Writes (K.state sink.old) (K.state sink.new) (ns_number frame.now y k) result }
{
    let tick = marked_tick(frame, k);
    let ns = u64::from(tick) * u64::from(frame.tick);
    put_tick(sink, x_at(frame, tick), y, ns)
}
