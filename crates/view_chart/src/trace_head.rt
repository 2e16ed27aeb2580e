ghost use Rattle.std.specs.Prelude.{◌-◌, ◌*◌, ◌/◌};
ghost use Rattle.tab_io.specs.Sinks.{Writes};
ghost use Rattle.view_chart.specs.Traces.{trace_columns, trace_columns_text, trace_end, trace_head};

use crate::head::{put_desc, put_ground, put_size, put_style};
use tab_io::{Sink, WriteFault, write_all};
use tab_words::{TextPiece, put_pieces};
use view_lanes::{Head, put_trace_sub, put_trace_title};

// Writes the head of a trace's picture that is so wide in pixels and so tall in units, where a tick has so many ns.
pub(crate) fn put_trace_head<K: Sink>(
    sink: &mut K,
    width: u32,
    tall: u32,
    head: &Head,
    tick: u16,
) -> Result<(), WriteFault>
    ensures { Writes (K.state sink.old) (K.state sink.new) (trace_head width tall head.now tick) result }
{
    put_size(sink, head.picture, width, tall)?;
    put_trace_title(sink, head)?;
    put_desc(sink, head.picture)?;
    put_trace_sub(sink, head, tick)?;
    put_style(sink, head.picture)?;
    put_ground(sink, tall)?;
    put_trace_title(sink, head)?;
    write_all(
        sink,
        b"</text>\n<text x=\"4000\" y=\"5000\" font-size=\"1100\" class=\"dim\">",
    )?;
    put_trace_sub(sink, head, tick)?;
    put_trace_end(sink, head, tick)
}

// Writes where it ends, with what columns are.
fn put_trace_end<K: Sink>(sink: &mut K, head: &Head, tick: u16) -> Result<(), WriteFault>
    ensures { Writes (K.state sink.old) (K.state sink.new) (trace_end head.now tick) result }
{
    write_all(sink, b"</text>\n")?;
    put_trace_columns(sink, head, tick)
}

fn put_trace_columns<K: Sink>(sink: &mut K, head: &Head, tick: u16) -> Result<(), WriteFault>
    ensures { Writes (K.state sink.old) (K.state sink.new)
        (trace_columns head.now.columns ((head.now.to - head.now.from) * tick / 200)) result }
{
    if head.columns {
        let span = u64::from(head.to.saturating_sub(head.from));
        put_columns_text(sink, span * u64::from(tick) / 200)
    } else {
        Ok(())
    }
}

#[tactic(auto, unfolding(crate::specs::Traces::trace_columns_text))]
fn put_columns_text<K: Sink>(sink: &mut K, ns: u64) -> Result<(), WriteFault>
    ensures { Writes (K.state sink.old) (K.state sink.new) (trace_columns_text ns) result }
{
    put_pieces(
        sink,
        &[
            TextPiece::Text(
                b"<text x=\"146000\" y=\"5000\" font-size=\"900\" class=\"dim\" text-anchor=\"end\">Lanes of many boxes are columns of ",
            ),
            TextPiece::Wide(ns),
            TextPiece::Text(b" ns: each is as high as its part of them.</text>\n"),
        ],
    )
}
