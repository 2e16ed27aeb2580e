ghost use Rattle.std.specs.Prelude.{◌≡◌, flat_map};
ghost use Rattle.tab_io.specs.Sinks.{Writes};
ghost use Rattle.view_export.specs.Csv.{csv_head, csv_line, csv_of, csv_stint, csv_text, slot_line};

use crate::shown::{holder_name, how_text, shown_in};
use tab_core::Name;
use tab_io::{Sink, WriteFault, write_all};
use tab_words::{TextPiece, put_pieces};
use view_doc::{Stretch, View};

/// Writes a view as comma-separated values: a line for each segment of a plan, or each stint of a run,
/// in the order of the text that was read, after a line with the columns' names.
///
/// Ticks are whole numbers. Where nobody has the ticks, the vCPU's field is empty.
///
/// A fault leaves a prefix of the text in the sink. Nothing is settled, and nothing is allocated.
pub fn write_csv<K: Sink>(sink: &mut K, view: &View) -> Result<(), WriteFault>
    ensures { Writes (K.state sink.old) (K.state sink.new) (csv_text view.now) result }
{
    put_csv(sink, view.is_run, &view.names, shown_in(view))
}

// Writes the text of these stretches.
fn put_csv<K: Sink>(
    sink: &mut K,
    is_run: bool,
    names: &[Name],
    stretches: &[Stretch],
) -> Result<(), WriteFault>
    ensures { Writes (K.state sink.old) (K.state sink.new)
        (csv_of is_run names.now stretches.now) result }
{
    put_head(sink, is_run)?;
    put_lines(sink, is_run, names, stretches)
}

fn put_head<K: Sink>(sink: &mut K, is_run: bool) -> Result<(), WriteFault>
    ensures { Writes (K.state sink.old) (K.state sink.new) (csv_head is_run) result }
{
    write_all(sink, head_of(is_run))
}

fn head_of(is_run: bool) -> &'static [u8]
    ensures { result.now ≡ csv_head is_run }
{
    if is_run {
        b"core,from,end,vcpu,how,used,seen\n"
    } else {
        b"core,from,end,vcpu,how\n"
    }
}

// Writes a line for each of these.
fn put_lines<K: Sink>(
    sink: &mut K,
    is_run: bool,
    names: &[Name],
    stretches: &[Stretch],
) -> Result<(), WriteFault>
    ensures { Writes (K.state sink.old) (K.state sink.new)
        (flat_map (csv_line is_run names.now) stretches.now) result }
{
    for stretch in stretches {
        if let Err(fault) = put_line_of(sink, is_run, names, stretch) {
            return Err(fault);
        }
    }
    Ok(())
}

fn put_line_of<K: Sink>(
    sink: &mut K,
    is_run: bool,
    names: &[Name],
    stretch: &Stretch,
) -> Result<(), WriteFault>
    ensures { Writes (K.state sink.old) (K.state sink.new)
        (csv_line is_run names.now stretch.now) result }
{
    if is_run {
        put_stint(sink, names, stretch)
    } else {
        put_slot(sink, names, stretch)
    }
}

#[tactic(auto, unfolding(crate::specs::Csv::slot_line))]
fn put_slot<K: Sink>(sink: &mut K, names: &[Name], s: &Stretch) -> Result<(), WriteFault>
    ensures { Writes (K.state sink.old) (K.state sink.new) (slot_line names.now s.now) result }
{
    put_pieces(
        sink,
        &[
            TextPiece::Number(s.core.0),
            TextPiece::Text(b","),
            TextPiece::Number(s.from),
            TextPiece::Text(b","),
            TextPiece::Number(s.end),
            TextPiece::Text(b","),
            TextPiece::Text(holder_name(names, &s.by)),
            TextPiece::Text(b","),
            TextPiece::Text(how_text(&s.by)),
            TextPiece::Text(b"\n"),
        ],
    )
}

#[tactic(auto, unfolding(crate::specs::Csv::csv_stint))]
fn put_stint<K: Sink>(sink: &mut K, names: &[Name], s: &Stretch) -> Result<(), WriteFault>
    ensures { Writes (K.state sink.old) (K.state sink.new) (csv_stint names.now s.now) result }
{
    put_pieces(
        sink,
        &[
            TextPiece::Number(s.core.0),
            TextPiece::Text(b","),
            TextPiece::Number(s.from),
            TextPiece::Text(b","),
            TextPiece::Number(s.end),
            TextPiece::Text(b","),
            TextPiece::Text(holder_name(names, &s.by)),
            TextPiece::Text(b","),
            TextPiece::Text(how_text(&s.by)),
            TextPiece::Text(b","),
            TextPiece::Number(s.used),
            TextPiece::Text(b","),
            TextPiece::Number(s.seen),
            TextPiece::Text(b"\n"),
        ],
    )
}
