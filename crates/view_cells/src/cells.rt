ghost use Rattle.std.specs.Prelude.{◌≡◌, ◌-◌, flat_map, length};
ghost use Rattle.tab_io.specs.Sinks.{Writes};
ghost use Rattle.view_cells.specs.Cells.{count_cell, left, millis_cell, percent_cell, right, spaces, four_behind, three_behind, yes_or_no};
ghost use Rattle.view_cells.specs.CellTexts.{cell_text};

use itoa::Buffer;
use tab_io::{Sink, WriteFault, write_all};
use tab_words::{TextPiece, put_pieces};

/// A cell of a table: a text or a number in a column of a width, which a longer one overruns.
#[derive(Clone, Copy)]
pub enum Cell<'a> {
    /// As it is.
    Text(&'a [u8]),
    /// At the left of its column.
    Left(usize, &'a [u8]),
    /// At the right of its column.
    Right(usize, &'a [u8]),
    /// A whole number.
    Count(usize, u64),
    /// Parts per million as percent with four digits; the width is that of what is before the point.
    Percent(usize, u64),
    /// Nanoseconds as milliseconds with three digits, rounded down; the width is that of what is before the point.
    Millis(usize, u64),
}

/// Writes the cells, one after the other.
///
/// A fault leaves a prefix of their text in the sink. Nothing is settled, and nothing is allocated.
pub fn put_cells<K: Sink>(sink: &mut K, cells: &[Cell<'_>]) -> Result<(), WriteFault>
    ensures { Writes (K.state sink.old) (K.state sink.new) (flat_map cell_text cells.now) result }
{
    for cell in cells {
        put_cell(sink, cell)?;
    }
    Ok(())
}

fn put_cell<K: Sink>(sink: &mut K, cell: &Cell<'_>) -> Result<(), WriteFault>
    ensures { Writes (K.state sink.old) (K.state sink.new) (cell_text cell.now) result }
{
    match *cell {
        Cell::Text(text) => write_all(sink, text),
        Cell::Left(width, text) => put_left(sink, width, text),
        Cell::Right(width, text) => put_right(sink, width, text),
        Cell::Count(width, n) => put_count(sink, width, n),
        Cell::Percent(width, ppm) => put_percent(sink, width, ppm),
        Cell::Millis(width, ns) => put_millis(sink, width, ns),
    }
}

fn put_spaces<K: Sink>(sink: &mut K, count: usize) -> Result<(), WriteFault>
    ensures { Writes (K.state sink.old) (K.state sink.new) (spaces count) result }
{
    for space in 0..count {
        write_all(sink, b" ")?;
    }
    Ok(())
}

// Writes the spaces that a text leaves of its column.
fn put_padding<K: Sink>(sink: &mut K, width: usize, text: &[u8]) -> Result<(), WriteFault>
    ensures { Writes (K.state sink.old) (K.state sink.new) (spaces (width - length text.now)) result }
{
    put_spaces(sink, width.saturating_sub(text.len()))
}

/// Writes a text at the left of its column.
///
/// A fault leaves a prefix of it in the sink. Nothing is settled, and nothing is allocated.
pub fn put_left<K: Sink>(sink: &mut K, width: usize, text: &[u8]) -> Result<(), WriteFault>
    ensures { Writes (K.state sink.old) (K.state sink.new) (left width text.now) result }
{
    write_all(sink, text)?;
    put_padding(sink, width, text)
}

/// The word for whether something is so: `yes` or `no`.
pub fn yes_or_no(truth: bool) -> &'static [u8]
    ensures { result.now ≡ yes_or_no truth }
{
    if truth { b"yes" } else { b"no" }
}

fn put_right<K: Sink>(sink: &mut K, width: usize, text: &[u8]) -> Result<(), WriteFault>
    ensures { Writes (K.state sink.old) (K.state sink.new) (right width text.now) result }
{
    put_padding(sink, width, text)?;
    write_all(sink, text)
}

#[tactic(auto, unfolding(crate::specs::Cells::count_cell))]
fn put_count<K: Sink>(sink: &mut K, width: usize, n: u64) -> Result<(), WriteFault>
    ensures { Writes (K.state sink.old) (K.state sink.new) (count_cell width n) result }
{
    let mut buffer = Buffer::new();
    put_right(sink, width, buffer.format(n).as_bytes())
}

// Writes parts per million as percent.
fn put_percent<K: Sink>(sink: &mut K, width: usize, ppm: u64) -> Result<(), WriteFault>
    ensures { Writes (K.state sink.old) (K.state sink.new) (percent_cell width ppm) result }
{
    put_count(sink, width, ppm / 10_000)?;
    put_four(sink, ppm % 10_000)
}

// Writes nanoseconds as milliseconds.
fn put_millis<K: Sink>(sink: &mut K, width: usize, ns: u64) -> Result<(), WriteFault>
    ensures { Writes (K.state sink.old) (K.state sink.new) (millis_cell width ns) result }
{
    put_count(sink, width, ns / 1_000_000)?;
    put_three(sink, ns / 1000 % 1000)
}

// Writes a point and three digits.
#[tactic(auto, unfolding(crate::specs::Cells::three_behind))]
fn put_three<K: Sink>(sink: &mut K, n: u64) -> Result<(), WriteFault>
    ensures { Writes (K.state sink.old) (K.state sink.new) (three_behind n) result }
{
    put_pieces(
        sink,
        &[
            TextPiece::Text(b"."),
            TextPiece::Wide(n / 100),
            TextPiece::Wide(n / 10 % 10),
            TextPiece::Wide(n % 10),
        ],
    )
}

// Writes a point and four digits.
#[tactic(auto, unfolding(crate::specs::Cells::four_behind))]
fn put_four<K: Sink>(sink: &mut K, n: u64) -> Result<(), WriteFault>
    ensures { Writes (K.state sink.old) (K.state sink.new) (four_behind n) result }
{
    put_pieces(
        sink,
        &[
            TextPiece::Text(b"."),
            TextPiece::Wide(n / 1000),
            TextPiece::Wide(n / 100 % 10),
            TextPiece::Wide(n / 10 % 10),
            TextPiece::Wide(n % 10),
        ],
    )
}
