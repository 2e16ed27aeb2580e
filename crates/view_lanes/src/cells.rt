ghost use Rattle.std.specs.Prelude.{◌≡◌, ◌<◌, ◌≤◌, ◌+◌, ◌-◌, ◌*◌, ◌/◌, ◌^◌};
ghost use Rattle.view_lanes.specs.Columns.{edge_of, overlap, width_at};

use crate::frame::{Bar, Frame};
use crate::shown::span_of;

/// The tick at which column `j` of so many begins, of the ticks that the frame shows: the first that
/// isn't left of the column. That of the number after the last column is where the last ends. There are
/// 1 to 65,536 columns.
pub fn edge_of(frame: &Frame, columns: u32, j: u32) -> u64
    requires some { 0 < columns }
    requires few { columns ≤ 65536 }
    requires there { j ≤ 65536 }
    ensures value { result ≡ edge_of frame.now columns j }
    ensures small { result < 2 ^ 50 }
{
    edge_from(frame.from, span_of(frame), columns, j)
}

// Where the column of a number begins, of so many ticks from one on.
fn edge_from(from: u32, span: u32, columns: u32, j: u32) -> u64
    requires some { 0 < columns }
    requires few { columns ≤ 65536 }
    requires there { j ≤ 65536 }
    ensures value { result ≡ from + (j * span + (columns - 1)) / columns }
    ensures small { result < 2 ^ 50 }
{
    let wide = u64::from(j) * u64::from(span);
    u64::from(from) + (wide + u64::from(columns - 1)) / u64::from(columns)
}

/// How many ticks column `j` of so many has, of the ticks that the frame shows. There are 1 to 65,536
/// columns.
pub fn width_at(frame: &Frame, columns: u32, j: u32) -> u64
    requires some { 0 < columns }
    requires few { columns ≤ 65536 }
    requires there { j < 65536 }
    ensures value { result ≡ width_at frame.now columns j }
    ensures small { result < 2 ^ 50 }
{
    edge_of(frame, columns, j + 1).saturating_sub(edge_of(frame, columns, j))
}

/// How many ticks a bar has from the tick `first` up to, and without, `last`.
pub fn overlap(first: u64, last: u64, bar: &Bar) -> u64
    ensures value { result ≡ overlap first last bar.now }
    ensures small { result < 2 ^ 32 }
{
    let end = u64::from(bar.end).min(last);
    end.saturating_sub(u64::from(bar.from).max(first))
}
