ghost use Rattle.std.specs.Prelude.{◌≡◌, ◌<◌, ◌≤◌, ◌+◌, ◌-◌, ◌*◌, ◌/◌, ◌^◌, ◌==◌, ℕ, length, min, slice_index, slice_set};
ghost use Rattle.view_svg.specs.Inside.Filling.{AreCapped};
ghost use Rattle.view_lanes.specs.Columns.{sum_of, ticks_in, width_at};

use view_lanes::{Bar, Frame, edge_of, overlap, span_of, width_at};

// How many ticks of a bar are in the column of a number.
fn ticks_in(frame: &Frame, columns: u32, j: u32, bar: &Bar) -> u64
    requires some { 0 < columns }
    requires few { columns ≤ 65536 }
    requires there { j < 65536 }
    ensures value { result ≡ ticks_in frame.now columns j bar.now }
    ensures small { result < 2 ^ 32 }
{
    overlap(
        edge_of(frame, columns, j),
        edge_of(frame, columns, j + 1),
        bar,
    )
}

// The number of the column that a tick is in, or of those after them.
fn column_at(frame: &Frame, columns: u32, tick: u32) -> u64
    requires { columns ≤ 65536 }
    ensures value { result ≡ (tick - frame.now.from) * columns / (frame.now.to - frame.now.from) }
    ensures small { result < 2 ^ 48 }
{
    let span = span_of(frame);
    if span == 0 {
        return 0;
    }
    u64::from(tick.saturating_sub(frame.from)) * u64::from(columns) / u64::from(span)
}

// The columns that a bar is in: the first, and the one after the last.
fn columns_in(frame: &Frame, columns: u32, bar: &Bar) -> (u32, u32)
    requires some { 0 < columns }
    requires few { columns ≤ 65536 }
    ensures few { (result.0 ≤ columns) × (result.1 ≤ columns) }
    ensures before { (j : ℕ) → j < result.0 → ticks_in frame.now columns j bar.now ≡ 0 }
    ensures behind { (j : ℕ) → result.1 ≤ j → j < columns → ticks_in frame.now columns j bar.now ≡ 0 }
{
    let all = u64::from(columns);
    let first = column_at(frame, columns, bar.from).min(all) as u32;
    if span_of(frame) == 0 {
        return (first, columns);
    }
    let last = (column_at(frame, columns, bar.end) + 1).min(all) as u32;
    (first, last)
}

// Adds the ticks of a bar to those of the columns that it is in, up to all that a column has.
fn add_bar(ticks: &mut [u64], frame: &Frame, columns: u32, bar: &Bar)
    requires some { 0 < columns }
    requires few { columns ≤ 65536 }
    requires count { length ticks.old ≡ columns }
    requires capped { AreCapped frame.now columns ticks.old }
    ensures count { length ticks.new ≡ columns }
    ensures added { (j : ℕ) → j < columns → slice_index ticks.new j
        ≡ min (width_at frame.now columns j) (slice_index ticks.old j + ticks_in frame.now columns j bar.now) }
{
    let (first, last) = columns_in(frame, columns, bar);
    for j in first..last {
        add_ticks(ticks, frame, columns, j, bar);
    }
}

// Adds the ticks of a bar in a column.
fn add_ticks(ticks: &mut [u64], frame: &Frame, columns: u32, j: u32, bar: &Bar)
    requires there { j < columns }
    requires few { columns ≤ 65536 }
    requires count { length ticks.old ≡ columns }
    requires capped { slice_index ticks.old j ≤ width_at frame.now columns j }
    ensures { ticks.new ≡ slice_set ticks.old j
        (min (width_at frame.now columns j) (slice_index ticks.old j + ticks_in frame.now columns j bar.now)) }
{
    let wide = width_at(frame, columns, j);
    let more = ticks_in(frame, columns, j, bar);
    let i = j as usize;
    ticks[i] = (ticks[i] + more).min(wide);
}

// Adds the ticks of a vCPU's bars to the columns.
pub(crate) fn add_bars(ticks: &mut [u64], frame: &Frame, columns: u32, bars: &[Bar], v: usize)
    requires some { 0 < columns }
    requires few { columns ≤ 65536 }
    requires count { length ticks.old ≡ columns }
    requires capped { AreCapped frame.now columns ticks.old }
    ensures count { length ticks.new ≡ columns }
    ensures added { (j : ℕ) → j < columns → slice_index ticks.new j
        ≡ min (width_at frame.now columns j) (slice_index ticks.old j
        + sum_of (λ w. w == v) frame.now columns bars.now j) }
{
    for bar in bars {
        if usize::from(bar.key) == v {
            add_bar(ticks, frame, columns, bar);
        }
    }
}
