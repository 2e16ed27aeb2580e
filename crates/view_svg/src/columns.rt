ghost use Rattle.std.specs.Prelude.{◌≡◌, ◌<◌, ◌≤◌, ◌+◌, ◌==◌, ◌*◌, ◌/◌, ◌^◌, [], length, slice_index};
ghost use Rattle.std.specs.List.{list_any};
ghost use Rattle.tab_io.specs.Sinks.{Writes};
ghost use Rattle.tab_words.specs.Texts.{texts_below};
ghost use Rattle.view_svg.specs.Columns.{column_box, column_path, columns_text, level_box};
ghost use Rattle.view_svg.specs.Drawings.{IsInPicture, palette_view};
ghost use Rattle.view_svg.specs.Inside.Filling.{AreTicksBelow};
ghost use Rattle.view_svg.specs.Lanes.{key_note, titled_path};

use crate::drawing::{Band, Palette};
use crate::holders::holders_of;
use crate::levels::add_bars;
use crate::marks::put_box;
use crate::paths::{put_path_begin, put_path_end};
use tab_core::VcpuNo;
use tab_io::{Sink, WriteFault};
use view_lanes::{Bar, width_at};

// Writes the bars of a lane as columns.
pub(crate) fn put_columns<K: Sink>(
    sink: &mut K,
    band: &Band,
    palette: &Palette<'_>,
    bars: &[Bar],
) -> Result<(), WriteFault>
    requires band { IsInPicture band.now }
    ensures { Writes (K.state sink.old) (K.state sink.new)
        (columns_text band.now (palette_view palette.now) bars.now) result }
{
    let holders = holders_of(bars);
    let mut ticks = [0u64; 200];
    for v in 0..palette.names.len() {
        let held = holders.has(VcpuNo(v as u32));
        put_column(sink, band, palette, bars, held, v, &mut ticks)?;
    }
    Ok(())
}

// Writes a vCPU's path of boxes in columns, if it has a bar, and adds its ticks to those of the lower ones.
fn put_column<K: Sink>(
    sink: &mut K,
    band: &Band,
    palette: &Palette<'_>,
    bars: &[Bar],
    held: bool,
    v: usize,
    ticks: &mut [u64; 200],
) -> Result<(), WriteFault>
    requires few { v < length palette.now.colours.now }
    requires band { IsInPicture band.now }
    requires held { held ≡ list_any (λ bar. bar.key == v) bars.now }
    requires below { AreTicksBelow band.now.frame bars.now v ticks.old }
    ensures wrote { Writes (K.state sink.old) (K.state sink.new)
        (column_path band.now (palette_view palette.now) bars.now v) result }
    ensures below { AreTicksBelow band.now.frame bars.now (v + 1) ticks.new }
{
    if !held {
        return Ok(());
    }
    let below = *ticks;
    add_bars(ticks, &band.frame, 200, bars, v);
    put_titled(sink, band, palette, bars, v, &below, ticks)
}

// Writes the path.
fn put_titled<K: Sink>(
    sink: &mut K,
    band: &Band,
    palette: &Palette<'_>,
    bars: &[Bar],
    v: usize,
    below: &[u64; 200],
    with: &[u64; 200],
) -> Result<(), WriteFault>
    requires few { v < length palette.now.colours.now }
    requires band { IsInPicture band.now }
    requires below { AreTicksBelow band.now.frame bars.now v below.now }
    requires with { AreTicksBelow band.now.frame bars.now (v + 1) with.now }
    ensures { Writes (K.state sink.old) (K.state sink.new)
        (titled_path (slice_index palette.now.colours.now v) [] (texts_below (column_box band.now bars.now v) 200)
        (key_note band.now.frame (palette_view palette.now) v) []) result }
{
    put_path_begin(sink, palette, v, b"")?;
    put_boxes(sink, band, bars, v, below, with)?;
    put_path_end(sink, &band.frame, palette, v, b"")
}

// Writes its boxes.
fn put_boxes<K: Sink>(
    sink: &mut K,
    band: &Band,
    bars: &[Bar],
    v: usize,
    below: &[u64; 200],
    with: &[u64; 200],
) -> Result<(), WriteFault>
    requires band { IsInPicture band.now }
    requires below { AreTicksBelow band.now.frame bars.now v below.now }
    requires with { AreTicksBelow band.now.frame bars.now (v + 1) with.now }
    ensures { Writes (K.state sink.old) (K.state sink.new)
        (texts_below (column_box band.now bars.now v) 200) result }
{
    for j in 0..200 {
        put_column_box(sink, band, bars, v, j, below, with)?;
    }
    Ok(())
}

// Writes the box in the column of a number.
fn put_column_box<K: Sink>(
    sink: &mut K,
    band: &Band,
    bars: &[Bar],
    v: usize,
    j: usize,
    below: &[u64; 200],
    with: &[u64; 200],
) -> Result<(), WriteFault>
    requires band { IsInPicture band.now }
    requires there { j < 200 }
    requires below { AreTicksBelow band.now.frame bars.now v below.now }
    requires with { AreTicksBelow band.now.frame bars.now (v + 1) with.now }
    ensures { Writes (K.state sink.old) (K.state sink.new)
        (column_box band.now bars.now v j) result }
{
    let wide = width_at(&band.frame, 200, j as u32);
    put_level_box(
        sink,
        band.y + band.high,
        level_of(below[j], band.high, wide),
        level_of(with[j], band.high, wide),
        j as u32,
    )
}

// How high so many ticks of a column are.
fn level_of(ticks: u64, high: u32, wide: u64) -> u64
    requires high { high ≤ 4000 }
    requires few { ticks < 2 ^ 50 }
    ensures { result ≡ ticks * high / wide }
{
    if wide == 0 {
        return 0;
    }
    ticks * u64::from(high) / wide
}

fn put_level_box<K: Sink>(
    sink: &mut K,
    foot: u32,
    low: u64,
    top: u64,
    j: u32,
) -> Result<(), WriteFault>
    requires { j < 200 }
    ensures { Writes (K.state sink.old) (K.state sink.new) (level_box foot low top j) result }
{
    if low >= top {
        return Ok(());
    }
    let x = 9400 + j * 513;
    let foot = u64::from(foot);
    put_box(
        sink,
        u64::from(x),
        foot.saturating_sub(top),
        u64::from(x + 513),
        foot.saturating_sub(low),
    )
}
