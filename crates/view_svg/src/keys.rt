ghost use Rattle.std.specs.Prelude.{◌≡◌, ◌<◌, ◌≤◌, ◌+◌, ◌-◌, ◌^◌, if◌then◌else◌, length};
ghost use Rattle.tab_core.specs.VcpuSets.{has_vcpu};
ghost use Rattle.tab_core.specs.declared.TheConstants.{MAX_VCPUS};
ghost use Rattle.tab_io.specs.Sinks.{Writes};
ghost use Rattle.tab_words.specs.Texts.{texts_below};
ghost use Rattle.view_svg.specs.Drawings.{IsInPicture, palette_view};
ghost use Rattle.view_svg.specs.Inside.Holding.{AreHolders};
ghost use Rattle.view_svg.specs.Marks.{short_back, short_dots, short_front};
ghost use Rattle.view_svg.specs.Keys.{count_below, has_bar, key_at, key_box, key_entry, key_mark, key_name, key_room, key_top, key_x, keys_of, keys_text, lane_rows, listed_of, more_at, more_text};

use crate::drawing::{Band, Palette};
use crate::gather::put_at_once;
use crate::holders::holders_of;
use crate::marks::{short_back, short_dots, short_front};
use tab_core::{VcpuNo, VcpuSet};
use tab_io::{Sink, WriteFault};
use tab_words::TextPiece;
use view_lanes::{Bar, name_at};

// Writes who has bars on a lane, right of it.
pub(crate) fn put_keys<K: Sink>(
    sink: &mut K,
    band: &Band,
    palette: &Palette<'_>,
    bars: &[Bar],
) -> Result<(), WriteFault>
    requires band { IsInPicture band.now }
    ensures { Writes (K.state sink.old) (K.state sink.new)
        (keys_text band.now (palette_view palette.now) bars.now) result }
{
    let holders = holders_of(bars);
    let count = count_of(&holders, palette.names.len(), bars);
    let listed = listed_of(key_room(band.frame.by_vcpu, band.high), count);
    put_keys_of(sink, band, palette, bars, &holders, listed, count)
}

// How many of the first numbers have a bar.
fn count_of(holders: &VcpuSet, numbers: usize, bars: &[Bar]) -> u32
    requires holders { AreHolders holders.now bars.now }
    requires few { numbers ≤ MAX_VCPUS }
    ensures value { result ≡ count_below (has_bar bars.now) numbers }
    ensures few { result ≤ MAX_VCPUS }
{
    count_below(holders, numbers)
}

/// How many numbers below `numbers`, which is at most 256, are members of the set.
pub fn count_below(set: &VcpuSet, numbers: usize) -> u32
    requires { numbers ≤ MAX_VCPUS }
    ensures value { result ≡ count_below (has_vcpu set.now) numbers }
    ensures few { result ≤ numbers }
{
    let mut count = 0;
    for v in 0..numbers {
        count = next_place(count, set.has(VcpuNo(v as u32)));
    }
    count
}

/// The place after this one if it is taken, else this one. The place is below 2^32 - 1.
pub fn next_place(place: u32, taken: bool) -> u32
    requires { place < 2 ^ 32 - 1 }
    ensures { result ≡ place + (if taken then 1 else 0) }
{
    if taken { place + 1 } else { place }
}

// How many rows a lane of a height has.
fn rows_of(high: u32) -> u32
    requires { high ≤ 4000 }
    ensures value { result ≡ lane_rows high }
    ensures few { result ≤ 4 }
{
    ((high + high / 5) / 1000).max(1)
}

// How many places it has.
fn key_room(by_vcpu: bool, high: u32) -> u32
    requires { high ≤ 4000 }
    ensures value { result ≡ key_room by_vcpu high }
    ensures few { result ≤ 24 }
{
    let rows = rows_of(high);
    if by_vcpu { 6 * rows } else { 4 * rows }
}

// How many are listed of so many.
fn listed_of(room: u32, count: u32) -> u32
    requires { room ≤ 24 }
    ensures value { result ≡ listed_of room count }
    ensures few { result ≤ 24 }
{
    if count <= room {
        count
    } else {
        room.saturating_sub(1)
    }
}

// Where the place of a number begins.
fn key_x(by_vcpu: bool, k: u32) -> u32
    ensures value { result ≡ key_x by_vcpu k }
    ensures small { result ≤ 150000 }
{
    if by_vcpu {
        122_000 + k % 6 * 4500
    } else {
        113_000 + k % 4 * 9000
    }
}

// Its top beside a lane that begins there.
fn key_top(by_vcpu: bool, y: u32, k: u32) -> u32
    requires low { y < 2 ^ 31 }
    requires few { k ≤ 256 }
    ensures value { result ≡ key_top by_vcpu y k }
    ensures low { result ≤ y + 65000 }
{
    if by_vcpu {
        y + 100 + k / 6 * 1000
    } else {
        y + 100 + k / 4 * 1000
    }
}

// Writes so many of those that have bars, and how many more there are.
fn put_keys_of<K: Sink>(
    sink: &mut K,
    band: &Band,
    palette: &Palette<'_>,
    bars: &[Bar],
    holders: &VcpuSet,
    listed: u32,
    count: u32,
) -> Result<(), WriteFault>
    requires holders { AreHolders holders.now bars.now }
    requires low { band.now.y < 2 ^ 31 }
    requires listed { listed ≤ 24 }
    ensures { Writes (K.state sink.old) (K.state sink.new)
        (keys_of band.now (palette_view palette.now) bars.now listed count) result }
{
    put_entries(sink, band, palette, bars, holders, listed)?;
    put_more(sink, band, listed, count)
}

fn put_entries<K: Sink>(
    sink: &mut K,
    band: &Band,
    palette: &Palette<'_>,
    bars: &[Bar],
    holders: &VcpuSet,
    listed: u32,
) -> Result<(), WriteFault>
    requires holders { AreHolders holders.now bars.now }
    requires low { band.now.y < 2 ^ 31 }
    requires listed { listed ≤ 24 }
    ensures { Writes (K.state sink.old) (K.state sink.new)
        (texts_below (key_at band.now (palette_view palette.now) bars.now listed) (length palette.now.names.now)) result }
{
    let mut place = 0;
    for v in 0..palette.names.len() {
        let held = holders.has(VcpuNo(v as u32));
        put_entry(sink, band, palette, listed, held, place, v)?;
        place = next_place(place, held);
    }
    Ok(())
}

// Writes the key of a number in a place, if it has bars and the place is among those that are listed.
fn put_entry<K: Sink>(
    sink: &mut K,
    band: &Band,
    palette: &Palette<'_>,
    listed: u32,
    held: bool,
    place: u32,
    v: usize,
) -> Result<(), WriteFault>
    requires coloured { v < length palette.now.colours.now }
    requires low { band.now.y < 2 ^ 31 }
    requires listed { listed ≤ 24 }
    ensures { Writes (K.state sink.old) (K.state sink.new)
        (key_entry band.now (palette_view palette.now) listed held place v) result }
{
    if !held {
        return Ok(());
    }
    if place < listed {
        put_mark(
            sink,
            key_x(band.frame.by_vcpu, place),
            key_top(band.frame.by_vcpu, band.y, place),
            palette.colours[v],
            name_at(palette.names, v),
        )
    } else {
        Ok(())
    }
}

fn put_mark<K: Sink>(
    sink: &mut K,
    x: u32,
    top: u32,
    colour: u32,
    name: &[u8],
) -> Result<(), WriteFault>
    requires x { x ≤ 150000 }
    requires top { top < 2 ^ 32 - 1000 }
    ensures { Writes (K.state sink.old) (K.state sink.new) (key_mark x top colour name.now) result }
{
    put_box(sink, colour, x, top)?;
    put_short_name(sink, x + 1200, top + 700, name)
}

// Writes a name, cut in the middle where it is long.
fn put_short_name<K: Sink>(sink: &mut K, x: u32, y: u32, name: &[u8]) -> Result<(), WriteFault>
    ensures { Writes (K.state sink.old) (K.state sink.new)
        (key_name x y (short_front name.now) (short_dots name.now) (short_back name.now)) result }
{
    put_name(
        sink,
        x,
        y,
        short_front(name),
        short_dots(name),
        short_back(name),
    )
}

#[tactic(auto, unfolding(crate::specs::Keys::key_box))]
fn put_box<K: Sink>(sink: &mut K, colour: u32, x: u32, y: u32) -> Result<(), WriteFault>
    ensures { Writes (K.state sink.old) (K.state sink.new) (key_box colour x y) result }
{
    put_at_once(
        sink,
        &[
            TextPiece::Text(b"<path class=\"c"),
            TextPiece::Number(colour),
            TextPiece::Text(b"\" d=\"M"),
            TextPiece::Number(x),
            TextPiece::Text(b" "),
            TextPiece::Number(y),
            TextPiece::Text(b"h900v800h-900z\"/>"),
        ],
    )
}

#[tactic(auto, unfolding(crate::specs::Keys::key_name))]
fn put_name<'a, K: Sink>(
    sink: &mut K,
    x: u32,
    y: u32,
    front: &'a [u8],
    dots: &'a [u8],
    back: &'a [u8],
) -> Result<(), WriteFault>
    ensures { Writes (K.state sink.old) (K.state sink.new) (key_name x y front.now dots.now back.now) result }
{
    put_at_once(
        sink,
        &[
            TextPiece::Text(b"<text x=\""),
            TextPiece::Number(x),
            TextPiece::Text(b"\" y=\""),
            TextPiece::Number(y),
            TextPiece::Text(b"\" font-size=\"800\" class=\"name\">"),
            TextPiece::Text(front),
            TextPiece::Text(dots),
            TextPiece::Text(back),
            TextPiece::Text(b"</text>\n"),
        ],
    )
}

// Writes how many aren't listed, if some aren't.
fn put_more<K: Sink>(sink: &mut K, band: &Band, listed: u32, count: u32) -> Result<(), WriteFault>
    requires low { band.now.y < 2 ^ 31 }
    requires listed { listed ≤ 24 }
    ensures { Writes (K.state sink.old) (K.state sink.new) (more_at band.now listed count) result }
{
    if listed < count {
        let top = key_top(band.frame.by_vcpu, band.y, listed);
        let x = key_x(band.frame.by_vcpu, listed);
        put_more_of(sink, x, top + 700, count - listed)
    } else {
        Ok(())
    }
}

#[tactic(auto, unfolding(crate::specs::Keys::more_text))]
fn put_more_of<K: Sink>(sink: &mut K, x: u32, y: u32, more: u32) -> Result<(), WriteFault>
    ensures { Writes (K.state sink.old) (K.state sink.new) (more_text x y more) result }
{
    put_at_once(
        sink,
        &[
            TextPiece::Text(b"<text x=\""),
            TextPiece::Number(x),
            TextPiece::Text(b"\" y=\""),
            TextPiece::Number(y),
            TextPiece::Text(b"\" font-size=\"800\" class=\"dim\">"),
            TextPiece::Number(more),
            TextPiece::Text(b" more</text>\n"),
        ],
    )
}
