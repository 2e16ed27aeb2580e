ghost use Rattle.std.specs.Prelude.{◌≡◌, ◌<◌, ◌≤◌, ◌+◌, ◌-◌, ◌^◌, ◌==◌, flat_map, length, slice_index};
ghost use Rattle.std.specs.List.{list_any};
ghost use Rattle.tab_io.specs.Sinks.{Writes};
ghost use Rattle.tab_words.specs.Texts.{texts_below};
ghost use Rattle.view_svg.specs.Drawings.{IsInPicture, palette_view};
ghost use Rattle.view_svg.specs.Frames.{letters_of};
ghost use Rattle.view_svg.specs.Lanes.{bar_box, bar_cut, bar_name, bars_text, box_marks_text, box_of, cut_line, is_bar_of, key_note, line_in, name_text, names_begin, path_begin, path_end, seams_text, titled_path, top_in, vcpu_path, vcpu_paths, way_class, way_word, width_of};

use crate::drawing::{Band, Palette};
use crate::gather::put_at_once;
use crate::holders::holders_of;
use crate::joined::{boxes_of, seams_of};
use crate::marks::put_box;
use crate::paths::{put_path_begin, put_path_end};
use crate::places::{letters_of, x_at};
use tab_core::{Name, VcpuNo};
use tab_io::{Sink, WriteFault, write_all};
use tab_words::{TextPiece, put_pieces};
use view_lanes::{Bar, Frame, name_at};

// Writes the bars of a lane, of which there are at most 342, as boxes.
pub(crate) fn put_bars<K: Sink>(
    sink: &mut K,
    band: &Band,
    palette: &Palette<'_>,
    bars: &[Bar],
) -> Result<(), WriteFault>
    requires band { IsInPicture band.now }
    requires boxes { length bars.now ≤ 342 }
    ensures { Writes (K.state sink.old) (K.state sink.new)
        (bars_text band.now (palette_view palette.now) bars.now) result }
{
    let joined = boxes_of(&band.frame, bars);
    let boxes = joined.as_slice();
    put_all_paths(sink, band, palette, boxes)?;
    let seams = seams_of(&band.frame, bars);
    put_seams(sink, band, seams.as_slice())?;
    put_box_marks(sink, band, palette.names, boxes)
}

// Writes the paths of all vCPUs.
fn put_all_paths<K: Sink>(
    sink: &mut K,
    band: &Band,
    palette: &Palette<'_>,
    bars: &[Bar],
) -> Result<(), WriteFault>
    requires band { IsInPicture band.now }
    ensures { Writes (K.state sink.old) (K.state sink.new)
        (texts_below (vcpu_paths band.now (palette_view palette.now) bars.now) (length palette.now.names.now))
        result }
{
    let holders = holders_of(bars);
    for v in 0..palette.names.len() {
        let held = holders.has(VcpuNo(v as u32));
        put_paths(sink, band, palette, bars, held, v)?;
    }
    Ok(())
}

// Writes the paths of a vCPU, if it has a bar.
fn put_paths<K: Sink>(
    sink: &mut K,
    band: &Band,
    palette: &Palette<'_>,
    bars: &[Bar],
    held: bool,
    v: usize,
) -> Result<(), WriteFault>
    requires few { v < length palette.now.colours.now }
    requires held { held ≡ list_any (λ bar. bar.key == v) bars.now }
    requires band { IsInPicture band.now }
    ensures { Writes (K.state sink.old) (K.state sink.new)
        (vcpu_paths band.now (palette_view palette.now) bars.now v) result }
{
    if !held {
        return Ok(());
    }
    put_path(sink, band, palette, bars, false, v)?;
    put_path(sink, band, palette, bars, true, v)
}

// Writes a vCPU's path of one way of running, if it has a bar.
fn put_path<K: Sink>(
    sink: &mut K,
    band: &Band,
    palette: &Palette<'_>,
    bars: &[Bar],
    shared: bool,
    v: usize,
) -> Result<(), WriteFault>
    requires few { v < length palette.now.colours.now }
    requires band { IsInPicture band.now }
    ensures { Writes (K.state sink.old) (K.state sink.new)
        (vcpu_path band.now (palette_view palette.now) bars.now shared v) result }
{
    if has_bar(bars, v, shared) {
        put_titled(sink, band, palette, bars, shared, v)
    } else {
        Ok(())
    }
}

// Writes a vCPU's path of one way of running.
fn put_titled<K: Sink>(
    sink: &mut K,
    band: &Band,
    palette: &Palette<'_>,
    bars: &[Bar],
    shared: bool,
    v: usize,
) -> Result<(), WriteFault>
    requires few { v < length palette.now.colours.now }
    requires band { IsInPicture band.now }
    ensures { Writes (K.state sink.old) (K.state sink.new)
        (titled_path (slice_index palette.now.colours.now v) (way_class shared)
        (flat_map (box_of band.now v shared) bars.now)
        (key_note band.now.frame (palette_view palette.now) v) (way_word shared)) result }
{
    put_way_begin(sink, palette, v, shared)?;
    put_boxes(sink, band, bars, shared, v)?;
    put_way_end(sink, &band.frame, palette, v, shared)
}

fn put_way_begin<K: Sink>(
    sink: &mut K,
    palette: &Palette<'_>,
    v: usize,
    shared: bool,
) -> Result<(), WriteFault>
    requires { v < length palette.now.colours.now }
    ensures { Writes (K.state sink.old) (K.state sink.new)
        (path_begin (slice_index palette.now.colours.now v) (way_class shared)) result }
{
    put_path_begin(sink, palette, v, way_class(shared))
}

fn put_way_end<K: Sink>(
    sink: &mut K,
    frame: &Frame,
    palette: &Palette<'_>,
    v: usize,
    shared: bool,
) -> Result<(), WriteFault>
    ensures { Writes (K.state sink.old) (K.state sink.new)
        (path_end (key_note frame.now (palette_view palette.now) v) (way_word shared)) result }
{
    put_path_end(sink, frame, palette, v, way_word(shared))
}

// Whether a bar is the vCPU's, and run in this way.
fn is_of(bar: &Bar, v: usize, shared: bool) -> bool
    ensures { result ≡ is_bar_of v shared bar.now }
{
    let so = if shared { bar.shared } else { !bar.shared };
    usize::from(bar.key) == v && so
}

// Whether one of the bars is.
fn has_bar(bars: &[Bar], v: usize, shared: bool) -> bool
    ensures { result ≡ list_any (is_bar_of v shared) bars.now }
{
    for bar in bars {
        if is_of(bar, v, shared) {
            return true;
        }
    }
    false
}

fn way_class(shared: bool) -> &'static [u8]
    ensures { result.now ≡ way_class shared }
{
    if shared { b" sh" } else { b"" }
}

fn way_word(shared: bool) -> &'static [u8]
    ensures { result.now ≡ way_word shared }
{
    if shared { b", shared" } else { b"" }
}

// Writes the boxes of a vCPU's bars.
fn put_boxes<K: Sink>(
    sink: &mut K,
    band: &Band,
    bars: &[Bar],
    shared: bool,
    v: usize,
) -> Result<(), WriteFault>
    requires band { IsInPicture band.now }
    ensures { Writes (K.state sink.old) (K.state sink.new)
        (flat_map (box_of band.now v shared) bars.now) result }
{
    for bar in bars {
        put_box_of(sink, band, bar, shared, v)?;
    }
    Ok(())
}

fn put_box_of<K: Sink>(
    sink: &mut K,
    band: &Band,
    bar: &Bar,
    shared: bool,
    v: usize,
) -> Result<(), WriteFault>
    requires band { IsInPicture band.now }
    ensures { Writes (K.state sink.old) (K.state sink.new)
        (box_of band.now v shared bar.now) result }
{
    if is_of(bar, v, shared) {
        put_bar(sink, band, bar)
    } else {
        Ok(())
    }
}

fn put_bar<K: Sink>(sink: &mut K, band: &Band, bar: &Bar) -> Result<(), WriteFault>
    requires band { IsInPicture band.now }
    ensures { Writes (K.state sink.old) (K.state sink.new) (bar_box band.now bar.now) result }
{
    put_box(
        sink,
        x_at(&band.frame, bar.from),
        u64::from(top_in(band.y, band.high, bar.shared)),
        x_at(&band.frame, bar.end),
        u64::from(band.y + band.high),
    )
}

// Where a bar begins in its lane's height.
fn top_in(y: u32, high: u32, shared: bool) -> u32
    requires low { y < 2 ^ 31 }
    requires high { high ≤ 4000 }
    ensures value { result ≡ top_in y high shared }
    ensures above { y ≤ result }
    ensures below { result ≤ y + high }
{
    if shared { y + high * 2 / 5 } else { y }
}

// Writes thin lines where bars begin in a box, if there are such bars.
fn put_seams<K: Sink>(sink: &mut K, band: &Band, seams: &[Bar]) -> Result<(), WriteFault>
    ensures { Writes (K.state sink.old) (K.state sink.new) (seams_text band.now seams.now) result }
{
    if seams.is_empty() {
        return Ok(());
    }
    write_all(sink, b"<path class=\"seam\" d=\"")?;
    put_cuts(sink, band, seams)?;
    write_all(sink, b"\"/>\n")
}

// Writes lines where boxes begin, and their names.
fn put_box_marks<K: Sink>(
    sink: &mut K,
    band: &Band,
    names: &[Name],
    boxes: &[Bar],
) -> Result<(), WriteFault>
    requires band { IsInPicture band.now }
    ensures { Writes (K.state sink.old) (K.state sink.new)
        (box_marks_text band.now names.now boxes.now) result }
{
    write_all(sink, b"<path class=\"cut\" d=\"")?;
    put_cuts(sink, band, boxes)?;
    put_names_begin(sink, band.high)?;
    put_names(sink, band, names, boxes)?;
    write_all(sink, b"</g>\n")
}

// Writes a line where a bar begins, for each that is wide enough.
fn put_cuts<K: Sink>(sink: &mut K, band: &Band, bars: &[Bar]) -> Result<(), WriteFault>
    ensures { Writes (K.state sink.old) (K.state sink.new) (flat_map (bar_cut band.now) bars.now) result }
{
    for bar in bars {
        put_cut(sink, band, bar)?;
    }
    Ok(())
}

fn put_cut<K: Sink>(sink: &mut K, band: &Band, bar: &Bar) -> Result<(), WriteFault>
    ensures { Writes (K.state sink.old) (K.state sink.new) (bar_cut band.now bar.now) result }
{
    let x = x_at(&band.frame, bar.from);
    if x + 300 <= x_at(&band.frame, bar.end) {
        put_cut_line(sink, x, band.y, band.high)
    } else {
        Ok(())
    }
}

#[tactic(auto, unfolding(crate::specs::Lanes::cut_line))]
fn put_cut_line<K: Sink>(sink: &mut K, x: u64, y: u32, high: u32) -> Result<(), WriteFault>
    ensures { Writes (K.state sink.old) (K.state sink.new) (cut_line x y high) result }
{
    put_at_once(
        sink,
        &[
            TextPiece::Text(b"M"),
            TextPiece::Wide(x),
            TextPiece::Text(b" "),
            TextPiece::Number(y),
            TextPiece::Text(b"V"),
            TextPiece::Wide(u64::from(y) + u64::from(high)),
        ],
    )
}

// Writes where the names begin.
fn put_names_begin<K: Sink>(sink: &mut K, high: u32) -> Result<(), WriteFault>
    ensures { Writes (K.state sink.old) (K.state sink.new) (names_begin (letters_of high)) result }
{
    put_names_of(sink, letters_of(high))
}

#[tactic(auto, unfolding(crate::specs::Lanes::names_begin))]
fn put_names_of<K: Sink>(sink: &mut K, letters: u32) -> Result<(), WriteFault>
    ensures { Writes (K.state sink.old) (K.state sink.new) (names_begin letters) result }
{
    put_pieces(
        sink,
        &[
            TextPiece::Text(b"\"/>\n<g class=\"name on\" text-anchor=\"middle\" font-size=\""),
            TextPiece::Number(letters),
            TextPiece::Text(b"\">\n"),
        ],
    )
}

// Writes the names that fit.
fn put_names<K: Sink>(
    sink: &mut K,
    band: &Band,
    names: &[Name],
    bars: &[Bar],
) -> Result<(), WriteFault>
    requires band { IsInPicture band.now }
    ensures { Writes (K.state sink.old) (K.state sink.new)
        (flat_map (bar_name band.now names.now) bars.now) result }
{
    for bar in bars {
        put_bar_name(sink, band, names, bar)?;
    }
    Ok(())
}

fn put_bar_name<K: Sink>(
    sink: &mut K,
    band: &Band,
    names: &[Name],
    bar: &Bar,
) -> Result<(), WriteFault>
    requires band { IsInPicture band.now }
    ensures { Writes (K.state sink.old) (K.state sink.new) (bar_name band.now names.now bar.now) result }
{
    let name = name_at(names, usize::from(bar.key));
    let letters = letters_of(band.high);
    let x0 = x_at(&band.frame, bar.from);
    let x1 = x_at(&band.frame, bar.end);
    if x0 + width_of(letters, name) <= x1 {
        let top = top_in(band.y, band.high, bar.shared);
        put_name(
            sink,
            (x0 + x1) / 2,
            line_in(top, band.y + band.high - top, letters),
            name,
        )
    } else {
        Ok(())
    }
}

// How wide a name is, with a margin.
fn width_of(letters: u32, name: &[u8]) -> u64
    requires short { length name.now ≤ 32 }
    requires small { letters ≤ 1000 }
    ensures value { result ≡ width_of letters name.now }
    ensures small { result < 2 ^ 32 }
{
    name.len() as u64 * u64::from(letters * 61 / 100) + 500
}

// The line on which letters are in the middle of what is so high.
pub(crate) fn line_in(y: u32, high: u32, letters: u32) -> u32
    requires low { y < 2 ^ 32 - 10000 }
    requires high { high ≤ 4000 }
    requires small { letters ≤ 1000 }
    ensures { result ≡ line_in y high letters }
{
    y + high / 2 + letters * 35 / 100
}

#[tactic(auto, unfolding(crate::specs::Lanes::name_text))]
fn put_name<K: Sink>(sink: &mut K, x: u64, y: u32, name: &[u8]) -> Result<(), WriteFault>
    ensures { Writes (K.state sink.old) (K.state sink.new) (name_text x y name.now) result }
{
    put_at_once(
        sink,
        &[
            TextPiece::Text(b"<text x=\""),
            TextPiece::Wide(x),
            TextPiece::Text(b"\" y=\""),
            TextPiece::Number(y),
            TextPiece::Text(b"\">"),
            TextPiece::Text(name),
            TextPiece::Text(b"</text>\n"),
        ],
    )
}
