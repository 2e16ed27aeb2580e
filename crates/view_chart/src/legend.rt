ghost use Rattle.std.specs.Prelude.{◌≡◌, ◌<◌, ◌≤◌, ◌^◌, length, min, slice_get, slice_index};
ghost use Rattle.tab_core.specs.declared.TheConstants.{MAX_VCPUS};
ghost use Rattle.tab_io.specs.Sinks.{Writes};
ghost use Rattle.tab_words.specs.Texts.{texts_below};
ghost use Rattle.vcpu_names.specs.Names.{name_at};
ghost use Rattle.view_svg.specs.Drawings.{palette_view};
ghost use Rattle.view_svg.specs.Frames.{foot_of};
ghost use Rattle.view_svg.specs.Keys.{count_below};
ghost use Rattle.view_svg.specs.Marks.{short_back, short_dots, short_front};
ghost use Rattle.view_chart.specs.Legends.{column_of, entry_at, head_at, head_from, legend_entry, legend_entry_at, legend_head, legend_name, legend_row, legend_task, legend_text, listed_in, listed_word, swatch, task_cells, task_entry, task_head, task_heads};

use tab_core::{Name, VcpuNo};
use tab_io::{Sink, WriteFault};
use tab_words::{TextPiece, put_pieces};
use view_doc::Task;
use view_lanes::{Frame, Lane, name_at, per_mille, tenths_ms};
use view_svg::{
    Palette, count_below, foot_of, holders_in, next_place, short_back, short_dots, short_front,
};

// Writes the list of the keys that have a box on one of the lanes, below them.
pub(crate) fn put_legend<K: Sink>(
    sink: &mut K,
    frame: &Frame,
    palette: &Palette<'_>,
    lanes: &[Lane],
) -> Result<(), WriteFault>
    requires { length lanes.now ≤ MAX_VCPUS }
    ensures { Writes (K.state sink.old) (K.state sink.new)
        (legend_text frame.now (foot_of (length lanes.now)) (palette_view palette.now) lanes.now) result }
{
    let foot = foot_of(lanes.len() as u32);
    put_legend_at(sink, frame, foot, palette, lanes)
}

fn put_legend_at<K: Sink>(
    sink: &mut K,
    frame: &Frame,
    foot: u32,
    palette: &Palette<'_>,
    lanes: &[Lane],
) -> Result<(), WriteFault>
    requires { foot < 2 ^ 31 }
    ensures { Writes (K.state sink.old) (K.state sink.new)
        (legend_text frame.now foot (palette_view palette.now) lanes.now) result }
{
    put_heads(sink, frame, foot, palette, lanes)?;
    put_entries(sink, frame.tick, foot, palette, lanes)
}

// How many of the names have a box on one of the lanes.
pub(crate) fn listed_in(lanes: &[Lane], names: &[Name]) -> u32
    requires { length names.now ≤ MAX_VCPUS }
    ensures value { result ≡ listed_in lanes.now names.now }
    ensures few { result ≤ MAX_VCPUS }
{
    count_below(&holders_in(lanes), names.len())
}

// Writes the heads of the columns.
fn put_heads<K: Sink>(
    sink: &mut K,
    frame: &Frame,
    foot: u32,
    palette: &Palette<'_>,
    lanes: &[Lane],
) -> Result<(), WriteFault>
    requires { foot < 2 ^ 31 }
    ensures { Writes (K.state sink.old) (K.state sink.new)
        (texts_below (head_at frame.now foot palette.now.tasks.now)
        (min (listed_in lanes.now palette.now.names.now) 4)) result }
{
    let count = listed_in(lanes, palette.names).min(4);
    put_some_heads(sink, frame, foot, palette.tasks, count)
}

// Writes the heads of so many columns.
fn put_some_heads<K: Sink>(
    sink: &mut K,
    frame: &Frame,
    foot: u32,
    tasks: &[Task],
    count: u32,
) -> Result<(), WriteFault>
    requires low { foot < 2 ^ 31 }
    ensures { Writes (K.state sink.old) (K.state sink.new)
        (texts_below (head_at frame.now foot tasks.now) count) result }
{
    for k in 0..count {
        put_head_at(sink, frame, foot, tasks, k)?;
    }
    Ok(())
}

fn put_head_at<K: Sink>(
    sink: &mut K,
    frame: &Frame,
    foot: u32,
    tasks: &[Task],
    k: u32,
) -> Result<(), WriteFault>
    requires low { foot < 2 ^ 31 }
    ensures { Writes (K.state sink.old) (K.state sink.new) (head_at frame.now foot tasks.now k) result }
{
    put_head_from(
        sink,
        frame.by_vcpu,
        column_of(k),
        foot + 3800,
        tasks,
        k as usize,
    )
}

fn put_head_from<K: Sink>(
    sink: &mut K,
    by_vcpu: bool,
    x: u32,
    y: u32,
    tasks: &[Task],
    v: usize,
) -> Result<(), WriteFault>
    requires { x ≤ 115000 }
    ensures { Writes (K.state sink.old) (K.state sink.new)
        (head_from by_vcpu x y (slice_get tasks.now v)) result }
{
    put_listed(sink, by_vcpu, x, y)?;
    put_task_heads(sink, x, y, tasks, v)
}

fn put_listed<K: Sink>(sink: &mut K, by_vcpu: bool, x: u32, y: u32) -> Result<(), WriteFault>
    ensures { Writes (K.state sink.old) (K.state sink.new)
        (legend_head x y (listed_word by_vcpu)) result }
{
    put_legend_head(sink, x, y, listed_word(by_vcpu))
}

// What is listed.
fn listed_word(by_vcpu: bool) -> &'static [u8]
    ensures { result.now ≡ listed_word by_vcpu }
{
    if by_vcpu { b"core" } else { b"vCPU" }
}

#[tactic(auto, unfolding(crate::specs::Legends::legend_head))]
fn put_legend_head<K: Sink>(sink: &mut K, x: u32, y: u32, word: &[u8]) -> Result<(), WriteFault>
    ensures { Writes (K.state sink.old) (K.state sink.new) (legend_head x y word.now) result }
{
    put_pieces(
        sink,
        &[
            TextPiece::Text(b"<text x=\""),
            TextPiece::Number(x),
            TextPiece::Text(b"\" y=\""),
            TextPiece::Number(y),
            TextPiece::Text(b"\" font-size=\"1000\" class=\"label\">"),
            TextPiece::Text(word),
            TextPiece::Text(b"</text>\n"),
        ],
    )
}

// Writes what is said of each, where there are reservations.
fn put_task_heads<K: Sink>(
    sink: &mut K,
    x: u32,
    y: u32,
    tasks: &[Task],
    v: usize,
) -> Result<(), WriteFault>
    requires { x ≤ 115000 }
    ensures { Writes (K.state sink.old) (K.state sink.new)
        (task_heads x y (slice_get tasks.now v)) result }
{
    match tasks.get(v) {
        Some(_) => put_task_head(sink, x + 19_000, x + 25_000, y),
        None => Ok(()),
    }
}

#[tactic(auto, unfolding(crate::specs::Legends::task_head))]
fn put_task_head<K: Sink>(sink: &mut K, share: u32, period: u32, y: u32) -> Result<(), WriteFault>
    ensures { Writes (K.state sink.old) (K.state sink.new) (task_head share period y) result }
{
    put_pieces(
        sink,
        &[
            TextPiece::Text(b"<g font-size=\"900\" class=\"dim\" text-anchor=\"end\"><text x=\""),
            TextPiece::Number(share),
            TextPiece::Text(b"\" y=\""),
            TextPiece::Number(y),
            TextPiece::Text(b"\">share</text><text x=\""),
            TextPiece::Number(period),
            TextPiece::Text(b"\" y=\""),
            TextPiece::Number(y),
            TextPiece::Text(b"\">period</text></g>\n"),
        ],
    )
}

// Where the column of a place begins.
fn column_of(k: u32) -> u32
    ensures value { result ≡ column_of k }
    ensures small { result ≤ 115000 }
{
    4000 + k % 4 * 36_000
}

// The line of a place's row.
fn row_of(foot: u32, k: u32) -> u32
    requires low { foot < 2 ^ 31 }
    requires few { k < MAX_VCPUS }
    ensures value { result ≡ legend_row foot k }
    ensures low { 5500 ≤ result }
{
    foot + 5500 + k / 4 * 1400
}

// Writes the rows.
fn put_entries<K: Sink>(
    sink: &mut K,
    tick: u16,
    foot: u32,
    palette: &Palette<'_>,
    lanes: &[Lane],
) -> Result<(), WriteFault>
    requires { foot < 2 ^ 31 }
    ensures { Writes (K.state sink.old) (K.state sink.new)
        (texts_below (legend_entry_at tick foot (palette_view palette.now) lanes.now) (length palette.now.names.now))
        result }
{
    let holders = holders_in(lanes);
    let mut place = 0;
    for v in 0..palette.names.len() {
        let held = holders.has(VcpuNo(v as u32));
        put_entry(sink, tick, foot, palette, held, place, v)?;
        place = next_place(place, held);
    }
    Ok(())
}

// Writes what is said of a key in a place, if it has a box.
fn put_entry<K: Sink>(
    sink: &mut K,
    tick: u16,
    foot: u32,
    palette: &Palette<'_>,
    held: bool,
    place: u32,
    v: usize,
) -> Result<(), WriteFault>
    requires low { foot < 2 ^ 31 }
    requires few { place < MAX_VCPUS }
    requires coloured { v < length palette.now.colours.now }
    ensures { Writes (K.state sink.old) (K.state sink.new)
        (legend_entry tick foot (palette_view palette.now) held place v) result }
{
    if held {
        put_entry_at(
            sink,
            tick,
            column_of(place),
            row_of(foot, place),
            palette,
            v,
        )
    } else {
        Ok(())
    }
}

fn put_entry_at<K: Sink>(
    sink: &mut K,
    tick: u16,
    x: u32,
    y: u32,
    palette: &Palette<'_>,
    v: usize,
) -> Result<(), WriteFault>
    requires x { x ≤ 115000 }
    requires y { 5500 ≤ y }
    requires coloured { v < length palette.now.colours.now }
    ensures { Writes (K.state sink.old) (K.state sink.new)
        (entry_at tick x y (slice_index palette.now.colours.now v) (name_at palette.now.names.now v)
        (slice_get palette.now.tasks.now v)) result }
{
    put_tone(sink, palette.colours, v, x, y - 850)?;
    put_name(sink, x + 1300, y, palette.names, v)?;
    put_task(sink, tick, x, y, palette.tasks, v)
}

// Writes the box of a key's colour.
fn put_tone<K: Sink>(
    sink: &mut K,
    colours: &[u32],
    v: usize,
    x: u32,
    y: u32,
) -> Result<(), WriteFault>
    requires { v < length colours.now }
    ensures { Writes (K.state sink.old) (K.state sink.new) (swatch (slice_index colours.now v) x y) result }
{
    put_swatch(sink, colours[v], x, y)
}

// Writes a key's name.
fn put_name<K: Sink>(
    sink: &mut K,
    x: u32,
    y: u32,
    names: &[Name],
    v: usize,
) -> Result<(), WriteFault>
    ensures { Writes (K.state sink.old) (K.state sink.new)
        (legend_name x y (short_front (name_at names.now v)) (short_dots (name_at names.now v))
        (short_back (name_at names.now v))) result }
{
    put_legend_name(sink, x, y, name_at(names, v))
}

#[tactic(auto, unfolding(crate::specs::Legends::swatch))]
fn put_swatch<K: Sink>(sink: &mut K, colour: u32, x: u32, y: u32) -> Result<(), WriteFault>
    ensures { Writes (K.state sink.old) (K.state sink.new) (swatch colour x y) result }
{
    put_pieces(
        sink,
        &[
            TextPiece::Text(b"<path class=\"c"),
            TextPiece::Number(colour),
            TextPiece::Text(b"\" d=\"M"),
            TextPiece::Number(x),
            TextPiece::Text(b" "),
            TextPiece::Number(y),
            TextPiece::Text(b"h1000v900h-1000z\"/>"),
        ],
    )
}

fn put_legend_name<K: Sink>(sink: &mut K, x: u32, y: u32, name: &[u8]) -> Result<(), WriteFault>
    ensures { Writes (K.state sink.old) (K.state sink.new)
        (legend_name x y (short_front name.now) (short_dots name.now) (short_back name.now)) result }
{
    put_short_name(
        sink,
        x,
        y,
        short_front(name),
        short_dots(name),
        short_back(name),
    )
}

#[tactic(auto, unfolding(crate::specs::Legends::legend_name))]
fn put_short_name<'a, K: Sink>(
    sink: &mut K,
    x: u32,
    y: u32,
    front: &'a [u8],
    dots: &'a [u8],
    back: &'a [u8],
) -> Result<(), WriteFault>
    ensures { Writes (K.state sink.old) (K.state sink.new)
        (legend_name x y front.now dots.now back.now) result }
{
    put_pieces(
        sink,
        &[
            TextPiece::Text(b"<text x=\""),
            TextPiece::Number(x),
            TextPiece::Text(b"\" y=\""),
            TextPiece::Number(y),
            TextPiece::Text(b"\" font-size=\"900\" class=\"name\">"),
            TextPiece::Text(front),
            TextPiece::Text(dots),
            TextPiece::Text(back),
            TextPiece::Text(b"</text>\n"),
        ],
    )
}

// Writes what a vCPU has, if it has a reservation.
fn put_task<K: Sink>(
    sink: &mut K,
    tick: u16,
    x: u32,
    y: u32,
    tasks: &[Task],
    v: usize,
) -> Result<(), WriteFault>
    requires { x ≤ 115000 }
    ensures { Writes (K.state sink.old) (K.state sink.new)
        (task_entry tick x y (slice_get tasks.now v)) result }
{
    match tasks.get(v) {
        Some(task) => put_task_of(sink, tick, x, y, task),
        None => Ok(()),
    }
}

fn put_task_of<K: Sink>(
    sink: &mut K,
    tick: u16,
    x: u32,
    y: u32,
    task: &Task,
) -> Result<(), WriteFault>
    requires { x ≤ 115000 }
    ensures { Writes (K.state sink.old) (K.state sink.new) (task_cells tick x y task.now) result }
{
    let part = per_mille(u64::from(task.cost), u64::from(task.period));
    put_legend_task(
        sink,
        x + 19_000,
        x + 25_000,
        y,
        part,
        tenths_ms(tick, task.period),
    )
}

#[tactic(auto, unfolding(crate::specs::Legends::legend_task))]
fn put_legend_task<K: Sink>(
    sink: &mut K,
    x: u32,
    far: u32,
    y: u32,
    part: u64,
    period: u64,
) -> Result<(), WriteFault>
    ensures { Writes (K.state sink.old) (K.state sink.new) (legend_task x far y part period) result }
{
    put_pieces(
        sink,
        &[
            TextPiece::Text(b"<g font-size=\"900\" class=\"dim\" text-anchor=\"end\"><text x=\""),
            TextPiece::Number(x),
            TextPiece::Text(b"\" y=\""),
            TextPiece::Number(y),
            TextPiece::Text(b"\">"),
            TextPiece::Wide(part / 10),
            TextPiece::Text(b"."),
            TextPiece::Wide(part % 10),
            TextPiece::Text(b" %</text><text x=\""),
            TextPiece::Number(far),
            TextPiece::Text(b"\" y=\""),
            TextPiece::Number(y),
            TextPiece::Text(b"\">"),
            TextPiece::Wide(period / 10),
            TextPiece::Text(b"."),
            TextPiece::Wide(period % 10),
            TextPiece::Text(b" ms</text></g>\n"),
        ],
    )
}
