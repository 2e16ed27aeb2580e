ghost use Rattle.std.specs.Prelude.{◌≡◌, ◌+◌, ◌<◌, ◌≤◌, IfOk, IsErrOf, Ok, Err, [], ◌∷◌, length, true};
ghost use Rattle.tab_core.specs.declared.TheConstants.{MAX_CORES, MAX_VCPUS};
ghost use Rattle.tab_io.specs.Sinks.{Writes};
ghost use Rattle.tab_words.specs.Texts.{texts_below};
ghost use Rattle.vcpu_names.specs.Names.{name_at as name_of};
ghost use Rattle.view_lanes.specs.Columns.{edge_of};
ghost use Rattle.view_lanes.specs.Shown.{shows_nothing};
ghost use Rattle.view_lanes.specs.Titles.{plural};
ghost use Rattle.view_text.specs.TextCharts.{by_core, cell_at, gap_before, gap_behind, key_gap, lane_line, lane_line_at, lanes_text, letter_key_at, letter_key_name, letter_of, lettered, line_begin, line_end, more_line, more_vcpus_text, text_chart, title_lines, view_text};
ghost use Rattle.view_lanes.specs.declared.fault.ChartFault.TheVariants as fault;

use crate::letters::{letter_at, letter_of};
use crate::options::TextOptions;
use crate::window::{first_behind, first_from, rise};
use std::alloc::Global;
use tab_core::Name;
use tab_io::{Sink, WriteFault, write_all};
use tab_words::{TextPiece, put_pieces};
use view_doc::View;
use view_lanes::{
    Bar, ChartFault, ChartOptions, Frame, Head, Lane, edge_of, frame_of, head_in, held_in,
    lanes_from, lanes_of, name_at, per_mille, put_sub, put_title, shown_in, shows_nothing, span_of,
};

/// Draws a view of at most 32 cores and 256 vCPUs as a text: a line for each core, in it a letter for each
/// column, and below the letters' vCPUs, and how many have no letter of their own.
///
/// A column's letter is that of the vCPU that has the most of its ticks, a colon where nobody had more, and a dot
/// where no vCPU had any. A fault of writing leaves a prefix of the text in the sink; nothing is written where there
/// is no memory, or where no tick or no core is shown. Nothing is settled.
pub fn write_text_chart<K: Sink>(
    alloc: Global,
    sink: &mut K,
    view: &View,
    options: &TextOptions,
) -> Result<(), ChartFault>
    requires cores { view.now.cores ≤ MAX_CORES }
    requires vcpus { length view.now.names.items ≤ MAX_VCPUS }
    requires some { 0 < options.now.columns }
    requires few { options.now.columns ≤ 8000 }
    ensures ok { IfOk result (λ u. Writes (K.state sink.old) (K.state sink.new)
        (text_chart options.now view.now) (Ok u)) }
    ensures broken { IsErrOf result fault.Write → Writes {U = Unit {0}} (K.state sink.old) (K.state sink.new)
        (text_chart options.now view.now) (Err (record {})) }
    ensures nothing { IsErrOf result fault.Nothing → shows_nothing (by_core options.now) view.now ≡ true }
    ensures nothing_due { shows_nothing (by_core options.now) view.now ≡ true → IsErrOf result fault.Nothing }
    ensures unwritten { IsErrOf result fault.NoMemory → sink.new ≡ sink.old }
    ensures unwritten_nothing { IsErrOf result fault.Nothing → sink.new ≡ sink.old }
{
    let chosen = by_core(options);
    if shows_nothing(view, &chosen) {
        return Err(ChartFault::Nothing);
    }
    let count = lanes_of(view, &chosen);
    let frame = frame_of(view, &chosen);
    let Ok(lanes) = lanes_from(alloc, &frame, shown_in(view), options.first, count) else {
        return Err(ChartFault::NoMemory);
    };
    match put_view(sink, options, &frame, view, &lanes) {
        Ok(()) => Ok(()),
        Err(WriteFault) => Err(ChartFault::Write),
    }
}

// The lanes and ticks of the text, as those of a picture.
pub(crate) fn by_core(options: &TextOptions) -> ChartOptions
    ensures { result ≡ by_core options.now }
{
    ChartOptions {
        by_vcpu: false,
        first: options.first,
        last: options.last,
        from: options.from,
        to: options.to,
        width: options.columns,
        tick_ns: options.tick_ns,
        picture: 0,
    }
}

// Writes the text of these lanes of a view.
fn put_view<K: Sink>(
    sink: &mut K,
    options: &TextOptions,
    frame: &Frame,
    view: &View,
    lanes: &[Lane],
) -> Result<(), WriteFault>
    requires lanes { length lanes.now ≤ MAX_VCPUS }
    requires vcpus { length view.now.names.items ≤ MAX_VCPUS }
    requires some { 0 < options.now.columns }
    requires few { options.now.columns ≤ 8000 }
    ensures { Writes (K.state sink.old) (K.state sink.new)
        (view_text options.now frame.now view.now lanes.now) result }
{
    let head = head_in(frame, view, lanes);
    put_text(sink, options, frame, &head, &view.names, lanes)
}

// Writes the text of these lanes, each a core's, of vCPUs of these names, below what the head says.
fn put_text<K: Sink>(
    sink: &mut K,
    options: &TextOptions,
    frame: &Frame,
    head: &Head,
    names: &[Name],
    lanes: &[Lane],
) -> Result<(), WriteFault>
    requires lanes { length lanes.now ≤ MAX_VCPUS }
    requires vcpus { length names.now ≤ MAX_VCPUS }
    requires some { 0 < options.now.columns }
    requires few { options.now.columns ≤ 8000 }
    ensures { Writes (K.state sink.old) (K.state sink.new)
        (lanes_text options.now frame.now head.now names.now lanes.now) result }
{
    put_head_lines(sink, head)?;
    put_lines(
        sink,
        frame,
        options.columns,
        names.len(),
        options.first,
        lanes,
    )?;
    put_keys(sink, names)?;
    put_more(sink, names.len())
}

fn put_head_lines<K: Sink>(sink: &mut K, head: &Head) -> Result<(), WriteFault>
    ensures { Writes (K.state sink.old) (K.state sink.new) (title_lines head.now) result }
{
    put_title(sink, head)?;
    write_all(sink, b"\n")?;
    put_sub(sink, head)?;
    write_all(sink, b"\n")
}

// Writes a line for each lane.
pub(crate) fn put_lines<K: Sink>(
    sink: &mut K,
    frame: &Frame,
    columns: u32,
    vcpus: usize,
    first: u32,
    lanes: &[Lane],
) -> Result<(), WriteFault>
    requires lanes { length lanes.now ≤ MAX_VCPUS }
    requires vcpus { vcpus ≤ MAX_VCPUS }
    requires some { 0 < columns }
    requires few { columns ≤ 8000 }
    ensures { Writes (K.state sink.old) (K.state sink.new)
        (texts_below (lane_line_at frame.now columns vcpus first lanes.now) (length lanes.now)) result }
{
    for i in 0..lanes.len() {
        put_line_at(sink, frame, columns, vcpus, first, lanes, i)?;
    }
    Ok(())
}

fn put_line_at<K: Sink>(
    sink: &mut K,
    frame: &Frame,
    columns: u32,
    vcpus: usize,
    first: u32,
    lanes: &[Lane],
    i: usize,
) -> Result<(), WriteFault>
    requires lanes { length lanes.now ≤ MAX_VCPUS }
    requires there { i < length lanes.now }
    requires vcpus { vcpus ≤ MAX_VCPUS }
    requires some { 0 < columns }
    requires few { columns ≤ 8000 }
    ensures { Writes (K.state sink.old) (K.state sink.new)
        (lane_line_at frame.now columns vcpus first lanes.now i) result }
{
    let bars = lanes[i].bars();
    let core = u64::from(first) + i as u64;
    let share = per_mille(held_in(frame, bars), u64::from(span_of(frame)));
    put_line_of(sink, frame, columns, vcpus, core, share, bars)
}

// Writes the line of a core.
fn put_line_of<K: Sink>(
    sink: &mut K,
    frame: &Frame,
    columns: u32,
    vcpus: usize,
    core: u64,
    share: u64,
    bars: &[Bar],
) -> Result<(), WriteFault>
    requires vcpus { vcpus ≤ MAX_VCPUS }
    requires some { 0 < columns }
    requires few { columns ≤ 8000 }
    ensures { Writes (K.state sink.old) (K.state sink.new)
        (lane_line frame.now columns vcpus core share bars.now) result }
{
    put_line_begin(sink, core)?;
    put_cells(sink, frame, columns, vcpus, bars)?;
    put_line_end(sink, share)
}

fn put_line_begin<K: Sink>(sink: &mut K, core: u64) -> Result<(), WriteFault>
    ensures { Writes (K.state sink.old) (K.state sink.new) (line_begin core (gap_behind core)) result }
{
    put_core(sink, core, gap_behind(core))
}

fn put_line_end<K: Sink>(sink: &mut K, share: u64) -> Result<(), WriteFault>
    ensures { Writes (K.state sink.old) (K.state sink.new) (line_end (gap_before share) share) result }
{
    put_share(sink, gap_before(share), share)
}

fn gap_behind(core: u64) -> &'static [u8]
    ensures { result.now ≡ gap_behind core }
{
    if core < 10 { b"  " } else { b" " }
}

fn gap_before(share: u64) -> &'static [u8]
    ensures { result.now ≡ gap_before share }
{
    if share < 100 {
        b"    "
    } else if share < 1000 {
        b"   "
    } else {
        b"  "
    }
}

#[tactic(auto, unfolding(crate::specs::TextCharts::line_begin))]
fn put_core<K: Sink>(sink: &mut K, core: u64, gap: &[u8]) -> Result<(), WriteFault>
    ensures { Writes (K.state sink.old) (K.state sink.new) (line_begin core gap.now) result }
{
    put_pieces(
        sink,
        &[
            TextPiece::Text(b"core "),
            TextPiece::Wide(core),
            TextPiece::Text(gap),
        ],
    )
}

#[tactic(auto, unfolding(crate::specs::TextCharts::line_end))]
fn put_share<K: Sink>(sink: &mut K, gap: &[u8], share: u64) -> Result<(), WriteFault>
    ensures { Writes (K.state sink.old) (K.state sink.new) (line_end gap.now share) result }
{
    put_pieces(
        sink,
        &[
            TextPiece::Text(gap),
            TextPiece::Wide(share / 10),
            TextPiece::Text(b"."),
            TextPiece::Wide(share % 10),
            TextPiece::Text(b" %\n"),
        ],
    )
}

// Writes the letters of a lane's columns.
fn put_cells<K: Sink>(
    sink: &mut K,
    frame: &Frame,
    columns: u32,
    vcpus: usize,
    bars: &[Bar],
) -> Result<(), WriteFault>
    requires vcpus { vcpus ≤ MAX_VCPUS }
    requires some { 0 < columns }
    requires few { columns ≤ 8000 }
    ensures { Writes (K.state sink.old) (K.state sink.new)
        (texts_below (cell_at frame.now columns vcpus bars.now) columns) result }
{
    let rise = rise(bars);
    let mut start = 0;
    for j in 0..columns {
        start = first_from(bars, start, edge_of(frame, columns, j));
        let stop = first_behind(bars, rise, start, edge_of(frame, columns, j + 1));
        // the other bars have nothing in the column
        put_cell(sink, frame, columns, vcpus, &bars[start..stop], j)?;
    }
    Ok(())
}

// Writes the letter of a column, of which these bars have ticks.
fn put_cell<K: Sink>(
    sink: &mut K,
    frame: &Frame,
    columns: u32,
    vcpus: usize,
    bars: &[Bar],
    j: u32,
) -> Result<(), WriteFault>
    requires vcpus { vcpus ≤ MAX_VCPUS }
    requires there { j < columns }
    requires few { columns ≤ 8000 }
    ensures { Writes (K.state sink.old) (K.state sink.new)
        (cell_at frame.now columns vcpus bars.now j) result }
{
    write_all(sink, &[letter_at(frame, columns, vcpus, bars, j)])
}

// Writes the vCPUs' letters.
pub(crate) fn put_keys<K: Sink>(sink: &mut K, names: &[Name]) -> Result<(), WriteFault>
    ensures { Writes (K.state sink.old) (K.state sink.new)
        (texts_below (letter_key_at names.now) (lettered (length names.now))) result }
{
    for v in 0..lettered(names.len()) {
        put_key_at(sink, names, v)?;
    }
    Ok(())
}

// How many of so many vCPUs have a letter of their own.
fn lettered(vcpus: usize) -> usize
    ensures { result ≡ lettered vcpus }
{
    vcpus.min(52)
}

// Writes how many of so many vCPUs have no letter of their own, if some have none.
pub(crate) fn put_more<K: Sink>(sink: &mut K, vcpus: usize) -> Result<(), WriteFault>
    ensures { Writes (K.state sink.old) (K.state sink.new) (more_vcpus_text vcpus) result }
{
    if vcpus > 52 {
        put_more_line(sink, (vcpus - 52) as u64)
    } else {
        Ok(())
    }
}

#[tactic(auto, unfolding(crate::specs::TextCharts::more_line))]
fn put_more_of<K: Sink>(sink: &mut K, more: u64, many: &[u8]) -> Result<(), WriteFault>
    ensures { Writes (K.state sink.old) (K.state sink.new) (more_line more many.now) result }
{
    put_pieces(
        sink,
        &[
            TextPiece::Text(b"#="),
            TextPiece::Wide(more),
            TextPiece::Text(b" more vCPU"),
            TextPiece::Text(many),
            TextPiece::Text(b"\n"),
        ],
    )
}

fn put_more_line<K: Sink>(sink: &mut K, more: u64) -> Result<(), WriteFault>
    ensures { Writes (K.state sink.old) (K.state sink.new) (more_line more (plural more)) result }
{
    put_more_of(sink, more, plural(more))
}

// The ending of a word for so many.
fn plural(n: u64) -> &'static [u8]
    ensures { result.now ≡ plural n }
{
    if n == 1 { b"" } else { b"s" }
}

fn put_key_at<K: Sink>(sink: &mut K, names: &[Name], v: usize) -> Result<(), WriteFault>
    requires { v < lettered (length names.now) }
    ensures { Writes (K.state sink.old) (K.state sink.new) (letter_key_at names.now v) result }
{
    put_letter(sink, v)?;
    put_key_name(sink, names, v)
}

fn put_letter<K: Sink>(sink: &mut K, v: usize) -> Result<(), WriteFault>
    ensures { Writes (K.state sink.old) (K.state sink.new) (letter_of v ∷ []) result }
{
    write_all(sink, &[letter_of(v)])
}

fn put_key_name<K: Sink>(sink: &mut K, names: &[Name], v: usize) -> Result<(), WriteFault>
    requires { v < lettered (length names.now) }
    ensures { Writes (K.state sink.old) (K.state sink.new)
        (letter_key_name (name_of names.now v) (key_gap (lettered (length names.now)) v)) result }
{
    put_named(sink, name_at(names, v), key_gap(lettered(names.len()), v))
}

// What is after a vCPU's name, of so many.
fn key_gap(vcpus: usize, v: usize) -> &'static [u8]
    requires { v < vcpus }
    ensures { result.now ≡ key_gap vcpus v }
{
    if v % 8 == 7 || v + 1 == vcpus {
        b"\n"
    } else {
        b" "
    }
}

#[tactic(auto, unfolding(crate::specs::TextCharts::letter_key_name))]
fn put_named<'a, K: Sink>(sink: &mut K, name: &'a [u8], gap: &'a [u8]) -> Result<(), WriteFault>
    ensures { Writes (K.state sink.old) (K.state sink.new) (letter_key_name name.now gap.now) result }
{
    put_pieces(
        sink,
        &[
            TextPiece::Text(b"="),
            TextPiece::Text(name),
            TextPiece::Text(gap),
        ],
    )
}
