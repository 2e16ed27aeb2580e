ghost use Rattle.std.specs.Prelude.{◌<◌, ◌-◌, ◌≡◌, None, min, slice_get, slice_index_or};
ghost use Rattle.tab_io.specs.Sinks.{Writes};
ghost use Rattle.tab_core.specs.declared.TheConstants.{ROUND};
ghost use Rattle.view_lanes.specs.Amounts.{tenths_ms};
ghost use Rattle.view_svg.specs.Drawings.{IsInPicture, vcpus_view};
ghost use Rattle.view_svg.specs.Lanes.{is_late, lane_waits_text, longest_wait_text, marked_text, plain_end, promise_end, wait_at, wait_class, wait_end, wait_label, wait_line, wait_note, wait_part, wait_text};

use crate::drawing::{Band, Vcpus};
use crate::lane::line_in;
use crate::places::x_at;
use tab_core::ROUND;
use tab_io::{Sink, WriteFault, write_all};
use tab_words::{TextPiece, put_pieces};
use view_lanes::{Frame, tenths_ms};

// Writes the longest wait of a vCPU of a plan on its lane.
pub(crate) fn put_waits<K: Sink>(
    sink: &mut K,
    band: &Band,
    vcpus: &Vcpus<'_>,
    row: u64,
) -> Result<(), WriteFault>
    requires band { IsInPicture band.now }
    ensures { Writes (K.state sink.old) (K.state sink.new)
        (lane_waits_text band.now (vcpus_view vcpus.now) row) result }
{
    if band.frame.by_vcpu && !band.frame.is_run {
        let figures = vcpus.figures;
        put_marked(
            sink,
            band,
            &figures.waits,
            &figures.marks,
            promise_at(vcpus.promises, row as usize),
            row as usize,
        )
    } else {
        Ok(())
    }
}

// The promise to a vCPU.
fn promise_at(promises: &[Option<u64>], v: usize) -> Option<u64>
    ensures { result ≡ slice_index_or promises.now v None }
{
    match promises.get(v) {
        Some(promise) => *promise,
        None => None,
    }
}

fn put_marked<K: Sink>(
    sink: &mut K,
    band: &Band,
    waits: &[u32],
    marks: &[u32],
    promise: Option<u64>,
    v: usize,
) -> Result<(), WriteFault>
    requires band { IsInPicture band.now }
    ensures { Writes (K.state sink.old) (K.state sink.new)
        (marked_text band.now (slice_get waits.now v) (slice_get marks.now v) promise) result }
{
    match waits.get(v) {
        Some(wait) => put_ending(sink, band, *wait, marks, promise, v),
        None => Ok(()),
    }
}

fn put_ending<K: Sink>(
    sink: &mut K,
    band: &Band,
    wait: u32,
    marks: &[u32],
    promise: Option<u64>,
    v: usize,
) -> Result<(), WriteFault>
    requires band { IsInPicture band.now }
    ensures { Writes (K.state sink.old) (K.state sink.new)
        (longest_wait_text band.now wait (slice_get marks.now v) promise) result }
{
    match marks.get(v) {
        Some(mark) => put_wait(sink, band, wait, *mark, promise),
        None => Ok(()),
    }
}

// Writes a wait of so many ticks that ends at a tick of two rounds.
fn put_wait<K: Sink>(
    sink: &mut K,
    band: &Band,
    wait: u32,
    mark: u32,
    promise: Option<u64>,
) -> Result<(), WriteFault>
    requires band { IsInPicture band.now }
    ensures { Writes (K.state sink.old) (K.state sink.new) (wait_text band.now wait mark promise) result }
{
    put_wait_at(
        sink,
        &band.frame,
        band.y + band.high / 2,
        line_in(band.y, band.high, 800),
        wait,
        mark,
        promise,
    )
}

// Writes a wait of so many ticks at a height, and on the line of its text how long it is.
fn put_wait_at<K: Sink>(
    sink: &mut K,
    frame: &Frame,
    y: u32,
    line: u32,
    wait: u32,
    mark: u32,
    promise: Option<u64>,
) -> Result<(), WriteFault>
    ensures { Writes (K.state sink.old) (K.state sink.new)
        (wait_at frame.now y line wait mark promise) result }
{
    write_all(sink, b"<path class=\"wait\" d=\"")?;
    put_first_part(sink, frame, y, wait, mark)?;
    put_second_part(sink, frame, y, wait, mark)?;
    put_note(sink, frame.tick, line, wait, promise)
}

// Writes the part in the first round.
fn put_first_part<K: Sink>(
    sink: &mut K,
    frame: &Frame,
    y: u32,
    wait: u32,
    mark: u32,
) -> Result<(), WriteFault>
    ensures { Writes (K.state sink.old) (K.state sink.new)
        (wait_part frame.now y (mark - wait) (min mark ROUND)) result }
{
    put_part(sink, frame, y, mark.saturating_sub(wait), mark.min(ROUND))
}

// Writes the part in the second.
fn put_second_part<K: Sink>(
    sink: &mut K,
    frame: &Frame,
    y: u32,
    wait: u32,
    mark: u32,
) -> Result<(), WriteFault>
    ensures { Writes (K.state sink.old) (K.state sink.new)
        (wait_part frame.now y (mark - wait - ROUND) (mark - ROUND)) result }
{
    let from = mark.saturating_sub(wait).saturating_sub(ROUND);
    put_part(sink, frame, y, from, mark.saturating_sub(ROUND))
}

// Writes a line over those of the ticks that are shown.
fn put_part<K: Sink>(
    sink: &mut K,
    frame: &Frame,
    y: u32,
    first: u32,
    last: u32,
) -> Result<(), WriteFault>
    ensures { Writes (K.state sink.old) (K.state sink.new) (wait_part frame.now y first last) result }
{
    let from = first.max(frame.from);
    let to = last.min(frame.to);
    if from < to {
        put_line(sink, x_at(frame, from), y, x_at(frame, to))
    } else {
        Ok(())
    }
}

#[tactic(auto, unfolding(crate::specs::Lanes::wait_line))]
fn put_line<K: Sink>(sink: &mut K, x: u64, y: u32, end: u64) -> Result<(), WriteFault>
    ensures { Writes (K.state sink.old) (K.state sink.new) (wait_line x y end) result }
{
    put_pieces(
        sink,
        &[
            TextPiece::Text(b"M"),
            TextPiece::Wide(x),
            TextPiece::Text(b" "),
            TextPiece::Number(y),
            TextPiece::Text(b"H"),
            TextPiece::Wide(end),
        ],
    )
}

// Writes how long it is and how long it may be, in tenths of a millisecond.
fn put_note<K: Sink>(
    sink: &mut K,
    tick: u16,
    y: u32,
    wait: u32,
    promise: Option<u64>,
) -> Result<(), WriteFault>
    ensures { Writes (K.state sink.old) (K.state sink.new) (wait_note tick y wait promise) result }
{
    put_length_of(sink, tick, y, wait, promise)?;
    put_end(sink, promise)
}

// Writes how long it is, in the class of a wait that is longer than was promised or isn't.
fn put_length_of<K: Sink>(
    sink: &mut K,
    tick: u16,
    y: u32,
    wait: u32,
    promise: Option<u64>,
) -> Result<(), WriteFault>
    ensures { Writes (K.state sink.old) (K.state sink.new)
        (wait_label y (wait_class (is_late tick wait promise)) (tenths_ms tick wait)) result }
{
    let class = wait_class(is_late(tick, wait, promise));
    put_length(sink, y, class, tenths_ms(tick, wait))
}

// Whether a wait is longer than was promised.
fn is_late(tick: u16, wait: u32, promise: Option<u64>) -> bool
    ensures { result ≡ is_late tick wait promise }
{
    match promise {
        Some(latency) => wait >= 2 * ROUND || u64::from(wait) * u64::from(tick) > latency,
        None => false,
    }
}

fn wait_class(late: bool) -> &'static [u8]
    ensures { result.now ≡ wait_class late }
{
    if late { b"late" } else { b"dim" }
}

#[tactic(auto, unfolding(crate::specs::Lanes::wait_label))]
fn put_length<K: Sink>(sink: &mut K, y: u32, class: &[u8], wait: u64) -> Result<(), WriteFault>
    ensures { Writes (K.state sink.old) (K.state sink.new) (wait_label y class.now wait) result }
{
    put_pieces(
        sink,
        &[
            TextPiece::Text(b"\"/>\n<text x=\"112400\" y=\""),
            TextPiece::Number(y),
            TextPiece::Text(b"\" font-size=\"800\" class=\""),
            TextPiece::Text(class),
            TextPiece::Text(b"\">"),
            TextPiece::Wide(wait / 10),
            TextPiece::Text(b"."),
            TextPiece::Wide(wait % 10),
            TextPiece::Text(b" "),
        ],
    )
}

// Writes what ends it.
fn put_end<K: Sink>(sink: &mut K, promise: Option<u64>) -> Result<(), WriteFault>
    ensures { Writes (K.state sink.old) (K.state sink.new) (wait_end promise) result }
{
    match promise {
        Some(latency) => put_promise(sink, latency / 100_000),
        None => put_plain_end(sink),
    }
}

#[tactic(auto, unfolding(crate::specs::Lanes::plain_end))]
fn put_plain_end<K: Sink>(sink: &mut K) -> Result<(), WriteFault>
    ensures { Writes (K.state sink.old) (K.state sink.new) plain_end result }
{
    write_all(sink, b"ms</text>\n")
}

#[tactic(auto, unfolding(crate::specs::Lanes::promise_end))]
fn put_promise<K: Sink>(sink: &mut K, latency: u64) -> Result<(), WriteFault>
    ensures { Writes (K.state sink.old) (K.state sink.new) (promise_end latency) result }
{
    put_pieces(
        sink,
        &[
            TextPiece::Text(b"of "),
            TextPiece::Wide(latency / 10),
            TextPiece::Text(b"."),
            TextPiece::Wide(latency % 10),
            TextPiece::Text(b" ms</text>\n"),
        ],
    )
}
