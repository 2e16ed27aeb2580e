ghost use Rattle.std.specs.Prelude.{◌≡◌, ◌<◌, ◌≤◌, ◌^◌};
ghost use Rattle.tab_core.specs.declared.TheConstants.{MAX_VCPUS};
ghost use Rattle.tab_io.specs.Sinks.{Writes};
ghost use Rattle.tab_words.specs.Texts.{texts_below};
ghost use Rattle.view_svg.specs.Frames.{foot_of};
ghost use Rattle.view_chart.specs.Rounds.{begin_of, change_text, count_mark_at, events_word, marks_text, new_count, plan_change_line, round_begin_at, round_mark_at, round_text, round_word, rounds_text, used_before};
ghost use Rattle.view_lanes.specs.Rounds.{AreUsed, first_round};

use crate::axis::put_tick;
use tab_core::ROUND;
use tab_io::{Sink, WriteFault};
use tab_words::{TextPiece, put_pieces};
use view_doc::Stretch;
use view_lanes::{Frame, first_round, rounds_shown, used_counts};
use view_svg::{foot_of, x_at};

// Writes where the rounds of a run of these stretches begin, if these are few, with lines through so many lanes, and
// the counts of events that their plans include.
pub(crate) fn put_rounds<K: Sink>(
    sink: &mut K,
    frame: &Frame,
    stretches: &[Stretch],
    lanes: u32,
) -> Result<(), WriteFault>
    requires { lanes ≤ MAX_VCPUS }
    ensures { Writes (K.state sink.old) (K.state sink.new)
        (rounds_text frame.now frame.now.is_run stretches.now (foot_of lanes)) result }
{
    let count = rounds_shown(frame);
    if !frame.is_run || count > 24 {
        return Ok(());
    }
    put_marks(sink, frame, stretches, foot_of(lanes), count)
}

fn put_marks<K: Sink>(
    sink: &mut K,
    frame: &Frame,
    stretches: &[Stretch],
    foot: u32,
    count: u64,
) -> Result<(), WriteFault>
    requires count { count ≤ 24 }
    requires low { foot < 2 ^ 31 }
    ensures { Writes (K.state sink.old) (K.state sink.new) (marks_text frame.now stretches.now foot count) result }
{
    put_all(sink, frame, foot, count)?;
    put_counts(sink, frame, stretches, foot, count)?;
    put_events_word(sink, foot + 2400)
}

fn put_all<K: Sink>(sink: &mut K, frame: &Frame, foot: u32, count: u64) -> Result<(), WriteFault>
    requires { count ≤ 24 }
    ensures { Writes (K.state sink.old) (K.state sink.new) (texts_below (round_mark_at frame.now foot) count) result }
{
    for k in 0..count {
        put_round_at(sink, frame, foot, k)?;
    }
    Ok(())
}

fn put_round_at<K: Sink>(sink: &mut K, frame: &Frame, foot: u32, k: u64) -> Result<(), WriteFault>
    requires { k < 24 }
    ensures { Writes (K.state sink.old) (K.state sink.new) (round_mark_at frame.now foot k) result }
{
    let word = round_word(rounds_shown(frame));
    put_round(sink, begin_at(frame, k), foot, word, first_round(frame) + k)
}

// What is before the number of a round of so many.
fn round_word(rounds: u64) -> &'static [u8]
    ensures { result.now ≡ round_word rounds }
{
    if rounds <= 16 { b"round " } else { b"r" }
}

// Where the round of a number of those that are shown begins.
fn begin_at(frame: &Frame, k: u64) -> u64
    requires { k < 24 }
    ensures value { result ≡ round_begin_at frame.now k }
    ensures small { result < 2 ^ 50 }
{
    x_at(frame, begin_of(frame, first_round(frame) + k))
}

// The tick at which a round begins, or the last that is shown.
fn begin_of(frame: &Frame, round: u64) -> u32
    requires { round < 2 ^ 33 }
    ensures { result ≡ begin_of frame.now round }
{
    u64::from(frame.to).min(round * u64::from(ROUND)) as u32
}

#[tactic(auto, unfolding(crate::specs::Rounds::round_text))]
fn put_round<K: Sink>(
    sink: &mut K,
    x: u64,
    foot: u32,
    word: &[u8],
    round: u64,
) -> Result<(), WriteFault>
    requires { x < 2 ^ 63 }
    ensures { Writes (K.state sink.old) (K.state sink.new) (round_text x foot word.now round) result }
{
    put_pieces(
        sink,
        &[
            TextPiece::Text(b"<path class=\"round\" d=\"M"),
            TextPiece::Wide(x),
            TextPiece::Text(b" 9300V"),
            TextPiece::Number(foot),
            TextPiece::Text(b"\"/><text x=\""),
            TextPiece::Wide(x + 500),
            TextPiece::Text(b"\" y=\"7600\" font-size=\"1000\" class=\"label\">"),
            TextPiece::Text(word),
            TextPiece::Wide(round),
            TextPiece::Text(b"</text>\n"),
        ],
    )
}

// Writes the counts of events of so many rounds.
fn put_counts<K: Sink>(
    sink: &mut K,
    frame: &Frame,
    stretches: &[Stretch],
    foot: u32,
    count: u64,
) -> Result<(), WriteFault>
    requires count { count ≤ 24 }
    requires low { foot < 2 ^ 31 }
    ensures { Writes (K.state sink.old) (K.state sink.new)
        (texts_below (count_mark_at frame.now stretches.now foot) count) result }
{
    let counts = used_counts(stretches, first_round(frame));
    for k in 0..count {
        put_count_at(sink, frame, stretches, &counts, foot, k)?;
    }
    Ok(())
}

fn put_count_at<K: Sink>(
    sink: &mut K,
    frame: &Frame,
    stretches: &[Stretch],
    counts: &[Option<u32>; 24],
    foot: u32,
    k: u64,
) -> Result<(), WriteFault>
    requires few { k < 24 }
    requires low { foot < 2 ^ 31 }
    requires counts { AreUsed stretches.now (first_round frame.now) counts.now }
    ensures { Writes (K.state sink.old) (K.state sink.new) (count_mark_at frame.now stretches.now foot k) result }
{
    let other = count_before(stretches, first_round(frame), counts, k);
    match counts[k as usize] {
        Some(count) => put_count(sink, begin_at(frame, k), foot, other, count),
        None => Ok(()),
    }
}

// The count of the round before the one of a number of those that are shown, if that one is shown too.
fn count_before(
    stretches: &[Stretch],
    first: u64,
    counts: &[Option<u32>; 24],
    k: u64,
) -> Option<u32>
    requires few { k < 24 }
    requires counts { AreUsed stretches.now first counts.now }
    ensures { result ≡ used_before stretches.now first k }
{
    if k == 0 { None } else { counts[k as usize - 1] }
}

// Writes the count of a round, if the round before has another.
fn put_count<K: Sink>(
    sink: &mut K,
    x: u64,
    foot: u32,
    other: Option<u32>,
    count: u32,
) -> Result<(), WriteFault>
    requires { foot < 2 ^ 31 }
    ensures { Writes (K.state sink.old) (K.state sink.new) (new_count x foot other count) result }
{
    match other {
        None => put_tick(sink, x, foot + 2400, u64::from(count)),
        Some(before) if before == count => Ok(()),
        Some(_) => put_change(sink, x, foot, count),
    }
}

// Writes it with a line through the lanes.
fn put_change<K: Sink>(sink: &mut K, x: u64, foot: u32, count: u32) -> Result<(), WriteFault>
    requires { foot < 2 ^ 31 }
    ensures { Writes (K.state sink.old) (K.state sink.new) (change_text x foot count) result }
{
    put_change_line(sink, x, foot + 300)?;
    put_tick(sink, x, foot + 2400, u64::from(count))
}

#[tactic(auto, unfolding(crate::specs::Rounds::plan_change_line))]
fn put_change_line<K: Sink>(sink: &mut K, x: u64, end: u32) -> Result<(), WriteFault>
    ensures { Writes (K.state sink.old) (K.state sink.new) (plan_change_line x end) result }
{
    put_pieces(
        sink,
        &[
            TextPiece::Text(b"<path stroke=\"#c2410c\" stroke-width=\"140\" d=\"M"),
            TextPiece::Wide(x),
            TextPiece::Text(b" 9300V"),
            TextPiece::Number(end),
            TextPiece::Text(b"\"/>\n"),
        ],
    )
}

#[tactic(auto, unfolding(crate::specs::Rounds::events_word))]
fn put_events_word<K: Sink>(sink: &mut K, y: u32) -> Result<(), WriteFault>
    ensures { Writes (K.state sink.old) (K.state sink.new) (events_word y) result }
{
    put_pieces(
        sink,
        &[
            TextPiece::Text(b"<text x=\"4000\" y=\""),
            TextPiece::Number(y),
            TextPiece::Text(
                b"\" font-size=\"900\" class=\"dim\"><title>how many events the plan of the round includes</title>events</text>\n",
            ),
        ],
    )
}
