ghost use Rattle.std.specs.Prelude.{◌≡◌, ◌<◌, ◌≤◌, ◌*◌, ◌+◌, ◌-◌, ◌^◌};
ghost use Rattle.tab_core.specs.declared.TheConstants.{MAX_VCPUS};
ghost use Rattle.tab_io.specs.Sinks.{Writes};
ghost use Rattle.tab_words.specs.Texts.{texts_below};
ghost use Rattle.view_svg.specs.Frames.{foot_of};
ghost use Rattle.view_chart.specs.Axes.{axis_of, axis_text, axis_tick_at, axis_unit, end_mark, end_tick, first_mark, first_tick, grid_line, grid_line_at, mark_at, mark_number_at, mark_text, micros_at, step_in, step_of, tick_axis, tick_axis_of, tick_number, tick_step, tick_text, ticks_word, time_axis, unit_word};

use tab_io::{Sink, WriteFault, write_all};
use tab_words::{TextPiece, put_pieces};
use view_lanes::{Frame, span_of};
use view_svg::{foot_of, x_at};

// 1, 2 and 5 times the powers of ten.
const STEPS: [u32; 28] = [
    1,
    2,
    5,
    10,
    20,
    50,
    100,
    200,
    500,
    1000,
    2000,
    5000,
    10_000,
    20_000,
    50_000,
    100_000,
    200_000,
    500_000,
    1_000_000,
    2_000_000,
    5_000_000,
    10_000_000,
    20_000_000,
    50_000_000,
    100_000_000,
    200_000_000,
    500_000_000,
    1_000_000_000,
];

// Writes the axes of time and of ticks, with lines through so many lanes.
pub(crate) fn put_axis<K: Sink>(sink: &mut K, frame: &Frame, lanes: u32) -> Result<(), WriteFault>
    requires { lanes ≤ MAX_VCPUS }
    ensures { Writes (K.state sink.old) (K.state sink.new) (axis_text frame.now (foot_of lanes)) result }
{
    put_time_axis(sink, frame, lanes)?;
    put_tick_axis(sink, frame, lanes)
}

pub(crate) fn put_time_axis<K: Sink>(
    sink: &mut K,
    frame: &Frame,
    lanes: u32,
) -> Result<(), WriteFault>
    requires { lanes ≤ MAX_VCPUS }
    ensures { Writes (K.state sink.old) (K.state sink.new) (time_axis frame.now (foot_of lanes)) result }
{
    put_axis_of(sink, frame, foot_of(lanes), marks_of(frame))
}

fn put_axis_of<K: Sink>(
    sink: &mut K,
    frame: &Frame,
    foot: u32,
    marks: u64,
) -> Result<(), WriteFault>
    requires { marks ≤ end_mark frame.now - first_mark frame.now }
    ensures { Writes (K.state sink.old) (K.state sink.new) (axis_of frame.now foot marks) result }
{
    write_all(sink, b"<path class=\"grid\" d=\"")?;
    put_lines(sink, frame, foot, marks)?;
    write_all(sink, b"\"/>\n")?;
    put_numbers(sink, frame, marks)?;
    write_all(
        sink,
        b"<text x=\"4000\" y=\"8900\" font-size=\"1000\" class=\"dim\">",
    )?;
    put_unit(sink, frame)?;
    write_all(sink, b"</text>\n")
}

fn put_unit<K: Sink>(sink: &mut K, frame: &Frame) -> Result<(), WriteFault>
    ensures { Writes (K.state sink.old) (K.state sink.new) (unit_word (step_of frame.now)) result }
{
    write_all(sink, unit_word(step_of(frame)))
}

// The first of the steps of which the span has twelve at most.
fn step_in(span: u64, steps: &[u32]) -> u64
    ensures value { result ≡ step_in span steps.now }
    ensures some { 0 < result }
    ensures small { result < 2 ^ 32 }
{
    for step in steps {
        let wide = u64::from(*step);
        if wide > 0 && span / wide <= 12 {
            return wide;
        }
    }
    2_000_000_000
}

// Microseconds of so many ticks.
fn micros_at(frame: &Frame, tick: u32) -> u64
    ensures value { result ≡ micros_at frame.now tick }
    ensures small { result < 2 ^ 39 }
{
    u64::from(tick) * u64::from(frame.tick) / 1000
}

// The step between marks, in microseconds.
fn step_of(frame: &Frame) -> u64
    ensures value { result ≡ step_of frame.now }
    ensures some { 0 < result }
    ensures small { result < 2 ^ 32 }
{
    step_in(micros_at(frame, span_of(frame)), &STEPS)
}

// The number of the first mark, and of the one after the last.
fn first_mark(frame: &Frame) -> u64
    ensures value { result ≡ first_mark frame.now }
{
    let step = step_of(frame);
    (micros_at(frame, frame.from) + (step - 1)) / step
}

fn end_mark(frame: &Frame) -> u64
    ensures value { result ≡ end_mark frame.now }
{
    micros_at(frame, frame.to) / step_of(frame) + 1
}

// How many marks there are.
fn marks_of(frame: &Frame) -> u64
    ensures { result ≡ end_mark frame.now - first_mark frame.now }
{
    end_mark(frame).saturating_sub(first_mark(frame))
}

// When the mark of a number is, in microseconds.
fn micros_of(frame: &Frame, k: u64) -> u64
    requires { k < end_mark frame.now - first_mark frame.now }
    ensures value { result ≡ (first_mark frame.now + k) * step_of frame.now }
    ensures small { result < 2 ^ 39 }
{
    let last = micros_at(frame, frame.to);
    let us = (first_mark(frame) + k) * step_of(frame);
    prove!(us <= last);
    us
}

// Where a mark is.
fn mark_at(frame: &Frame, us: u64) -> u64
    requires { us < 2 ^ 39 }
    ensures { result ≡ mark_at frame.now us }
{
    x_at(frame, tick_at(frame, us))
}

// The tick of so many microseconds, or the last.
fn tick_at(frame: &Frame, us: u64) -> u32
    requires { us < 2 ^ 39 }
    ensures { result ≡ axis_tick_at frame.now us }
{
    if frame.tick == 0 {
        return 0;
    }
    u64::from(frame.to).min(us * 1000 / u64::from(frame.tick)) as u32
}

fn put_lines<K: Sink>(sink: &mut K, frame: &Frame, foot: u32, marks: u64) -> Result<(), WriteFault>
    requires { marks ≤ end_mark frame.now - first_mark frame.now }
    ensures { Writes (K.state sink.old) (K.state sink.new) (texts_below (grid_line_at frame.now foot) marks) result }
{
    for k in 0..marks {
        put_line(sink, frame, foot, k)?;
    }
    Ok(())
}

fn put_line<K: Sink>(sink: &mut K, frame: &Frame, foot: u32, k: u64) -> Result<(), WriteFault>
    requires { k < end_mark frame.now - first_mark frame.now }
    ensures { Writes (K.state sink.old) (K.state sink.new) (grid_line_at frame.now foot k) result }
{
    put_grid_line(sink, foot, mark_at(frame, micros_of(frame, k)))
}

#[tactic(auto, unfolding(crate::specs::Axes::grid_line))]
fn put_grid_line<K: Sink>(sink: &mut K, foot: u32, x: u64) -> Result<(), WriteFault>
    ensures { Writes (K.state sink.old) (K.state sink.new) (grid_line foot x) result }
{
    put_pieces(
        sink,
        &[
            TextPiece::Text(b"M"),
            TextPiece::Wide(x),
            TextPiece::Text(b" 9300V"),
            TextPiece::Wide(u64::from(foot) + 300),
        ],
    )
}

fn put_numbers<K: Sink>(sink: &mut K, frame: &Frame, marks: u64) -> Result<(), WriteFault>
    requires { marks ≤ end_mark frame.now - first_mark frame.now }
    ensures { Writes (K.state sink.old) (K.state sink.new) (texts_below (mark_number_at frame.now) marks) result }
{
    for k in 0..marks {
        put_number_at(sink, frame, k)?;
    }
    Ok(())
}

fn put_number_at<K: Sink>(sink: &mut K, frame: &Frame, k: u64) -> Result<(), WriteFault>
    requires { k < end_mark frame.now - first_mark frame.now }
    ensures { Writes (K.state sink.old) (K.state sink.new) (mark_number_at frame.now k) result }
{
    let us = micros_of(frame, k);
    put_mark(sink, mark_at(frame, us), us / unit_of(step_of(frame)))
}

#[tactic(auto, unfolding(crate::specs::Axes::mark_text))]
fn put_mark<K: Sink>(sink: &mut K, x: u64, ms: u64) -> Result<(), WriteFault>
    ensures { Writes (K.state sink.old) (K.state sink.new) (mark_text x ms) result }
{
    put_pieces(
        sink,
        &[
            TextPiece::Text(b"<text x=\""),
            TextPiece::Wide(x),
            TextPiece::Text(
                b"\" y=\"8900\" font-size=\"1000\" class=\"dim\" text-anchor=\"middle\">",
            ),
            TextPiece::Wide(ms),
            TextPiece::Text(b"</text>\n"),
        ],
    )
}

// Microseconds of the unit that marks are written in.
fn unit_of(step: u64) -> u64
    ensures value { result ≡ axis_unit step }
    ensures some { 0 < result }
{
    if step >= 1000 { 1000 } else { 1 }
}

fn unit_word(step: u64) -> &'static [u8]
    ensures { result.now ≡ unit_word step }
{
    if step >= 1000 { b"ms" } else { b"us" }
}

// Writes the numbers of ticks below so many lanes.
fn put_tick_axis<K: Sink>(sink: &mut K, frame: &Frame, lanes: u32) -> Result<(), WriteFault>
    requires { lanes ≤ MAX_VCPUS }
    ensures { Writes (K.state sink.old) (K.state sink.new) (tick_axis frame.now (foot_of lanes)) result }
{
    put_tick_axis_of(sink, frame, foot_of(lanes) + 1300, tick_marks(frame))
}

fn put_tick_axis_of<K: Sink>(
    sink: &mut K,
    frame: &Frame,
    y: u32,
    marks: u64,
) -> Result<(), WriteFault>
    requires { marks ≤ end_tick frame.now - first_tick frame.now }
    ensures { Writes (K.state sink.old) (K.state sink.new) (tick_axis_of frame.now y marks) result }
{
    put_tick_numbers(sink, frame, y, marks)?;
    put_ticks_word(sink, y)
}

#[tactic(auto, unfolding(crate::specs::Axes::ticks_word))]
fn put_ticks_word<K: Sink>(sink: &mut K, y: u32) -> Result<(), WriteFault>
    ensures { Writes (K.state sink.old) (K.state sink.new) (ticks_word y) result }
{
    put_pieces(
        sink,
        &[
            TextPiece::Text(b"<text x=\"4000\" y=\""),
            TextPiece::Number(y),
            TextPiece::Text(b"\" font-size=\"900\" class=\"dim\">ticks</text>\n"),
        ],
    )
}

// The ticks between two marks.
fn tick_step(frame: &Frame) -> u64
    ensures value { result ≡ tick_step frame.now }
    ensures some { 0 < result }
    ensures small { result < 2 ^ 32 }
{
    step_in(u64::from(span_of(frame)), &STEPS)
}

// The number of the first mark, and of the one after the last.
fn first_tick(frame: &Frame) -> u64
    ensures { result ≡ first_tick frame.now }
{
    let step = tick_step(frame);
    (u64::from(frame.from) + (step - 1)) / step
}

fn end_tick(frame: &Frame) -> u64
    ensures { result ≡ end_tick frame.now }
{
    u64::from(frame.to) / tick_step(frame) + 1
}

// How many marks there are.
pub(crate) fn tick_marks(frame: &Frame) -> u64
    ensures { result ≡ end_tick frame.now - first_tick frame.now }
{
    end_tick(frame).saturating_sub(first_tick(frame))
}

fn put_tick_numbers<K: Sink>(
    sink: &mut K,
    frame: &Frame,
    y: u32,
    marks: u64,
) -> Result<(), WriteFault>
    requires { marks ≤ end_tick frame.now - first_tick frame.now }
    ensures { Writes (K.state sink.old) (K.state sink.new) (texts_below (tick_number frame.now y) marks) result }
{
    for k in 0..marks {
        put_tick_number(sink, frame, y, k)?;
    }
    Ok(())
}

fn put_tick_number<K: Sink>(sink: &mut K, frame: &Frame, y: u32, k: u64) -> Result<(), WriteFault>
    requires { k < end_tick frame.now - first_tick frame.now }
    ensures { Writes (K.state sink.old) (K.state sink.new) (tick_number frame.now y k) result }
{
    let tick = marked_tick(frame, k);
    put_tick(sink, x_at(frame, tick), y, u64::from(tick))
}

// The tick of the mark of a number.
pub(crate) fn marked_tick(frame: &Frame, k: u64) -> u32
    requires { k < end_tick frame.now - first_tick frame.now }
    ensures { result ≡ (first_tick frame.now + k) * tick_step frame.now }
{
    let last = u64::from(frame.to);
    let tick = (first_tick(frame) + k) * tick_step(frame);
    prove!(tick <= last);
    tick as u32
}

// Writes a number below the lanes.
#[tactic(auto, unfolding(crate::specs::Axes::tick_text))]
pub(crate) fn put_tick<K: Sink>(sink: &mut K, x: u64, y: u32, tick: u64) -> Result<(), WriteFault>
    ensures { Writes (K.state sink.old) (K.state sink.new) (tick_text x y tick) result }
{
    put_pieces(
        sink,
        &[
            TextPiece::Text(b"<text x=\""),
            TextPiece::Wide(x),
            TextPiece::Text(b"\" y=\""),
            TextPiece::Number(y),
            TextPiece::Text(b"\" font-size=\"900\" class=\"dim\" text-anchor=\"middle\">"),
            TextPiece::Wide(tick),
            TextPiece::Text(b"</text>\n"),
        ],
    )
}
