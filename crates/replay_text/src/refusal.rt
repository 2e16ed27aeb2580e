ghost use Rattle.std.specs.Prelude.{◌++◌, codes, decimal};
ghost use Rattle.tab_io.specs.Sinks.{Writes};
ghost use Rattle.replay_text.specs.Refusal.{step_fault_line};

use step_machine::Answer;
use tab_core::Actor;
use tab_io::{Sink, WriteFault};
use tab_words::{TextPiece, put_numbered, put_pieces};

/// Writes the line of the refusal of a replay, whose first step that isn't done is on the line of
/// this number, from 1, and has this answer.
///
/// A fault of the sink leaves a prefix of the line in it. Nothing is settled.
pub fn put_step_fault<K: Sink>(sink: &mut K, line: u32, answer: &Answer) -> Result<(), WriteFault>
    ensures { Writes (K.state sink.old) (K.state sink.new) (step_fault_line line answer.now) result }
{
    match answer {
        Answer::Done => put_end(sink, line, b"\n"),
        Answer::Behind { who, tick } => put_behind(sink, line, who, *tick),
        Answer::NotNow { .. } => put_end(sink, line, b" is not now\n"),
    }
}

// The line with this end after the step's number.
fn put_end<K: Sink>(sink: &mut K, line: u32, end: &[u8]) -> Result<(), WriteFault>
    ensures { Writes (K.state sink.old) (K.state sink.new)
        (codes "refused: step " ++ (decimal line ++ end.now)) result }
{
    put_numbered(sink, b"refused: step ", line, end)
}

// The line of a step that waits.
fn put_behind<K: Sink>(sink: &mut K, line: u32, who: &Actor, tick: u32) -> Result<(), WriteFault>
    ensures { Writes (K.state sink.old) (K.state sink.new)
        (step_fault_line line (Answer.Behind who.now tick)) result }
{
    match who {
        Actor::Core(core) => put_pieces(
            sink,
            &[
                TextPiece::Text(b"refused: step "),
                TextPiece::Number(line),
                TextPiece::Text(b", core "),
                TextPiece::Number(core.0),
                TextPiece::Text(b" at tick "),
                TextPiece::Number(tick),
                TextPiece::Text(b"\n"),
            ],
        ),
        Actor::Controller => put_pieces(
            sink,
            &[
                TextPiece::Text(b"refused: step "),
                TextPiece::Number(line),
                TextPiece::Text(b", controller at tick "),
                TextPiece::Number(tick),
                TextPiece::Text(b"\n"),
            ],
        ),
    }
}
