ghost use Rattle.std.specs.Prelude.{◌≡◌};
ghost use Rattle.tab_io.specs.Sinks.{Writes};
ghost use Rattle.host_trace.specs.TraceLines.{state_word};
ghost use Rattle.trace_text.specs.TraceTexts.{trace_head, trace_line};

use host_trace::{State, Told};
use tab_io::{Sink, WriteFault, write_all};
use tab_words::{TextPiece, put_pieces};

/// Writes the line that names the columns.
///
/// A fault leaves a prefix of it in the sink. Nothing is settled.
pub fn put_trace_head<K: Sink>(sink: &mut K) -> Result<(), WriteFault>
    ensures { Writes (K.state sink.old) (K.state sink.new) trace_head result }
{
    write_all(sink, b"TIME_NS,VCPU,STATE,CPU\n")
}

/// Writes the line that says that a vCPU is in a state from a time on.
///
/// A fault leaves a prefix of it in the sink. Nothing is settled.
#[tactic(auto, unfolding(crate::specs::TraceTexts::trace_line))]
pub fn put_trace_line<K: Sink>(sink: &mut K, told: &Told<'_>) -> Result<(), WriteFault>
    ensures { Writes (K.state sink.old) (K.state sink.new)
        (trace_line told.now.time_ns told.now.name.now told.now.state told.now.cpu) result }
{
    match told.cpu {
        Some(cpu) => put_pieces(
            sink,
            &[
                TextPiece::Wide(told.time_ns),
                TextPiece::Text(b","),
                TextPiece::Text(told.name),
                TextPiece::Text(b","),
                TextPiece::Text(word_of(told.state)),
                TextPiece::Text(b","),
                TextPiece::Number(cpu),
                TextPiece::Text(b"\n"),
            ],
        ),
        None => put_pieces(
            sink,
            &[
                TextPiece::Wide(told.time_ns),
                TextPiece::Text(b","),
                TextPiece::Text(told.name),
                TextPiece::Text(b","),
                TextPiece::Text(word_of(told.state)),
                TextPiece::Text(b"\n"),
            ],
        ),
    }
}

// The word of a state.
fn word_of(state: State) -> &'static [u8]
    ensures { result.now ≡ state_word state }
{
    match state {
        State::Run => b"run",
        State::Wait => b"wait",
        State::Block => b"block",
    }
}
