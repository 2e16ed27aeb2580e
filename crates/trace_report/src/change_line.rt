ghost use Rattle.std.specs.Prelude.{◌++◌};
ghost use Rattle.tab_io.specs.Sinks.{Writes};
ghost use Rattle.vcpu_names.specs.Names.{names_of};
ghost use Rattle.trace_report.specs.ReportText.{change_line, line_of_change};

use plan_book::Outcome;
use tab_core::Vcpu;
use tab_io::{Sink, WriteFault};
use tab_words::{TextPiece, put_pieces};
use vcpu_names::name_in;

// Writes the line of what became of change k, which is at this tick.
pub(crate) fn put_change<K: Sink>(
    sink: &mut K,
    vcpus: &[Vcpu],
    k: u64,
    tick: u32,
    outcome: &Outcome,
) -> Result<(), WriteFault>
    ensures { Writes (K.state sink.old) (K.state sink.new)
        (change_line (names_of vcpus.now) k tick outcome.now) result }
{
    match outcome {
        Outcome::Planned => put_change_words(sink, k, tick, b"planned", b""),
        Outcome::NoPeriod { vcpu } => {
            put_change_words(sink, k, tick, b"no period for ", name_in(vcpus, vcpu))
        }
        Outcome::NoRoom { vcpu } => {
            put_change_words(sink, k, tick, b"no room for ", name_in(vcpus, vcpu))
        }
    }
}

// The line with these words after the tick, and then this name.
#[tactic(auto, unfolding(crate::specs::ReportText::line_of_change))]
fn put_change_words<'a, K: Sink>(
    sink: &mut K,
    k: u64,
    tick: u32,
    words: &'a [u8],
    name: &'a [u8],
) -> Result<(), WriteFault>
    ensures { Writes (K.state sink.old) (K.state sink.new)
        (line_of_change k tick (words.now ++ name.now)) result }
{
    put_pieces(
        sink,
        &[
            TextPiece::Text(b"change "),
            TextPiece::Wide(k),
            TextPiece::Text(b" at "),
            TextPiece::Number(tick),
            TextPiece::Text(b": "),
            TextPiece::Text(words),
            TextPiece::Text(name),
            TextPiece::Text(b"\n"),
        ],
    )
}
