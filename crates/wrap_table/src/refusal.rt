ghost use Rattle.tab_io.specs.Sinks.{Writes};
ghost use Rattle.wrap_table.specs.Refusal.{no_fit_line};

use tab_io::{Sink, WriteFault};
use tab_words::{TextPiece, put_pieces};

/// Writes the line of the refusal of a host whose vCPUs are due `demand` ticks of a round together,
/// where all cores have `room`.
///
/// A fault of the sink leaves a prefix of the line in it. Nothing is settled.
#[tactic(auto, unfolding(crate::specs::Refusal::no_fit_line))]
pub fn put_no_fit<K: Sink>(sink: &mut K, demand: u64, room: u64) -> Result<(), WriteFault>
    ensures { Writes (K.state sink.old) (K.state sink.new) (no_fit_line demand room) result }
{
    put_pieces(
        sink,
        &[
            TextPiece::Text(b"refused: demand "),
            TextPiece::Wide(demand),
            TextPiece::Text(b" exceeds room "),
            TextPiece::Wide(room),
            TextPiece::Text(b"\n"),
        ],
    )
}
