ghost use Rattle.std.specs.Prelude.{◌++◌, codes, flat_map};
ghost use Rattle.tab_io.specs.Sinks.{Writes};
ghost use Rattle.plan_make.specs.Refusal.{no_period_line, no_room_line, no_room_text, over_text};

use tab_core::Over;
use tab_io::{Sink, WriteFault, write_all};
use tab_words::{TextPiece, put_pieces};

/// Writes the line of the refusal of a host because a period is missing, for the vCPU of this name.
///
/// A fault of the sink leaves a prefix of the line in it. Nothing is settled.
#[tactic(auto, unfolding(crate::specs::Refusal::no_period_line))]
pub fn put_no_period<K: Sink>(sink: &mut K, name: &[u8]) -> Result<(), WriteFault>
    ensures { Writes (K.state sink.old) (K.state sink.new) (no_period_line name.now) result }
{
    put_pieces(
        sink,
        &[
            TextPiece::Text(b"refused: no period for "),
            TextPiece::Text(name),
            TextPiece::Text(b"\n"),
        ],
    )
}

/// Writes the line of the refusal of a host because room is missing: for the vCPU of this name, of
/// which so many ticks are left, and these overloaded intervals.
///
/// A fault of the sink leaves a prefix of the line in it. Nothing is settled.
pub fn put_no_room<K: Sink>(
    sink: &mut K,
    name: &[u8],
    rest: u32,
    over: &[Over],
) -> Result<(), WriteFault>
    ensures { Writes (K.state sink.old) (K.state sink.new)
        (no_room_line name.now rest over.now) result }
{
    if let Err(fault) = put_no_room_text(sink, name, rest) {
        return Err(fault);
    }
    put_overs_line(sink, over)
}

#[tactic(auto, unfolding(crate::specs::Refusal::no_room_text))]
fn put_no_room_text<K: Sink>(sink: &mut K, name: &[u8], rest: u32) -> Result<(), WriteFault>
    ensures { Writes (K.state sink.old) (K.state sink.new) (no_room_text name.now rest) result }
{
    put_pieces(
        sink,
        &[
            TextPiece::Text(b"refused: no room for "),
            TextPiece::Text(name),
            TextPiece::Text(b", "),
            TextPiece::Number(rest),
            TextPiece::Text(b" ticks left"),
        ],
    )
}

// The intervals, to the end of the line.
fn put_overs_line<K: Sink>(sink: &mut K, overs: &[Over]) -> Result<(), WriteFault>
    ensures { Writes (K.state sink.old) (K.state sink.new)
        (flat_map over_text overs.now ++ codes "\n") result }
{
    if let Err(fault) = put_overs(sink, overs) {
        return Err(fault);
    }
    write_all(sink, b"\n")
}

fn put_overs<K: Sink>(sink: &mut K, overs: &[Over]) -> Result<(), WriteFault>
    ensures { Writes (K.state sink.old) (K.state sink.new) (flat_map over_text overs.now) result }
{
    for over in overs {
        if let Err(fault) = put_over(sink, over) {
            return Err(fault);
        }
    }
    Ok(())
}

#[tactic(auto, unfolding(crate::specs::Refusal::over_text))]
fn put_over<K: Sink>(sink: &mut K, over: &Over) -> Result<(), WriteFault>
    ensures { Writes (K.state sink.old) (K.state sink.new) (over_text over.now) result }
{
    put_pieces(
        sink,
        &[
            TextPiece::Text(b"; core "),
            TextPiece::Number(over.core.0),
            TextPiece::Text(b" has "),
            TextPiece::Wide(over.demand),
            TextPiece::Text(b" in "),
            TextPiece::Number(over.from),
            TextPiece::Text(b".."),
            TextPiece::Number(over.to),
        ],
    )
}
