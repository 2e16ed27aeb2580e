ghost use Rattle.std.specs.Prelude.{◌++◌, decimal, flat_map};
ghost use Rattle.tab_io.specs.Sinks.{Writes};
ghost use Rattle.tab_words.specs.Pieces.{piece_text};

use itoa::Buffer;
use tab_io::{Sink, WriteFault, write_all};

/// A piece of a text.
#[derive(Clone, Copy)]
pub enum TextPiece<'a> {
    /// These bytes.
    Text(&'a [u8]),
    /// The number's decimal digits.
    Number(u32),
    /// The decimal digits of a wide number.
    Wide(u64),
}

/// Writes the pieces, one after the other, with nothing between them.
///
/// A fault leaves a prefix of the text in the sink. Nothing is settled.
pub fn put_pieces<K: Sink>(sink: &mut K, pieces: &[TextPiece<'_>]) -> Result<(), WriteFault>
    ensures { Writes (K.state sink.old) (K.state sink.new) (flat_map piece_text pieces.now) result }
{
    for piece in pieces {
        put_piece(sink, piece)?;
    }
    Ok(())
}

pub(crate) fn put_piece<K: Sink>(sink: &mut K, piece: &TextPiece<'_>) -> Result<(), WriteFault>
    ensures { Writes (K.state sink.old) (K.state sink.new) (piece_text piece.now) result }
{
    match piece {
        TextPiece::Text(bytes) => write_all(sink, bytes),
        TextPiece::Number(n) => put_number(sink, u64::from(*n)),
        TextPiece::Wide(n) => put_number(sink, *n),
    }
}

/// Writes a number between two texts.
///
/// A fault leaves a prefix of the three in the sink. Nothing is settled.
pub fn put_numbered<'a, K: Sink>(
    sink: &mut K,
    before: &'a [u8],
    number: u32,
    behind: &'a [u8],
) -> Result<(), WriteFault>
    ensures { Writes (K.state sink.old) (K.state sink.new)
        (before.now ++ (decimal number ++ behind.now)) result }
{
    put_pieces(
        sink,
        &[
            TextPiece::Text(before),
            TextPiece::Number(number),
            TextPiece::Text(behind),
        ],
    )
}

/// Writes the number's decimal digits: no sign, and no leading zero but in `0` itself.
///
/// A fault leaves a prefix of the digits in the sink. Nothing is settled.
pub fn put_number<K: Sink>(sink: &mut K, n: u64) -> Result<(), WriteFault>
    ensures { Writes (K.state sink.old) (K.state sink.new) (decimal n) result }
{
    let mut buffer = Buffer::new();
    write_all(sink, buffer.format(n).as_bytes())
}
