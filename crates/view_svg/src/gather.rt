ghost use Rattle.std.specs.Prelude.{◌≡◌, ◌++◌, OnOk, decimal, flat_map};
ghost use Rattle.tab_io.specs.Sinks.{Writes};
ghost use Rattle.tab_words.specs.Pieces.{piece_text};

use arrayvec::{ArrayVec, CapacityError};
use itoa::Buffer;
use tab_io::{Sink, WriteFault, write_all};
use tab_words::{TextPiece, push_number, put_pieces};

// How many bytes are gathered at most.
const MOST: usize = 160;

// Writes the pieces, one after the other, with nothing between them: at once, where they are short.
pub(crate) fn put_at_once<K: Sink>(sink: &mut K, pieces: &[TextPiece<'_>]) -> Result<(), WriteFault>
    ensures { Writes (K.state sink.old) (K.state sink.new) (flat_map piece_text pieces.now) result }
{
    let mut bytes = ArrayVec::<u8, MOST>::new();
    if gather(&mut bytes, pieces).is_ok() {
        return write_all(sink, bytes.as_slice());
    }
    put_pieces(sink, pieces)
}

// Appends the pieces, or a prefix of them where there is no room.
fn gather<const N: usize>(
    bytes: &mut ArrayVec<u8, N>,
    pieces: &[TextPiece<'_>],
) -> Result<(), CapacityError>
    ensures { OnOk result (bytes.new.items ≡ bytes.old.items ++ flat_map piece_text pieces.now) }
{
    for piece in pieces {
        gather_piece(bytes, piece)?;
    }
    Ok(())
}

fn gather_piece<const N: usize>(
    bytes: &mut ArrayVec<u8, N>,
    piece: &TextPiece<'_>,
) -> Result<(), CapacityError>
    ensures { OnOk result (bytes.new.items ≡ bytes.old.items ++ piece_text piece.now) }
{
    match piece {
        TextPiece::Text(text) => gather_bytes(bytes, text),
        TextPiece::Number(n) => gather_number(bytes, u64::from(*n)),
        TextPiece::Wide(n) => gather_number(bytes, *n),
    }
}

fn gather_number<const N: usize>(bytes: &mut ArrayVec<u8, N>, n: u64) -> Result<(), CapacityError>
    ensures { OnOk result (bytes.new.items ≡ bytes.old.items ++ decimal n) }
{
    if n < 1_000_000 && 6 <= bytes.remaining_capacity() {
        push_number(bytes, n as u32);
        return Ok(());
    }
    let mut buffer = Buffer::new();
    gather_bytes(bytes, buffer.format(n).as_bytes())
}

// Appends the bytes, if there is room. A single one is the most frequent.
fn gather_bytes<const N: usize>(
    bytes: &mut ArrayVec<u8, N>,
    text: &[u8],
) -> Result<(), CapacityError>
    ensures { OnOk result (bytes.new.items ≡ bytes.old.items ++ text.now) }
{
    if text.len() == 1 && !bytes.is_full() {
        bytes.push(text[0]);
        return Ok(());
    }
    bytes.try_extend_from_slice(text)
}
