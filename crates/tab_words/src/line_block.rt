ghost use Rattle.std.specs.Prelude.{◌≡◌, [], ◌∷◌, ◌++◌, OnErr, OnOk, decimal, flat_map, length, map, take};
ghost use Rattle.tab_io.specs.Sinks.{Writes};
ghost use Rattle.tab_words.specs.Blocks.{PutsBehind};
ghost use Rattle.tab_words.specs.Pieces.{piece_text, spaced};
ghost use Rattle.tab_words.specs.Texts.{line_of};

use crate::digits::push_number;
use crate::text::{TextPiece, put_piece};
use arrayvec::{ArrayVec, CapacityError};
use itoa::Buffer;
use std::marker::Model;
use tab_io::{Sink, WriteFault, write_all};

// How many bytes are copied one by one at most.
const MOST_ONE_BY_ONE: usize = 12;

/// Lines that are gathered, up to this many bytes, and then written at once. Contracts see the bytes.
#[derive(Drop)]
pub struct LineBlock<const N: usize> {
    bytes: ArrayVec<u8, N>,
}

impl<const N: usize> Model for LineBlock<N> {
    ghost use Rattle.std.specs.Prelude.{ℕ, List};

    ghost Value = { List ℕ };

    ghost view = { λ block. block.bytes.items };
}

impl<const N: usize> LineBlock<N> {
    /// A block without lines.
    pub fn new() -> LineBlock<N>
        ensures { result ≡ [] }
    {
        LineBlock {
            bytes: ArrayVec::new(),
        }
    }

    /// Puts a line of these words after those in the block: one space between each two, and a line
    /// feed. Where it has no room there, all are written, and the block is left empty.
    ///
    /// A fault leaves a prefix of the lines in the sink. Nothing is settled.
    pub fn put_line<K: Sink>(
        &mut self,
        sink: &mut K,
        words: &[TextPiece<'_>],
    ) -> Result<(), WriteFault>
        ensures { PutsBehind (K.state sink.old) (K.state sink.new) self.old self.new
            (line_of (map piece_text words.now)) result }
    {
        if append(&mut self.bytes, words).is_ok() {
            return Ok(());
        }
        self.write(sink)?;
        self.bytes.clear();
        put_words(sink, words)
    }

    /// Writes the lines in the block.
    ///
    /// A fault leaves a prefix of the lines in the sink. Nothing is settled.
    pub fn write<K: Sink>(&self, sink: &mut K) -> Result<(), WriteFault>
        ensures { Writes (K.state sink.old) (K.state sink.new) self.now result }
    {
        write_all(sink, self.bytes.as_slice())
    }
}

/// Writes a line of these words: one space between each two, and a line feed.
///
/// A line of up to 128 bytes is written at once. A fault leaves a prefix of the line in the sink.
/// Nothing is settled.
pub fn put_line<K: Sink>(sink: &mut K, words: &[TextPiece<'_>]) -> Result<(), WriteFault>
    ensures { Writes (K.state sink.old) (K.state sink.new) (line_of (map piece_text words.now)) result }
{
    let mut block = LineBlock::<128>::new();
    block.put_line(sink, words)?;
    block.write(sink)
}

// Appends the line to the bytes, or nothing where there is no room.
fn append<const N: usize>(
    bytes: &mut ArrayVec<u8, N>,
    words: &[TextPiece<'_>],
) -> Result<(), CapacityError>
    ensures ok { OnOk result (bytes.new.items ≡ bytes.old.items ++ line_of (map piece_text words.now)) }
    ensures err { OnErr result (bytes.new.items ≡ bytes.old.items) }
{
    let before = bytes.len();
    let appended = gather(bytes, words);
    if appended.is_err() {
        bytes.truncate(before);
    }
    appended
}

// Appends the line, or a prefix of it where there is no room.
fn gather<const N: usize>(
    bytes: &mut ArrayVec<u8, N>,
    words: &[TextPiece<'_>],
) -> Result<(), CapacityError>
    ensures ok { OnOk result (bytes.new.items ≡ bytes.old.items ++ line_of (map piece_text words.now)) }
    ensures err { OnErr result (take (length bytes.old.items) bytes.new.items ≡ bytes.old.items) }
{
    let Some((word, more)) = words.split_first() else {
        return gather_byte(bytes, b'\n');
    };
    gather_word(bytes, word)?;
    gather_spaced(bytes, more)?;
    gather_byte(bytes, b'\n')
}

// Appends the words, each after a space, or a prefix of that where there is no room.
fn gather_spaced<const N: usize>(
    bytes: &mut ArrayVec<u8, N>,
    words: &[TextPiece<'_>],
) -> Result<(), CapacityError>
    ensures ok { OnOk result (bytes.new.items ≡ bytes.old.items ++ flat_map spaced words.now) }
    ensures err { OnErr result (take (length bytes.old.items) bytes.new.items ≡ bytes.old.items) }
{
    for word in words {
        gather_byte(bytes, b' ')?;
        gather_word(bytes, word)?;
    }
    Ok(())
}

fn gather_word<const N: usize>(
    bytes: &mut ArrayVec<u8, N>,
    word: &TextPiece<'_>,
) -> Result<(), CapacityError>
    ensures ok { OnOk result (bytes.new.items ≡ bytes.old.items ++ piece_text word.now) }
    ensures err { OnErr result (bytes.new.items ≡ bytes.old.items) }
{
    match word {
        TextPiece::Text(text) => gather_bytes(bytes, text),
        TextPiece::Number(n) => gather_number(bytes, u64::from(*n)),
        TextPiece::Wide(n) => gather_number(bytes, *n),
    }
}

fn gather_number<const N: usize>(bytes: &mut ArrayVec<u8, N>, n: u64) -> Result<(), CapacityError>
    ensures ok { OnOk result (bytes.new.items ≡ bytes.old.items ++ decimal n) }
    ensures err { OnErr result (bytes.new.items ≡ bytes.old.items) }
{
    if n < 1_000_000 && 6 <= bytes.remaining_capacity() {
        push_number(bytes, n as u32);
        return Ok(());
    }
    let mut buffer = Buffer::new();
    gather_bytes(bytes, buffer.format(n).as_bytes())
}

// Appends the bytes, if there is room. A copy of many costs less at once, and of few one by one.
fn gather_bytes<const N: usize>(
    bytes: &mut ArrayVec<u8, N>,
    text: &[u8],
) -> Result<(), CapacityError>
    ensures ok { OnOk result (bytes.new.items ≡ bytes.old.items ++ text.now) }
    ensures err { OnErr result (bytes.new.items ≡ bytes.old.items) }
{
    if text.len() > MOST_ONE_BY_ONE || text.len() > bytes.remaining_capacity() {
        return bytes.try_extend_from_slice(text);
    }
    for byte in text {
        bytes.push(*byte);
    }
    Ok(())
}

// Appends the byte, if there is room.
fn gather_byte<const N: usize>(bytes: &mut ArrayVec<u8, N>, byte: u8) -> Result<(), CapacityError>
    ensures ok { OnOk result (bytes.new.items ≡ bytes.old.items ++ byte ∷ []) }
    ensures err { OnErr result (bytes.new.items ≡ bytes.old.items) }
{
    if bytes.is_full() {
        return Err(CapacityError::new(()));
    }
    bytes.push(byte);
    Ok(())
}

// Writes the line word by word.
fn put_words<K: Sink>(sink: &mut K, words: &[TextPiece<'_>]) -> Result<(), WriteFault>
    ensures { Writes (K.state sink.old) (K.state sink.new) (line_of (map piece_text words.now)) result }
{
    let Some((word, more)) = words.split_first() else {
        return write_all(sink, b"\n");
    };
    put_piece(sink, word)?;
    put_spaced(sink, more)?;
    write_all(sink, b"\n")
}

// Writes the words, each after a space.
fn put_spaced<K: Sink>(sink: &mut K, words: &[TextPiece<'_>]) -> Result<(), WriteFault>
    ensures { Writes (K.state sink.old) (K.state sink.new) (flat_map spaced words.now) result }
{
    for word in words {
        put_space_and(sink, word)?;
    }
    Ok(())
}

fn put_space_and<K: Sink>(sink: &mut K, word: &TextPiece<'_>) -> Result<(), WriteFault>
    ensures { Writes (K.state sink.old) (K.state sink.new) (spaced word.now) result }
{
    write_all(sink, b" ")?;
    put_piece(sink, word)
}
