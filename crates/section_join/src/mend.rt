ghost use Rattle.std.specs.Prelude.{◌≡◌, ◌<◌, ◌^◌, codes, length};
ghost use Rattle.tab_io.specs.Sinks.{Writes};
ghost use Rattle.tab_words.specs.Lines.{lines_of};
ghost use Rattle.section_join.specs.Mended.{ends_in_return, first_cut, is_cut, lacks_feed, mended, mended_line, returns_in, without_return};

use tab_io::{Sink, WriteFault, write_all};
use tab_words::{Lines, TextPiece, put_pieces};

/// The first line of a text of less than 2^31 bytes that is `%%`, from 1, where a carriage return at its
/// end doesn't count. Such a text can't be a section.
pub fn first_cut(bytes: &[u8]) -> Option<u32>
    requires { length bytes.now < 2 ^ 31 }
    ensures { result ≡ first_cut (lines_of bytes.now) }
{
    let mut number = 0;
    for line in Lines::over(bytes) {
        number += 1;
        if is_cut(line) {
            return Some(number);
        }
    }
    None
}

/// How many lines of a text of less than 2^31 bytes end in a carriage return.
pub fn returns_in(bytes: &[u8]) -> u32
    requires { length bytes.now < 2 ^ 31 }
    ensures { result ≡ returns_in bytes.now }
{
    let mut count = 0;
    for line in Lines::over(bytes) {
        if ends_in_return(line) {
            count += 1;
        }
    }
    count
}

/// Whether the last line of a text has no line feed.
pub fn lacks_feed(bytes: &[u8]) -> bool
    ensures { result ≡ lacks_feed bytes.now }
{
    !bytes.is_empty() && bytes[bytes.len() - 1] != b'\n'
}

/// Writes a text with mended line ends: each line, the last one too, ends in a line feed, without the
/// carriage return before it, if there is one.
///
/// A fault leaves a prefix of the text in the sink. Nothing is settled.
pub fn write_mended<K: Sink>(sink: &mut K, bytes: &[u8]) -> Result<(), WriteFault>
    ensures { Writes (K.state sink.old) (K.state sink.new) (mended bytes.now) result }
{
    for line in Lines::over(bytes) {
        if let Err(fault) = put_line(sink, line) {
            return Err(fault);
        }
    }
    Ok(())
}

/// Writes the line `%%` that parts two sections.
///
/// A fault leaves a prefix of it in the sink. Nothing is settled.
pub fn write_separator<K: Sink>(sink: &mut K) -> Result<(), WriteFault>
    ensures { Writes (K.state sink.old) (K.state sink.new) (codes "%%\n") result }
{
    write_all(sink, b"%%\n")
}

fn put_line<K: Sink>(sink: &mut K, line: &[u8]) -> Result<(), WriteFault>
    ensures { Writes (K.state sink.old) (K.state sink.new) (mended_line line.now) result }
{
    put_pieces(
        sink,
        &[
            TextPiece::Text(without_return(line)),
            TextPiece::Text(b"\n"),
        ],
    )
}

fn is_cut(line: &[u8]) -> bool
    ensures { result ≡ is_cut line.now }
{
    without_return(line) == b"%%".as_slice()
}

fn ends_in_return(line: &[u8]) -> bool
    ensures { result ≡ ends_in_return line.now }
{
    !line.is_empty() && line[line.len() - 1] == b'\r'
}

fn without_return(line: &[u8]) -> &[u8]
    ensures { result.now ≡ without_return line.now }
{
    if ends_in_return(line) {
        &line[..line.len() - 1]
    } else {
        line
    }
}
