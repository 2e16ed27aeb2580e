ghost use Rattle.std.specs.Prelude.{◌≡◌, ◌≤◌, flat_map, length, take};
ghost use Rattle.tab_io.specs.Sinks.{Writes};
ghost use Rattle.advice.specs.Parts.{end_of_quote, line_text, part_text, quoted, rest_of_quote, shown_byte};

use tab_io::{Sink, WriteFault, write_all};
use tab_words::{put_number, put_numbered};

// A part of an advice.
#[derive(Clone, Copy)]
pub(crate) enum Part<'a> {
    // These bytes.
    Text(&'a [u8]),
    // The number's decimal digits.
    Number(u32),
    // The decimal digits of a wide number.
    Wide(u64),
    // A word or a line of somebody else.
    Quoted(&'a [u8]),
    // The number of a line, from 1, and that line.
    Line(u32, &'a [u8]),
}

// How many bytes of a word or a line are quoted.
const SHOWN: usize = 60;

// Writes the parts, one after the other.
pub(crate) fn put_parts<K: Sink>(sink: &mut K, parts: &[Part<'_>]) -> Result<(), WriteFault>
    ensures { Writes (K.state sink.old) (K.state sink.new) (flat_map part_text parts.now) result }
{
    for part in parts {
        put_part(sink, part)?;
    }
    Ok(())
}

fn put_part<K: Sink>(sink: &mut K, part: &Part<'_>) -> Result<(), WriteFault>
    ensures { Writes (K.state sink.old) (K.state sink.new) (part_text part.now) result }
{
    match part {
        Part::Text(bytes) => write_all(sink, bytes),
        Part::Number(n) => put_number(sink, u64::from(*n)),
        Part::Wide(n) => put_number(sink, *n),
        Part::Quoted(bytes) => put_quoted(sink, bytes),
        Part::Line(number, line) => put_line(sink, *number, line),
    }
}

fn put_line<K: Sink>(sink: &mut K, number: u32, line: &[u8]) -> Result<(), WriteFault>
    ensures { Writes (K.state sink.old) (K.state sink.new) (line_text number line.now) result }
{
    if let Err(fault) = put_numbered(sink, b", line ", number, b", ") {
        return Err(fault);
    }
    put_quoted(sink, line)
}

fn put_quoted<K: Sink>(sink: &mut K, bytes: &[u8]) -> Result<(), WriteFault>
    ensures { Writes (K.state sink.old) (K.state sink.new) (quoted bytes.now) result }
{
    if let Err(fault) = write_all(sink, b"'") {
        return Err(fault);
    }
    put_rest(sink, bytes)
}

// Writes what is after the first quote.
fn put_rest<K: Sink>(sink: &mut K, bytes: &[u8]) -> Result<(), WriteFault>
    ensures { Writes (K.state sink.old) (K.state sink.new) (rest_of_quote bytes.now) result }
{
    if let Err(fault) = put_front(sink, bytes) {
        return Err(fault);
    }
    put_end(sink, bytes)
}

fn put_front<K: Sink>(sink: &mut K, bytes: &[u8]) -> Result<(), WriteFault>
    ensures { Writes (K.state sink.old) (K.state sink.new) (flat_map shown_byte (take 60 bytes.now)) result }
{
    put_shown(sink, front_of(bytes))
}

fn front_of(bytes: &[u8]) -> &[u8]
    ensures { result.now ≡ take 60 bytes.now }
{
    if bytes.len() > SHOWN {
        first_bytes(bytes)
    } else {
        bytes
    }
}

fn first_bytes(bytes: &[u8]) -> &[u8]
    requires { 60 ≤ length bytes.now }
    ensures { result.now ≡ take 60 bytes.now }
{
    let (front, _) = bytes.split_at(SHOWN);
    front
}

fn put_end<K: Sink>(sink: &mut K, bytes: &[u8]) -> Result<(), WriteFault>
    ensures { Writes (K.state sink.old) (K.state sink.new) (end_of_quote bytes.now) result }
{
    write_all(sink, end_of_quote(bytes))
}

// What ends a quote.
fn end_of_quote(bytes: &[u8]) -> &'static [u8]
    ensures { result.now ≡ end_of_quote bytes.now }
{
    if bytes.len() > SHOWN { b"..'" } else { b"'" }
}

fn put_shown<K: Sink>(sink: &mut K, bytes: &[u8]) -> Result<(), WriteFault>
    ensures { Writes (K.state sink.old) (K.state sink.new) (flat_map shown_byte bytes.now) result }
{
    for byte in bytes {
        put_byte(sink, *byte)?;
    }
    Ok(())
}

fn put_byte<K: Sink>(sink: &mut K, byte: u8) -> Result<(), WriteFault>
    ensures { Writes (K.state sink.old) (K.state sink.new) (shown_byte byte) result }
{
    if 32 <= byte && byte <= 126 {
        write_all(sink, &[byte])
    } else {
        write_all(sink, b"?")
    }
}
