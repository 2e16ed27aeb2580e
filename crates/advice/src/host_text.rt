ghost use Rattle.std.specs.Prelude.{◌≡◌, ◌+◌, ◌<◌, ◌≤◌, ◌^◌, length, take};
ghost use Rattle.tab_io.specs.Sinks.{Writes};
ghost use Rattle.advice.specs.Places.{place_after, place_after_all};
ghost use Rattle.advice.specs.Hosts.{many_text, toml_text, toml_text_at};

use crate::key_lines::{line_part, vcpu_start};
use crate::line::line_at;
use crate::mistaken::{kind_of_text, kind_text};
use crate::part::{Part, put_parts};
use tab_io::{Sink, WriteFault};

// A place in a text: its line and its column, both from 1.
#[derive(Clone, Copy)]
pub(crate) struct Place {
    pub(crate) line: u32,
    pub(crate) column: u32,
}

// Writes the advice on a text that is no TOML from this byte on, as the reader's message says.
pub(crate) fn put_toml_fault<'a, K: Sink>(
    sink: &mut K,
    text: &'a [u8],
    at: usize,
    message: &'a [u8],
) -> Result<(), WriteFault>
    requires within { at ≤ length text.now }
    requires short { length text.now < 2 ^ 31 }
    ensures { Writes (K.state sink.old) (K.state sink.new) (toml_text text.now at message.now) result }
{
    put_toml_at(sink, text, place_at(text, at), message)
}

fn put_toml_at<'a, K: Sink>(
    sink: &mut K,
    text: &'a [u8],
    place: Place,
    message: &'a [u8],
) -> Result<(), WriteFault>
    ensures { Writes (K.state sink.old) (K.state sink.new) (toml_text_at text.now place message.now) result }
{
    let line = line_at(text, place.line);
    let kind = kind_of_text(text, line, message);
    put_parts(
        sink,
        &[
            Part::Text(b"tableau: host, line "),
            Part::Number(place.line),
            Part::Text(b", column "),
            Part::Number(place.column),
            Part::Text(b": "),
            Part::Text(message),
            Part::Text(b"\ntableau: "),
            Part::Quoted(line),
            Part::Text(b"; "),
            Part::Text(kind_text(kind)),
            Part::Text(b"\n"),
        ],
    )
}

// The place of a byte of a text.
fn place_at(text: &[u8], at: usize) -> Place
    requires within { at ≤ length text.now }
    requires short { length text.now < 2 ^ 31 }
    ensures { result ≡ place_after_all (take at text.now) }
{
    let (front, _) = text.split_at(at);
    place_behind(front)
}

// The place after these bytes of a text.
fn place_behind(front: &[u8]) -> Place
    requires { length front.now < 2 ^ 31 }
    ensures { result ≡ place_after_all front.now }
{
    let mut place = Place { line: 1, column: 1 };
    for byte in front {
        place = place_after(place, *byte);
    }
    place
}

// The place after one more byte.
fn place_after(place: Place, byte: u8) -> Place
    requires line { place.line + 1 < 2 ^ 32 }
    requires column { place.column + 1 < 2 ^ 32 }
    ensures { result ≡ place_after place byte }
{
    if byte == b'\n' {
        Place {
            line: place.line + 1,
            column: 1,
        }
    } else if 128 <= byte && byte <= 191 {
        place
    } else {
        Place {
            line: place.line,
            column: place.column + 1,
        }
    }
}

// Writes the advice on a host of so many vCPUs.
pub(crate) fn put_too_many<K: Sink>(
    sink: &mut K,
    section: &[u8],
    count: u32,
) -> Result<(), WriteFault>
    ensures { Writes (K.state sink.old) (K.state sink.new) (many_text section.now count) result }
{
    put_parts(
        sink,
        &[
            Part::Text(b"tableau: host"),
            line_part(vcpu_start(section, 256)),
            Part::Text(b": a host has at most 256 vCPUs, and this one "),
            Part::Number(count),
            Part::Text(b"; leave out "),
            Part::Number(count.saturating_sub(256)),
            Part::Text(b"\n"),
        ],
    )
}
