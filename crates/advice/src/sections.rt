ghost use Rattle.std.specs.Prelude.{◌≡◌, ◌<◌, ◌^◌, length, option_map};
ghost use Rattle.tab_io.specs.Sinks.{Writes};
ghost use Rattle.tab_words.specs.Lines.{lines_of};
ghost use Rattle.advice.specs.Sections.{here_words, is_near, near_from, near_part, near_text, section_count_text, sections_text, wanted_texts};

use crate::part::{Part, put_parts};
use tab_io::{Sink, WriteFault};
use tab_words::Lines;

// Writes the advice on an input of this many sections where so many are wanted.
pub(crate) fn put_sections<K: Sink>(
    sink: &mut K,
    input: &[u8],
    found: u32,
    wanted: u32,
) -> Result<(), WriteFault>
    requires { length input.now < 2 ^ 32 }
    ensures { Writes (K.state sink.old) (K.state sink.new) (sections_text input.now found wanted) result }
{
    if let Err(fault) = put_counts(sink, found, wanted) {
        return Err(fault);
    }
    put_near_line(sink, input)
}

// Writes the first line that may have been meant to part two texts, if there is one.
#[tactic(auto, using(tab_io::proofs::SinkLemmas::writes_nothing))]
fn put_near_line<K: Sink>(sink: &mut K, input: &[u8]) -> Result<(), WriteFault>
    requires { length input.now < 2 ^ 32 }
    ensures { Writes (K.state sink.old) (K.state sink.new) (near_part (near_from 1 (lines_of input.now))) result }
{
    match near_in(input) {
        None => Ok(()),
        Some((number, line)) => put_near(sink, number, line),
    }
}

fn put_counts<K: Sink>(sink: &mut K, found: u32, wanted: u32) -> Result<(), WriteFault>
    ensures { Writes (K.state sink.old) (K.state sink.new) (section_count_text found wanted) result }
{
    put_parts(
        sink,
        &[
            Part::Text(b"tableau: "),
            Part::Number(wanted),
            Part::Text(wanted_texts(wanted)),
            Part::Text(here_words(found)),
            Part::Number(found),
            Part::Text(b"\n"),
        ],
    )
}

fn put_near<K: Sink>(sink: &mut K, number: u32, line: &[u8]) -> Result<(), WriteFault>
    ensures { Writes (K.state sink.old) (K.state sink.new) (near_text number line.now) result }
{
    put_parts(
        sink,
        &[
            Part::Text(b"tableau: line "),
            Part::Number(number),
            Part::Text(b", "),
            Part::Quoted(line),
            Part::Text(
                b", isn't exactly %%; the line before may be missing its line feed, or this one end in CR LF\n",
            ),
        ],
    )
}

// Which texts so many are.
fn wanted_texts(wanted: u32) -> &'static [u8]
    ensures { result.now ≡ wanted_texts wanted }
{
    if wanted == 1 {
        b" text is wanted, a host, and no line %%"
    } else if wanted == 3 {
        b" texts are wanted, a line %% between each two: a host, a script and a list of steps"
    } else {
        b" texts are wanted, a line %% between them: a host and a plan text for check and plan stay, a host and a script for run"
    }
}

// What is before the count of the texts that there are.
fn here_words(found: u32) -> &'static [u8]
    ensures { result.now ≡ here_words found }
{
    if found == 1 {
        b"; here is "
    } else {
        b"; here are "
    }
}

// The first line, with its number from 1, that looks like a separator and is none.
fn near_in(input: &[u8]) -> Option<(u32, &[u8])>
    requires { length input.now < 2 ^ 32 }
    ensures { option_map (λ near. (near.0, near.1.now)) result ≡ near_from 1 (lines_of input.now) }
{
    let mut number = 0u32;
    for line in Lines::over(input) {
        number += 1;
        if is_near(line) {
            return Some((number, line));
        }
    }
    None
}

// Whether the line begins or ends like a separator and is none.
fn is_near(line: &[u8]) -> bool
    ensures { result ≡ is_near line.now }
{
    (line.starts_with(b"%%") || line.ends_with(b"%%")) && line != b"%%".as_slice()
}
