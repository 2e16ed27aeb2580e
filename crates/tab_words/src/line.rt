ghost use Rattle.std.specs.Prelude.{◌≡◌, ◌<◌, ◌≤◌, ◌∷◌, ◌++◌, length};
ghost use Rattle.std.specs.Iterator.{YieldsFirstRef, item_count};
ghost use Rattle.tab_words.specs.Lines.{lines_of, raw_lines_of, without_feed};

use memchr::memchr;
use std::marker::Model;

/// The lines of a text, one after the other. Contracts see the list of the lines that are left.
///
/// A line ends at a line feed, which is no part of it. A last line without one counts if it isn't
/// empty. Every other byte belongs to its line, a carriage return too.
#[derive(Drop)]
pub struct Lines<'a> {
    rest: &'a [u8],
    // whether the last line was a long one
    long: bool,
}

// Lines of more bytes are long.
const LONG: usize = 32;

impl<'a> Model for Lines<'a> {
    ghost use Rattle.std.specs.Prelude.{ℕ, List};
    ghost use Rattle.tab_words.specs.Lines.{lines_of};

    ghost Value = { List (List ℕ) };

    ghost view = { λ lines. lines_of lines.rest.now };
}

impl<'a> Lines<'a> {
    /// The lines of these bytes, of which there are no more than bytes.
    pub fn over(bytes: &'a [u8]) -> Lines<'a>
        ensures lines { result ≡ lines_of bytes.now }
        ensures few { length result ≤ length bytes.now }
    {
        Lines {
            rest: bytes,
            long: false,
        }
    }
}

impl<'a> Iterator for Lines<'a> {
    type Item = &'a [u8];

    ghost next_gives = { YieldsFirstRef (λ lines. lines) };

    ghost remaining = { item_count (λ lines. lines) };

    #[tactic(auto, using(crate::proofs::LineLemmas::first_without_feed))]
    fn next(&mut self) -> Option<&'a [u8]> {
        if self.rest.is_empty() {
            return None;
        }
        let (line, rest) = line_by(self.rest, self.long);
        self.long = line.len() > LONG;
        self.rest = rest;
        Some(without_feed(line))
    }
}

// The first line with the line feed that ends it, if one does, and what follows.
pub(crate) fn first_line(bytes: &[u8]) -> (&[u8], &[u8])
    requires { 0 < length bytes.now }
    ensures lines { raw_lines_of bytes.now ≡ result.0.now ∷ raw_lines_of result.1.now }
    ensures some { 0 < length result.0.now }
    ensures parts { bytes.now ≡ result.0.now ++ result.1.now }
{
    match bytes.iter().position(|byte| *byte == b'\n') {
        Some(end) => bytes.split_at(end + 1),
        None => (bytes, &[]),
    }
}

// The first line with the line feed that ends it, and what follows, where the line is likely to be
// long: the line feed is sought in many bytes at a time.
fn long_line(bytes: &[u8]) -> (&[u8], &[u8])
    requires { 0 < length bytes.now }
    ensures lines { raw_lines_of bytes.now ≡ result.0.now ∷ raw_lines_of result.1.now }
    ensures some { 0 < length result.0.now }
    ensures parts { bytes.now ≡ result.0.now ++ result.1.now }
{
    match memchr(b'\n', bytes) {
        Some(end) => bytes.split_at(end + 1),
        None => (bytes, &[]),
    }
}

// The first line by one of the two. Only speed depends on which.
fn line_by(bytes: &[u8], long: bool) -> (&[u8], &[u8])
    requires { 0 < length bytes.now }
    ensures lines { raw_lines_of bytes.now ≡ result.0.now ∷ raw_lines_of result.1.now }
    ensures some { 0 < length result.0.now }
    ensures parts { bytes.now ≡ result.0.now ++ result.1.now }
{
    if long {
        long_line(bytes)
    } else {
        first_line(bytes)
    }
}

fn without_feed(line: &[u8]) -> &[u8]
    ensures { result.now ≡ without_feed line.now }
{
    line.strip_suffix(b"\n").unwrap_or(line)
}
