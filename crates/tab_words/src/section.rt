ghost use Rattle.std.specs.Prelude.{◌≡◌, ◌+◌, ◌^◌, ◌<◌, ◌≤◌, [], ◌∷◌, drop, length, take, IfSome, MatchOption, slice_index_or};
ghost use Rattle.tab_words.specs.Sections.{is_separator, sections_of};
ghost use Rattle.tab_words.specs.Inside.Fronts.{sections_after};

use crate::line::first_line;
use memchr::memchr;
use std::marker::Model;

/// The sections of a text, which separators part. Contracts see the list of their bytes.
///
/// A separator is a line that is exactly `%%`, ended by a line feed or by the end of the text. It
/// belongs to no section. A text without one is one section.
#[derive(Drop)]
pub struct Sections<'a> {
    bytes: &'a [u8],
    count: u32,
}

impl<'a> Model for Sections<'a> {
    ghost use Rattle.std.specs.Prelude.{◌≡◌, ℕ, List, length};
    ghost use Rattle.tab_words.specs.Sections.{sections_of};

    ghost Value = { List (List ℕ) };

    ghost view = { λ sections. sections_of sections.bytes.now };

    ghost invariant = { λ sections. sections.count ≡ length (sections_of sections.bytes.now) };
}

impl<'a> Sections<'a> {
    /// How many sections there are, which is at least one.
    pub fn count(&self) -> u32
        ensures { result ≡ length self.now }
    {
        self.count
    }

    /// The bytes of the section of this number, from 0. The number is below the count.
    pub fn part(&self, i: u32) -> &'a [u8]
        requires { i < length self.now }
        ensures { result.now ≡ slice_index_or self.now i [] }
    {
        let mut rest = self.bytes;
        for _ in 0..i {
            let (_, after) = first_section(rest);
            if let Some(more) = after {
                rest = more;
            }
        }
        let (part, _) = first_section(rest);
        part
    }
}

/// Cuts a text of less than 2^32 bytes into its sections.
pub fn cut_sections(bytes: &[u8]) -> Sections<'_>
    requires { length bytes.now < 2 ^ 32 }
    ensures { result ≡ sections_of bytes.now }
{
    let mut count = 1;
    let mut rest = bytes;
    while let (_, Some(more)) = first_section(rest) {
        count += 1;
        rest = more;
    }
    Sections { bytes, count }
}

// The first section, and what follows the separator that ends it, if one does, which has two bytes
// at least.
fn first_section(bytes: &[u8]) -> (&[u8], Option<&[u8]>)
    ensures sections { MatchOption result.1 (sections_of bytes.now ≡ result.0.now ∷ [])
        (λ rest. sections_of bytes.now ≡ result.0.now ∷ sections_of rest.now) }
    ensures shorter { IfSome result.1 (λ rest. length rest.now + 2 ≤ length bytes.now) }
{
    let mut at = plain_length(bytes);
    while at < bytes.len() {
        let (before, rest) = bytes.split_at(at);
        let (line, after) = first_line(rest);
        if is_separator(line) {
            return (before, Some(after));
        }
        at += line.len() + plain_length(after);
    }
    (bytes, None)
}

// How many bytes at the start begin no separator: all but the byte before the first `%`, and what
// follows. They belong to the first section.
fn plain_length(bytes: &[u8]) -> usize
    ensures within { result ≤ length bytes.now }
    ensures sections { sections_of bytes.now
        ≡ sections_after (take result bytes.now) (sections_of (drop result bytes.now)) }
{
    match memchr(b'%', bytes) {
        Some(place) => place.saturating_sub(1),
        None => bytes.len(),
    }
}

fn is_separator(line: &[u8]) -> bool
    ensures { result ≡ is_separator line.now }
{
    line == b"%%\n".as_slice() || line == b"%%".as_slice()
}
