ghost use Rattle.std.specs.Prelude.{◌≡◌, ◌≢◌, ◌<◌, ◌∷◌, length, slice_index};
ghost use Rattle.std.specs.Iterator.{YieldsFirstRef, item_count};
ghost use Rattle.tab_words.specs.Words.{words_of};

use std::marker::Model;

/// The words of a line, one after the other. Contracts see the list of the words that are left.
///
/// The words are the maximal runs of bytes other than space. A tab or a carriage return belongs to
/// its word.
#[derive(Drop)]
pub struct Words<'a> {
    rest: &'a [u8],
}

impl<'a> Model for Words<'a> {
    ghost use Rattle.std.specs.Prelude.{ℕ, List};
    ghost use Rattle.tab_words.specs.Words.{words_of};

    ghost Value = { List (List ℕ) };

    ghost view = { λ words. words_of words.rest.now };
}

impl<'a> Words<'a> {
    /// The words of this line, from the first on.
    pub fn of(line: &'a [u8]) -> Words<'a>
        ensures { result ≡ words_of line.now }
    {
        Words { rest: line }
    }
}

impl<'a> Iterator for Words<'a> {
    type Item = &'a [u8];

    ghost next_gives = { YieldsFirstRef (λ words. words) };

    ghost remaining = { item_count (λ words. words) };

    fn next(&mut self) -> Option<&'a [u8]> {
        let line = without_spaces(self.rest);
        if line.is_empty() {
            self.rest = line;
            return None;
        }
        let (word, rest) = first_word(line);
        self.rest = rest;
        Some(word)
    }
}

// The line from its first byte on that is no space.
fn without_spaces(line: &[u8]) -> &[u8]
    ensures words { words_of result.now ≡ words_of line.now }
    ensures first { 0 < length result.now → slice_index result.now 0 ≢ 32 }
{
    match line.iter().position(|byte| *byte != b' ') {
        Some(start) => &line[start..],
        None => &[],
    }
}

// The word that the line begins with, and what follows it.
fn first_word(line: &[u8]) -> (&[u8], &[u8])
    requires some { 0 < length line.now }
    requires first { slice_index line.now 0 ≢ 32 }
    ensures { words_of line.now ≡ result.0.now ∷ words_of result.1.now }
{
    match line.iter().position(|byte| *byte == b' ') {
        Some(end) => line.split_at(end),
        None => (line, &[]),
    }
}
