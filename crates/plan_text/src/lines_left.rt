ghost use Rattle.std.specs.Prelude.{◌≡◌, ◌+◌, ◌<◌, ◌^◌, [], ◌∷◌, IsErrOf, MatchOption, OnOk, length, map, ℕ};
ghost use Rattle.tab_words.specs.Lines.{lines_of};
ghost use Rattle.tab_words.specs.Pieces.{piece_text};
ghost use Rattle.tab_words.specs.Words.{words_of};
ghost use Rattle.tab_words.specs.Texts.{worded};
ghost use Rattle.plan_text.specs.Inside.Reading.{IsOtherLine};
ghost use Rattle.plan_text.specs.declared.read_fault.ReadPlan.{ReadPlan};

use crate::line_words::has_words;
use crate::read_fault::ReadPlan;
use std::marker::Model;
use tab_words::TextPiece;

// The lines of a text that are left, and the number of the first of them. Contracts see the lines'
// words.
#[derive(Drop)]
pub(crate) struct LinesLeft<'a> {
    bytes: &'a [u8],
    number: u32,
}

impl<'a> Model for LinesLeft<'a> {
    ghost use Rattle.std.specs.Prelude.{◌+◌, ◌<◌, ◌^◌, length};
    ghost use Rattle.plan_text.specs.Inside.Reading.{TextLeft};
    ghost use Rattle.tab_words.specs.Texts.{worded};

    ghost Value = { TextLeft };

    ghost view = { λ left. record { lines = worded left.bytes.now; number = left.number } };

    ghost invariant = { λ left. left.number + length (worded left.bytes.now) < 2 ^ 32 };
}

impl<'a> LinesLeft<'a> {
    // The lines of these bytes, of which the first has this number.
    pub(crate) fn from(bytes: &'a [u8], number: u32) -> LinesLeft<'a>
        requires few { number + length (worded bytes.now) < 2 ^ 32 }
        ensures lines { result.lines ≡ worded bytes.now }
        ensures number { result.number ≡ number }
    {
        LinesLeft { bytes, number }
    }

    pub(crate) fn bytes(&self) -> &'a [u8]
        ensures { worded result.now ≡ self.now.lines }
    {
        self.bytes
    }

    pub(crate) fn copied(&self) -> LinesLeft<'a>
        ensures { result ≡ self.now }
    {
        LinesLeft {
            bytes: self.bytes,
            number: self.number,
        }
    }

    // The first line, and the bytes after it.
    pub(crate) fn first(&self) -> Option<(&'a [u8], &'a [u8])>
        ensures { MatchOption result (self.now.lines ≡ [])
            (λ parts. self.now.lines ≡ words_of parts.0.now ∷ worded parts.1.now) }
    {
        first_line(self.bytes)
    }

    // Steps over the first line, after which these bytes are.
    pub(crate) fn step_to(&mut self, behind: &'a [u8])
        requires { length self.old.lines ≡ length (worded behind.now) + 1 }
        ensures lines { self.new.lines ≡ worded behind.now }
        ensures number { self.new.number ≡ self.old.number + 1 }
    {
        self.bytes = behind;
        self.number += 1;
    }

    // The fault of the first line, or of the place after the last.
    pub(crate) fn bad_line(&self) -> ReadPlan
        ensures { result ≡ ReadPlan.BadLine self.now.number }
    {
        ReadPlan::BadLine { line: self.number }
    }

    // Steps over the first line, if it has exactly these words.
    pub(crate) fn take(&mut self, words: &[TextPiece<'_>]) -> Result<(), ReadPlan>
        ensures ok { OnOk result (self.old.lines ≡ map piece_text words.now ∷ self.new.lines) }
        ensures number { OnOk result (self.new.number ≡ self.old.number + 1) }
        ensures bad_line { (bad : ℕ) → IsErrOf result (ReadPlan.BadLine bad)
            → (bad ≡ self.old.number) × IsOtherLine (map piece_text words.now) self.old.lines }
    {
        let Some((line, behind)) = self.first() else {
            return Err(self.bad_line());
        };
        if !has_words(line, words) {
            return Err(self.bad_line());
        }
        self.step_to(behind);
        Ok(())
    }
}

// The first line of the bytes, without the line feed that ends it, and the bytes after that.
pub(crate) fn first_line(bytes: &[u8]) -> Option<(&[u8], &[u8])>
    ensures { MatchOption result (lines_of bytes.now ≡ [])
        (λ parts. lines_of bytes.now ≡ parts.0.now ∷ lines_of parts.1.now) }
{
    if bytes.is_empty() {
        return None;
    }
    match bytes.iter().position(|byte| *byte == b'\n') {
        Some(end) => Some((&bytes[..end], &bytes[end + 1..])),
        None => Some((bytes, &[])),
    }
}
