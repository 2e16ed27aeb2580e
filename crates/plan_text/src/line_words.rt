ghost use Rattle.std.specs.Prelude.{◌≡◌, ◌↔◌, ◌++◌, IsTrue, List, MatchOption, ℕ, decimal, map};
ghost use Rattle.tab_words.specs.Pieces.{piece_text};
ghost use Rattle.tab_words.specs.Words.{words_of};

use tab_words::{TextPiece, Words, read_number};

// Whether the line has exactly these words.
pub(crate) fn has_words(line: &[u8], expected: &[TextPiece<'_>]) -> bool
    ensures { IsTrue result ↔ (words_of line.now ≡ map piece_text expected.now) }
{
    match words_behind(line, expected) {
        Some(mut words) => words.next().is_none(),
        None => false,
    }
}

// The words after these, where the line begins with them.
pub(crate) fn words_behind<'a>(line: &'a [u8], expected: &[TextPiece<'_>]) -> Option<Words<'a>>
    ensures { MatchOption result
        ((rest : List (List ℕ)) → words_of line.now ≡ map piece_text expected.now ++ rest → ⊥)
        (λ words. words_of line.now ≡ map piece_text expected.now ++ words) }
{
    let mut words = Words::of(line);
    for piece in expected {
        let Some(word) = words.next() else {
            return None;
        };
        if !is_word_of(word, piece) {
            return None;
        }
    }
    Some(words)
}

fn is_word_of(word: &[u8], piece: &TextPiece<'_>) -> bool
    ensures { IsTrue result ↔ (word.now ≡ piece_text piece.now) }
{
    match piece {
        TextPiece::Text(bytes) => word == *bytes,
        TextPiece::Number(n) => is_number(word, u64::from(*n)),
        TextPiece::Wide(n) => is_number(word, *n),
    }
}

fn is_number(word: &[u8], n: u64) -> bool
    ensures { IsTrue result ↔ (word.now ≡ decimal n) }
{
    match read_number(word) {
        Some(number) => number == n,
        None => false,
    }
}
