ghost use Rattle.std.specs.Prelude.{◌≡◌, ◌≢◌, ℕ, ◌<◌, ◌^◌, ◌++◌, [], ◌∷◌, List, MatchOption, codes, decimal};
ghost use Rattle.tab_core.specs.Name.{IsName};
ghost use Rattle.tab_words.specs.Texts.{Line};

use tab_core::Name;
use tab_words::{Words, read_number};

// Steps over this word, if it is the next.
pub(crate) fn step_over(words: &mut Words<'_>, word: &[u8]) -> Option<()>
    ensures { MatchOption result ((rest : Line) → words.old ≡ word.now ∷ rest → ⊥)
        (λ _. words.old ≡ word.now ∷ words.new) }
{
    if words.next()? == word {
        Some(())
    } else {
        None
    }
}

// The number below 2^32 that the word spells.
fn number_in(word: &[u8]) -> Option<u32>
    ensures { MatchOption result ((n : ℕ) → n < 2 ^ 32 → word.now ≡ decimal n → ⊥)
        (λ n. (n < 2 ^ 32) × (word.now ≡ decimal n)) }
{
    let number = read_number(word)?;
    if number <= u64::from(u32::MAX) {
        Some(number as u32)
    } else {
        None
    }
}

// Takes a number below 2^32, if it is the next word.
pub(crate) fn next_number(words: &mut Words<'_>) -> Option<u32>
    ensures { MatchOption result ((n : ℕ) (rest : Line) → n < 2 ^ 32 → words.old ≡ decimal n ∷ rest → ⊥)
        (λ n. (n < 2 ^ 32) × (words.old ≡ decimal n ∷ words.new)) }
{
    let word = words.next()?;
    number_in(word)
}

// Takes a number below 2^32 after a word, if these are the next two.
pub(crate) fn number_after(words: &mut Words<'_>, word: &[u8]) -> Option<u32>
    ensures { MatchOption result
        ((n : ℕ) (rest : Line) → n < 2 ^ 32 → words.old ≡ word.now ∷ decimal n ∷ rest → ⊥)
        (λ n. (n < 2 ^ 32) × (words.old ≡ word.now ∷ decimal n ∷ words.new)) }
{
    step_over(words, word)?;
    let number = next_number(words)?;
    Some(number)
}

// The word without the colon that ends it.
fn before_colon(word: &[u8]) -> Option<&[u8]>
    ensures { MatchOption result ((prefix : List ℕ) → word.now ≢ prefix ++ codes ":")
        (λ prefix. word.now ≡ prefix.now ++ codes ":") }
{
    word.strip_suffix(b":")
}

// Takes a tick with a colon after it, if that is the next word.
pub(crate) fn next_tick(words: &mut Words<'_>) -> Option<u32>
    ensures { MatchOption result
        ((n : ℕ) (rest : Line) → n < 2 ^ 32 → words.old ≡ (decimal n ++ codes ":") ∷ rest → ⊥)
        (λ n. (n < 2 ^ 32) × (words.old ≡ (decimal n ++ codes ":") ∷ words.new)) }
{
    let word = words.next()?;
    let digits = before_colon(word)?;
    let tick = number_in(digits)?;
    Some(tick)
}

// Takes a name, if it is the next word.
pub(crate) fn next_name<'a>(words: &mut Words<'a>) -> Option<&'a [u8]>
    ensures { MatchOption result
        ((name : List ℕ) (rest : Line) → IsName name → words.old ≡ name ∷ rest → ⊥)
        (λ name. IsName name.now × (words.old ≡ name.now ∷ words.new)) }
{
    let word = words.next()?;
    if Name::has_form(word) {
        Some(word)
    } else {
        None
    }
}

// Whether no word is left.
pub(crate) fn no_more(words: &mut Words<'_>) -> Option<()>
    ensures { MatchOption result (words.old ≡ [] → ⊥) (λ _. words.old ≡ []) }
{
    match words.next() {
        Some(_) => None,
        None => Some(()),
    }
}
