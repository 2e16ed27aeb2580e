ghost use Rattle.std.specs.Prelude.{◌≡◌, ℕ, ◌<◌, ◌^◌, [], ◌∷◌, List, MatchOption, decimal};
ghost use Rattle.tab_core.specs.Name.{IsName};
ghost use Rattle.tab_core.specs.declared.TheConstants.{MAX_CORES};
ghost use Rattle.tab_words.specs.Texts.{Line};

use crate::numbers::small_number;
use tab_core::{CoreNo, MAX_CORES, Name};
use tab_words::{Words, read_core};

// Steps over this word, if it is the next.
pub(crate) fn take_word(words: &mut Words<'_>, word: &[u8]) -> Option<()>
    ensures { MatchOption result ((rest : Line) → words.old ≡ word.now ∷ rest → ⊥)
        (λ _. words.old ≡ word.now ∷ words.new) }
{
    if words.next()? == word {
        Some(())
    } else {
        None
    }
}

// Takes a number below 2^32, if it is the next word.
pub(crate) fn take_number(words: &mut Words<'_>) -> Option<u32>
    ensures { MatchOption result ((n : ℕ) (rest : Line) → n < 2 ^ 32 → words.old ≡ decimal n ∷ rest → ⊥)
        (λ n. (n < 2 ^ 32) × (words.old ≡ decimal n ∷ words.new)) }
{
    let word = words.next()?;
    small_number(word)
}

// Takes a core's number, if it is the next word.
pub(crate) fn take_core(words: &mut Words<'_>) -> Option<CoreNo>
    ensures { MatchOption result
        ((n : ℕ) (rest : Line) → n < MAX_CORES → words.old ≡ decimal n ∷ rest → ⊥)
        (λ n. (n < MAX_CORES) × (words.old ≡ decimal n ∷ words.new)) }
{
    let word = words.next()?;
    read_core(word, MAX_CORES)
}

// Takes a name, if it is the next word.
pub(crate) fn take_name<'a>(words: &mut Words<'a>) -> Option<&'a [u8]>
    ensures { MatchOption result
        ((name : List ℕ) (rest : Line) → IsName name → words.old ≡ name ∷ rest → ⊥)
        (λ name. IsName name.now × (words.old ≡ name.now ∷ words.new)) }
{
    let word = words.next()?;
    if Name::has_form(word) {
        Some(word)
    } else {
        None
    }
}

// Whether no word is left.
pub(crate) fn take_end(words: &mut Words<'_>) -> Option<()>
    ensures { MatchOption result (words.old ≡ [] → ⊥) (λ _. words.old ≡ []) }
{
    match words.next() {
        Some(_) => None,
        None => Some(()),
    }
}
