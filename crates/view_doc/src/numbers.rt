ghost use Rattle.std.specs.Prelude.{◌≡◌, ℕ, ◌<◌, ◌^◌, ◌↔◌, IsTrue, MatchOption, decimal};
ghost use Rattle.view_doc.specs.Items.{IsNumber};

use tab_words::read_number;

// The number below 2^32 that the word spells.
pub(crate) fn small_number(word: &[u8]) -> Option<u32>
    ensures { MatchOption result ((n : ℕ) → n < 2 ^ 32 → word.now ≡ decimal n → ⊥)
        (λ n. (n < 2 ^ 32) × (word.now ≡ decimal n)) }
{
    let number = read_number(word)?;
    if number <= u64::from(u32::MAX) {
        Some(number as u32)
    } else {
        None
    }
}

pub(crate) fn is_number(word: &[u8]) -> bool
    ensures { IsTrue result ↔ IsNumber word.now }
{
    read_number(word).is_some()
}
