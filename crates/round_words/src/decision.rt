//! The words by which the count of a round is decided.
ghost use Rattle.std.specs.Prelude.{◌≡◌, ◌≢◌, ◌<◌, ◌≤◌, ◌-◌, ◌%◌};
ghost use Rattle.round_words.specs.Rule.{decision_word};

/// The two words of a core's exchange as it enters a round.
#[derive(Clone, Copy, PartialEq, Eq)]
pub struct DecisionWords {
    /// What the decision word holds where no core has entered the round: 0, or the word of four rounds
    /// before.
    pub expected: u64,
    /// What it holds once this core was the first.
    pub put: u64,
}

/// The words of a core that enters `round` and has seen `seen` events. In a round below 4 it expects 0.
/// From round 4 on it expects the word of `round - 4` with `used`, the count that it used there itself.
/// The word of round r with count d is `(r + 1) * 65536 + d`, so no round's word is 0.
pub fn decision_words(round: u32, used: u32, seen: u32) -> DecisionWords
    ensures first { round < 4 → result.expected ≡ 0 }
    ensures later { 4 ≤ round → result.expected ≡ decision_word (round - 4) used }
    ensures put { result.put ≡ decision_word round seen }
{
    let expected = if round < 4 {
        0
    } else {
        (round as u64 - 3) * 65536 + used as u64
    };
    DecisionWords {
        expected,
        put: (round as u64 + 1) * 65536 + seen as u64,
    }
}

// The round's count, by the word that the exchange found: where it found what it expected, the core was the
// first, and the count is what it has seen.
pub(crate) fn count_of(found: u64, expected: u64, seen: u32) -> u32
    ensures won { found ≡ expected → result ≡ seen }
    ensures lost { found ≢ expected → result ≡ found % 65536 }
{
    if found == expected {
        seen
    } else {
        (found % 65536) as u32
    }
}
