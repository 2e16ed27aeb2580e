ghost use Rattle.std.specs.Prelude.{◌≡◌, ◌<◌, ◌+◌, ◌∷◌, [], ◌^◌, ℕ, None, slice_index_or};
ghost use Rattle.std.specs.Option.{option_or};
ghost use Rattle.view_lanes.specs.Rounds.{AreUsed, first_round, rounds_shown, used_count_in};

use crate::frame::Frame;
use tab_core::ROUND;
use view_doc::Stretch;

/// How many rounds a frame shows, also in part.
pub fn rounds_shown(frame: &Frame) -> u64
    ensures { result ≡ rounds_shown frame.now }
{
    let last = u64::from(frame.to.saturating_sub(1) / ROUND) + 1;
    last.saturating_sub(u64::from(frame.from / ROUND))
}

/// The number of the first round that a frame shows, also in part.
pub fn first_round(frame: &Frame) -> u64
    ensures value { result ≡ first_round frame.now }
    ensures small { result < 2 ^ 32 }
{
    u64::from(frame.from / ROUND)
}

/// For each of the 24 rounds from round `first` on how many events its plan includes, and none where no
/// stretch begins in the round. The first round is below 2^32.
pub fn used_counts(stretches: &[Stretch], first: u64) -> [Option<u32>; 24]
    requires { first < 2 ^ 32 }
    ensures { AreUsed stretches.now first result }
{
    let mut counts = [None; 24];
    for stretch in stretches {
        put_used(&mut counts, first, stretch);
    }
    counts
}

// Puts the count that a stint says, if no other was put for the round in which it begins.
fn put_used(counts: &mut [Option<u32>; 24], first: u64, stretch: &Stretch)
    requires { first < 2 ^ 32 }
    ensures { (k : ℕ) → k < 24 → slice_index_or counts.new k None
        ≡ option_or (slice_index_or counts.old k None) (used_count_in (stretch.now ∷ []) (first + k)) }
{
    let round = u64::from(stretch.from / ROUND);
    if round < first || round - first >= 24 {
        return;
    }
    let k = (round - first) as usize;
    if counts[k].is_none() {
        counts[k] = Some(stretch.used);
    }
}
