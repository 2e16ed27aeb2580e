ghost use Rattle.std.specs.Prelude.{◌≡◌, ◌*◌, ◌/◌, ◌<◌, ◌≤◌, length, true};
ghost use Rattle.tab_core.specs.declared.TheConstants.{ROUND};
ghost use Rattle.edf_table.specs.Inside.Progress.{IsCommonMultiple};

use tab_core::{Piece, ROUND};

// Whether the period of each piece divides so many ticks.
fn is_common(pieces: &[Piece], ticks: u32) -> bool
    ensures { result ≡ true → IsCommonMultiple pieces.now (length pieces.now) ticks }
{
    for i in 0..pieces.len() {
        if ticks % pieces[i].period != 0 {
            return false;
        }
    }
    true
}

// What is left of so many ticks without this factor, as often as the period of each piece divides it.
fn without(pieces: &[Piece], ticks: u32, factor: u32) -> u32
    requires factor { 2 ≤ factor }
    requires some { 0 < ticks }
    requires small { ticks ≤ ROUND }
    requires whole { ROUND / ticks * ticks ≡ ROUND }
    requires common { IsCommonMultiple pieces.now (length pieces.now) ticks }
    ensures some { 0 < result }
    ensures small { result ≤ ROUND }
    ensures whole { ROUND / result * result ≡ ROUND }
    ensures common { IsCommonMultiple pieces.now (length pieces.now) result }
{
    let mut left = ticks;
    while left % factor == 0 && is_common(pieces, left / factor) {
        left /= factor;
    }
    left
}

// The least number of ticks that the period of each piece divides, or a round without a piece: a round
// without those of its prime factors (it is 2^3 * 3^3 * 5^2 * 19 ticks) that no period needs.
pub(crate) fn common_period(pieces: &[Piece]) -> u32
    ensures some { 0 < result }
    ensures small { result ≤ ROUND }
    ensures whole { ROUND / result * result ≡ ROUND }
    ensures common { IsCommonMultiple pieces.now (length pieces.now) result }
{
    if pieces.is_empty() {
        return ROUND;
    }
    let odd = without(pieces, ROUND, 2);
    without(pieces, without(pieces, without(pieces, odd, 3), 5), 19)
}
