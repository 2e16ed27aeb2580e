ghost use Rattle.std.specs.Prelude.{◌≡◌, ◌<◌, ◌≤◌, ℕ, Some, slice_get};
ghost use Rattle.tab_core.specs.declared.TheConstants.{ROUND};
ghost use Rattle.slice_table.specs.Inside.Sweeps.{IsPast};

use table_form::{CoreTable, Segment};

/// The row's segment that holds the place, sought from a number on, and its number.
pub(crate) fn segment_from(row: &CoreTable, from: usize, place: u32) -> (usize, Segment)
    requires in_round { place < ROUND }
    requires past { IsPast row.now place from }
    ensures past { IsPast row.now place result.0 }
    ensures after { place < result.1.end }
    ensures within { result.1.end ≤ ROUND }
    ensures cells { (x : ℕ) → place ≤ x → x < result.1.end → slice_get row.now x ≡ Some result.1.owner }
{
    let segments = row.segments();
    let mut at = from;
    'passing: loop {
        let segment = segments[at];
        if place < segment.end {
            return (at, segment);
        }
        at += 1;
    }
}
