ghost use Rattle.std.specs.Prelude.{◌≡◌, ◌+◌, ◌-◌, ◌<◌, ◌≤◌, ◌↔◌, IsTrue, List, [], ◌∷◌, ◌++◌, IfOk, OnOk, false, length, map};
ghost use Rattle.tab_core.specs.declared.TheConstants.{MAX_VCPUS, ROUND};
ghost use Rattle.tab_core.specs.declared.piece.Piece.{Piece};
ghost use Rattle.table_form.specs.Tables.Segments.{AreMaximal, SegmentView, segment_view};
ghost use Rattle.table_form.specs.declared.segment.Segment.{Segment};
ghost use Rattle.coalesce.specs.Joining.{CanSwap, NoSwap, SwapsTo};
ghost use Rattle.coalesce.specs.Inside.Passing.{CanSwapLast, EndBelow, IsPassed, IsPieceTableOf, StandInRow};

use crate::swap::can_swap;
use std::alloc::Global;
use tab_core::{NoMemory, Piece};
use table_form::{Segment, push_segment};

// The last but one takes the ticks up to `end` after its own, and the last comes after them.
fn swap_last(out: &mut Vec<Segment>, end: u32)
    requires two { 2 ≤ length out.old.items }
    requires below { EndBelow (map segment_view out.old.items) end }
    ensures { (before : List SegmentView) (x y : SegmentView)
        → map segment_view out.old.items ≡ before ++ x ∷ y ∷ []
        → map segment_view out.new.items ≡ before
        ++ record { owner = x.owner; end = x.end + (end - y.end) }
        ∷ record { owner = y.owner; end = end } ∷ [] }
{
    let last = out.len() - 1;
    let (x, y) = (out[last - 1], out[last]);
    out[last - 1] = Segment {
        owner: x.owner,
        end: x.end + (end - y.end),
    };
    out[last] = Segment {
        owner: y.owner,
        end,
    };
}

// Whether the last two may be swapped with the next.
fn can_swap_last(out: &[Segment], next: &Segment, table: &[Option<Piece>], sliver: u32) -> bool
    requires sized { length table.now ≡ MAX_VCPUS }
    requires below { EndBelow (map segment_view out.now) next.now.end }
    requires in_round { next.now.end ≤ ROUND }
    ensures swap { (pieces : List Piece) → IsPieceTableOf pieces table.now
        → (IsTrue result ↔ CanSwapLast pieces sliver (map segment_view out.now) (segment_view next.now)) }
    ensures two { IsTrue result → 2 ≤ length out.now }
{
    let count = out.len();
    count >= 2 && can_swap(table, sliver, &out[count - 2], &out[count - 1], next)
}

// The next maximal segment of the row comes to those before it.
fn take_next(
    out: &mut Vec<Segment>,
    next: Segment,
    table: &[Option<Piece>],
    sliver: u32,
) -> Result<(), NoMemory>
    requires sized { length table.now ≡ MAX_VCPUS }
    requires below { EndBelow (map segment_view out.old.items) next.end }
    requires in_round { next.end ≤ ROUND }
    ensures stands { (rest : List SegmentView) → StandInRow (map segment_view out.old.items)
        (segment_view next ∷ rest)
        → OnOk result (StandInRow (map segment_view out.new.items) rest) }
    ensures passed { (pieces : List Piece) (row rest : List SegmentView) → IsPieceTableOf pieces table.now
        → StandInRow (map segment_view out.old.items) (segment_view next ∷ rest)
        → IsPassed pieces sliver row (map segment_view out.old.items) (segment_view next ∷ rest)
        → OnOk result (IsPassed pieces sliver row (map segment_view out.new.items) rest) }
{
    if can_swap_last(out, &next, table, sliver) {
        swap_last(out, next.end);
        return Ok(());
    }
    push_segment(out, next)?;
    Ok(())
}

// Whether the third of three neighbours may come before the second as far as their owners and ticks say: the first
// and the third are of one owner, and the second is short.
fn is_around_sliver(x: &Segment, y: &Segment, z: &Segment, sliver: u32) -> bool
    ensures { result ≡ false → (pieces : List Piece) → CanSwap pieces sliver (segment_view x.now)
        (segment_view y.now) (segment_view z.now) → ⊥ }
{
    y.end.saturating_sub(x.end) < sliver && x.owner.same(z.owner)
}

// Whether some three neighbours may be swapped as far as their owners and ticks say. Where none may, no window of a
// piece has to be looked at.
pub(crate) fn has_sliver_between(segments: &[Segment], sliver: u32) -> bool
    ensures { result ≡ false → (pieces : List Piece)
        → NoSwap pieces sliver (map segment_view segments.now) }
{
    for at in 2..segments.len() {
        let (x, y, z) = (&segments[at - 2], &segments[at - 1], &segments[at]);
        if is_around_sliver(x, y, z, sliver) {
            return true;
        }
    }
    false
}

// Swaps at the leftmost place until none is left. No three segments of `out` may be swapped, so
// what the next segment makes possible is leftmost.
pub(crate) fn swap_all(
    alloc: Global,
    segments: &[Segment],
    table: &[Option<Piece>],
    sliver: u32,
) -> Result<Vec<Segment>, NoMemory>
    requires sized { length table.now ≡ MAX_VCPUS }
    requires maximal { AreMaximal 0 (map segment_view segments.now) ROUND }
    ensures maximal { IfOk result (λ out. AreMaximal 0 (map segment_view out.items) ROUND) }
    ensures swaps { (pieces : List Piece) → IsPieceTableOf pieces table.now
        → IfOk result (λ out. SwapsTo pieces sliver (map segment_view out.items)
        (map segment_view segments.now)) }
{
    let mut out = Vec::with_capacity(alloc, segments.len())?;
    for segment in segments {
        take_next(&mut out, *segment, table, sliver)?;
    }
    Ok(out)
}
