ghost use Rattle.std.specs.Prelude.{◌≡◌, ◌+◌, ◌<◌, ◌↔◌, IsTrue, [], ◌∷◌, OnErr, OnOk, Some, drop, length, map, slice_get};
ghost use Rattle.tab_core.specs.declared.TheConstants.{ROUND};
ghost use Rattle.table_form.specs.declared.segment.Segment.{Segment};
ghost use Rattle.table_form.specs.Inside.Appending.{EndsWithOwner};
ghost use Rattle.table_form.specs.Tables.Rows.{RisesTo, cells_from};
ghost use Rattle.table_form.specs.Tables.Segments.{BeginsOther, put_before, segment_view, segments_from};

use crate::segment::Segment;
use std::alloc::AllocError;

// Whether the last segment is of the owner of this one.
fn is_last_owner(segments: &[Segment], next: &Segment) -> bool
    ensures { IsTrue result ↔ EndsWithOwner (map segment_view segments.now) next.now.owner }
{
    if segments.is_empty() {
        return false;
    }
    segments[segments.len() - 1].owner.same(next.owner)
}

/// Appends a segment. The last one goes on to its end where that has the same owner.
///
/// Fails only when memory runs out, and leaves the segments as they were then.
pub fn push_segment(segments: &mut Vec<Segment>, next: Segment) -> Result<(), AllocError>
    ensures ok { OnOk result (map segment_view segments.new.items
        ≡ put_before (map segment_view segments.old.items) (segment_view next ∷ [])) }
    ensures err { OnErr result (segments.new.items ≡ segments.old.items) }
{
    let count = segments.len();
    if is_last_owner(segments, &next) {
        segments[count - 1] = next;
        return Ok(());
    }
    segments.push(next)?;
    Ok(())
}

// Whether the next segment, if there is one, is of another owner.
fn ends_maximal(segments: &[Segment], at: usize) -> bool
    requires { at < length segments.now }
    ensures { (s : Segment) → slice_get segments.now at ≡ Some s
        → (IsTrue result ↔ BeginsOther s.owner (map segment_view (drop (at + 1) segments.now))) }
{
    if at + 1 == segments.len() {
        return true;
    }
    !segments[at].owner.same(segments[at + 1].owner)
}

// Joins neighbours of one owner, in place: of each maximal segment the last one stays.
pub(crate) fn join_neighbours(segments: &mut Vec<Segment>)
    requires { RisesTo 0 segments.old.items ROUND }
    ensures { map segment_view segments.new.items ≡ segments_from 0 (cells_from 0 segments.old.items) }
{
    let mut kept = 0;
    for at in 0..segments.len() {
        if ends_maximal(segments, at) {
            segments[kept] = segments[at];
            kept += 1;
        }
    }
    segments.truncate(kept);
}
