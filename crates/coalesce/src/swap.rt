ghost use Rattle.std.specs.Prelude.{◌≡◌, ◌<◌, ◌↔◌, IsTrue, List, length};
ghost use Rattle.tab_core.specs.declared.TheConstants.{MAX_VCPUS, ROUND};
ghost use Rattle.tab_core.specs.declared.piece.Piece.{Piece};
ghost use Rattle.table_form.specs.Tables.Segments.{segment_view};
ghost use Rattle.coalesce.specs.Joining.{CanSwap, NoEdge};
ghost use Rattle.coalesce.specs.Inside.Passing.{IsPieceTableOf};

use tab_core::{Piece, VcpuNo};
use table_form::{Segment, next_at};

// Whether no window of the vCPU's piece begins strictly between the ticks.
fn has_no_begin(table: &[Option<Piece>], vcpu: VcpuNo, low: u32, high: u32) -> bool
    requires sized { length table.now ≡ MAX_VCPUS }
    requires in_round { low < ROUND }
    ensures { (pieces : List Piece) → IsPieceTableOf pieces table.now
        → (IsTrue result ↔ NoEdge (λ p. p.from) pieces vcpu low high) }
{
    match table[vcpu.index()] {
        None => true,
        Some(piece) => high <= next_at(piece.from, piece.period, low),
    }
}

// Whether no window of the vCPU's piece ends strictly between the ticks.
fn has_no_end(table: &[Option<Piece>], vcpu: VcpuNo, low: u32, high: u32) -> bool
    requires sized { length table.now ≡ MAX_VCPUS }
    requires in_round { low < ROUND }
    ensures { (pieces : List Piece) → IsPieceTableOf pieces table.now
        → (IsTrue result ↔ NoEdge (λ p. p.to) pieces vcpu low high) }
{
    match table[vcpu.index()] {
        None => true,
        Some(piece) => high <= next_at(piece.to, piece.period, low),
    }
}

// Whether the third of three neighbours may come before the second.
pub(crate) fn can_swap(
    table: &[Option<Piece>],
    sliver: u32,
    x: &Segment,
    y: &Segment,
    z: &Segment,
) -> bool
    requires sized { length table.now ≡ MAX_VCPUS }
    requires rises { x.now.end < y.now.end }
    requires in_round { y.now.end < ROUND }
    ensures { (pieces : List Piece) → IsPieceTableOf pieces table.now
        → (IsTrue result
        ↔ CanSwap pieces sliver (segment_view x.now) (segment_view y.now) (segment_view z.now)) }
{
    let (Some(first), Some(second)) = (x.owner.vcpu(), y.owner.vcpu()) else {
        return false;
    };
    if !x.owner.same(z.owner) {
        return false;
    }
    if sliver <= y.end - x.end {
        return false;
    }
    if !has_no_begin(table, first, x.end, z.end) {
        return false;
    }
    has_no_end(table, second, x.end, z.end)
}
