ghost use Rattle.std.specs.Prelude.{◌≡◌, ℕ, [], IfOk, length};
ghost use Rattle.tab_core.specs.VcpuSets.{has_vcpu};
ghost use Rattle.tab_core.specs.declared.TheConstants.{MAX_VCPUS};
ghost use Rattle.table_form.specs.Planning.Drafts.{HaveOwnCores, pieces_at};
ghost use Rattle.coalesce.specs.Joining.{has_single_piece};
ghost use Rattle.coalesce.specs.Inside.Passing.{IsPieceTableOf};

use std::alloc::Global;
use tab_core::{CoreNo, MAX_VCPUS, NoMemory, Piece, VcpuSet};

// A table of no piece.
pub(crate) fn empty_table(alloc: Global) -> Result<Vec<Option<Piece>>, NoMemory>
    ensures { IfOk result (λ table. IsPieceTableOf [] table.items) }
{
    Ok(vec![in alloc; None; MAX_VCPUS as usize]?)
}

// Puts the pieces on a core into a table of none, by vCPU number.
pub(crate) fn put_pieces(table: &mut Vec<Option<Piece>>, pieces: &[Piece], core: CoreNo)
    requires own { HaveOwnCores pieces.now }
    requires none { IsPieceTableOf [] table.old.items }
    ensures { IsPieceTableOf (pieces_at pieces.now core) table.new.items }
{
    for piece in pieces {
        if piece.core == core {
            table[piece.vcpu.index()] = Some(*piece);
        }
    }
}

// Takes those of any core out again.
pub(crate) fn take_pieces(table: &mut Vec<Option<Piece>>, pieces: &[Piece])
    requires size { length table.old.items ≡ MAX_VCPUS }
    ensures { (core : ℕ) → IsPieceTableOf (pieces_at pieces.now core) table.old.items
        → IsPieceTableOf [] table.new.items }
{
    for piece in pieces {
        table[piece.vcpu.index()] = None;
    }
}

// The vCPUs with one piece over all cores, and no more.
pub(crate) fn single_vcpus(pieces: &[Piece]) -> VcpuSet
    ensures { (vcpu : ℕ) → has_vcpu result vcpu ≡ has_single_piece pieces.now vcpu }
{
    let mut seen = VcpuSet::empty();
    let mut single = VcpuSet::empty();
    for piece in pieces {
        if seen.has(piece.vcpu) {
            single.take(piece.vcpu);
        } else {
            seen.put(piece.vcpu);
            single.put(piece.vcpu);
        }
    }
    single
}
