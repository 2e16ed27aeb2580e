//! Laws of splitting: a vCPU has one outcome beside the pieces that are there.
ghost use Rattle.std.specs.Prelude.{◌≡◌, ℕ, List};
ghost use Rattle.std.specs.List.{AllZip};
ghost use Rattle.tab_core.specs.declared.over.Over.{Over};
ghost use Rattle.tab_core.specs.declared.periodic.Periodic.{Periodic};
ghost use Rattle.tab_core.specs.declared.piece.Piece.{Piece};
ghost use Rattle.cd_split.specs.Shares.{IsSamePiece};
ghost use Rattle.cd_split.specs.Splitting.{IsSplit, IsSplitRefused};

/// A vCPU is split into the same pieces each time, whoever splits it.
pub fn a_vcpu_has_one_split()
    ensures { (cores : List (List Piece)) (vcpu : ℕ) (task : Periodic) (pieces other : List Piece)
        → IsSplit cores vcpu task pieces → IsSplit cores vcpu task other
        → AllZip IsSamePiece other pieces }
{}

/// A vCPU without room has one number of ticks left, with one list of overloaded intervals.
pub fn a_vcpu_has_one_refusal()
    ensures { (cores : List (List Piece)) (vcpu : ℕ) (task : Periodic) (rest more : ℕ)
        (over other : List Over) → IsSplitRefused cores vcpu task rest over
        → IsSplitRefused cores vcpu task more other → (rest ≡ more) × (over ≡ other) }
{}

/// No vCPU is split and refused.
pub fn a_split_is_no_refusal()
    ensures { (cores : List (List Piece)) (vcpu : ℕ) (task : Periodic) (pieces : List Piece)
        (rest : ℕ) (over : List Over) → IsSplit cores vcpu task pieces
        → IsSplitRefused cores vcpu task rest over → ⊥ }
{}
