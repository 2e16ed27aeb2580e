ghost use Rattle.std.specs.Prelude.{◌≡◌, ◌<◌, ◌++◌, [], ◌∷◌, All, IfOk, MatchOption, length};
ghost use Rattle.table_form.specs.Planning.Jobs.{subtask_of};
ghost use Rattle.cd_split.specs.Cores.{LackVcpu, pieces_on};
ghost use Rattle.cd_split.specs.Splitting.{FitsWith, IsOverloadWith};

use crate::core_pieces::CorePieces;
use edf_table::find_overload;
use std::alloc::Global;
use tab_core::{NoMemory, Over, Piece};

// The pieces and one more after them.
fn with_piece(alloc: Global, pieces: &[Piece], piece: Piece) -> Result<Vec<Piece>, NoMemory>
    ensures { IfOk result (λ trial. trial.items ≡ pieces.now ++ piece ∷ []) }
{
    let mut trial = Vec::with_capacity(alloc, pieces.len() + 1)?;
    trial.extend_from_slice(pieces)?;
    trial.push(piece)?;
    Ok(trial)
}

// The reported overloaded interval of the piece's core with the piece, or none where it fits there.
pub(crate) fn overload_with(
    alloc: Global,
    cores: &CorePieces,
    piece: Piece,
) -> Result<Option<Over>, NoMemory>
    requires there { piece.core < length cores.now }
    requires new { All (LackVcpu piece.vcpu) cores.now }
    ensures { IfOk result (λ found. MatchOption found
        (FitsWith (pieces_on cores.now piece.core) (subtask_of piece))
        (IsOverloadWith cores.now (subtask_of piece) piece.core)) }
{
    let trial = with_piece(alloc, cores.of_core(piece.core), piece)?;
    Ok(find_overload(&trial))
}
