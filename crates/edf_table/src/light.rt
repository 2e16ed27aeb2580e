ghost use Rattle.std.specs.Prelude.{◌≡◌, true};
ghost use Rattle.table_form.specs.Planning.Demand.{Fits};
ghost use Rattle.table_form.specs.Planning.Jobs.{jobs_of};

use tab_core::{Piece, ROUND};

// Whether all windows are whole periods and the pieces take at most a round. Then they fit.
pub(crate) fn are_unsplit_and_light(pieces: &[Piece]) -> bool
    ensures { result ≡ true → Fits (jobs_of pieces.now) }
{
    let mut load: u64 = 0;
    for piece in pieces {
        if piece.from != 0 || piece.to != piece.period {
            return false;
        }
        load += u64::from(piece.cost) * u64::from(ROUND / piece.period);
        if load > u64::from(ROUND) {
            return false;
        }
    }
    true
}
