ghost use Rattle.std.specs.Prelude.{◌≡◌, ◌↔◌, ℕ, ◌+◌, ◌*◌, ◌/◌, ◌≤◌};
ghost use Rattle.tab_core.specs.declared.TheConstants.{ROUND};
ghost use Rattle.tab_core.specs.Period.{IsPeriod};
ghost use Rattle.table_form.specs.Planning.Demand.{Fits};
ghost use Rattle.table_form.specs.Planning.Jobs.{jobs_of};
ghost use Rattle.edf_table.specs.Load.{load_of_pieces};

use tab_core::{Piece, ROUND};

// What the pieces take of a round, in ticks.
pub(crate) fn load_of(pieces: &[Piece]) -> u32
    requires { Fits (jobs_of pieces.now) }
    ensures value { result ≡ load_of_pieces pieces.now }
    ensures small { result ≤ ROUND }
{
    let mut sum = 0;
    for piece in pieces {
        sum += piece.cost * (ROUND / piece.period);
    }
    sum
}

// The greatest cost in each period that a core of this load has the ticks for.
pub(crate) fn most_by_load(load: u32, period: u32) -> u32
    requires small { load ≤ ROUND }
    requires listed { IsPeriod period }
    ensures within { result ≤ ROUND }
    ensures most { (cost : ℕ) → (cost ≤ result) ↔ (load + cost * (ROUND / period) ≤ ROUND) }
{
    (ROUND - load) / (ROUND / period)
}
