ghost use Rattle.std.specs.Prelude.{◌≡◌, IfErr, IfOk};
ghost use Rattle.table_form.specs.Planning.Demand.{Fits};
ghost use Rattle.table_form.specs.Planning.EdfRow.{edf_row};
ghost use Rattle.table_form.specs.Planning.Jobs.{jobs_of};
ghost use Rattle.edf_table.specs.Overloads.{IsEdfFault};
ghost use Rattle.table_form.specs.Planning.Windows.{DistinctVcpus, KeepsToWindows, ServesWindows};

use crate::common::common_period;
use crate::fault::EdfFault;
use crate::fit::find_overload;
use crate::row::{first_segments, repeated};
use std::alloc::{AllocError, Global};
use tab_core::{Over, Piece};
use table_form::CoreTable;

/// The row of one core's pieces by earliest deadline first, exactly where they fit.
///
/// Each tick goes to the pending job of earliest deadline, and of equal ones to the lower vCPU.
/// So each job has exactly its cost of cells inside its window, and all other cells are idle. No
/// two pieces may be of one vCPU. Where they don't fit, the fault names `find_overload`'s interval.
///
/// Source: C. L. Liu and J. W. Layland, Journal of the ACM 20, 1973.
pub fn simulate(alloc: Global, pieces: &[Piece]) -> Result<CoreTable, EdfFault>
    requires distinct { DistinctVcpus pieces.now }
    ensures row { IfOk result (λ row. row ≡ edf_row (jobs_of pieces.now)) }
    ensures fits { IfOk result (λ _. Fits (jobs_of pieces.now)) }
    ensures windows { IfOk result (λ row. ServesWindows pieces.now row) }
    ensures inside { IfOk result (λ row. KeepsToWindows pieces.now row) }
    ensures miss { IfErr result (IsEdfFault pieces.now) }
{
    match find_overload(pieces) {
        Some(
            Over {
                from,
                to,
                demand,
                ..
            },
        ) => Err(EdfFault::Miss { from, to, demand }),
        None => Ok(build_row(alloc, pieces)?),
    }
}

/// The row of pieces that fit, by earliest deadline first: `simulate` where it is known that they do.
pub fn build_row(alloc: Global, pieces: &[Piece]) -> Result<CoreTable, AllocError>
    requires distinct { DistinctVcpus pieces.now }
    requires fits { Fits (jobs_of pieces.now) }
    ensures row { IfOk result (λ row. row ≡ edf_row (jobs_of pieces.now)) }
    ensures windows { IfOk result (λ row. ServesWindows pieces.now row) }
    ensures inside { IfOk result (λ row. KeepsToWindows pieces.now row) }
{
    let common = common_period(pieces);
    let first = first_segments(alloc, pieces, common)?;
    let row = repeated(alloc, first, common)?;
    Ok(row)
}
