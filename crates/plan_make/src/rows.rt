ghost use Rattle.std.specs.Prelude.{◌≡◌, ◌<◌, ◌≤◌, IfOk, length, map};
ghost use Rattle.tab_core.specs.declared.TheConstants.{MAX_CORES};
ghost use Rattle.table_form.specs.Planning.EdfRow.{edf_row};
ghost use Rattle.table_form.specs.Planning.Jobs.{jobs_of};
ghost use Rattle.cd_split.specs.Cores.{pieces_on};
ghost use Rattle.plan_make.specs.Inside.RowsOfCores.{AreRowsOf, IsRowOf};

use cd_split::CorePieces;
use edf_table::build_row;
use std::alloc::Global;
use tab_core::{CoreNo, NoMemory};
use table_form::{CoreTable, Rows};

// The row of one core.
fn row_of(alloc: Global, cores: &CorePieces, core: usize) -> Result<CoreTable, NoMemory>
    requires there { core < length cores.now }
    requires few { length cores.now ≤ MAX_CORES }
    ensures { IfOk result (IsRowOf core (pieces_on cores.now core)) }
{
    let row = build_row(alloc, cores.of_core(CoreNo(core as u32)))?;
    Ok(row)
}

// The row of each core.
pub(crate) fn rows_of(alloc: Global, cores: &CorePieces) -> Result<Rows, NoMemory>
    ensures rows { IfOk result (λ rows. rows ≡ map (λ pieces. edf_row (jobs_of pieces)) cores.now) }
    ensures of { IfOk result (AreRowsOf cores.now) }
{
    let count = cores.cores() as usize;
    let mut rows = Vec::with_capacity(alloc, count)?;
    for core in 0..count {
        rows.push(row_of(alloc, cores, core)?)?;
    }
    Ok(Rows::of(rows))
}
