ghost use Rattle.std.specs.Prelude.{◌≡◌, [], IfOk, length, map};
ghost use Rattle.table_form.specs.Planning.EdfRow.{edf_row};
ghost use Rattle.table_form.specs.Planning.Jobs.{jobs_of};
ghost use Rattle.plan_make.specs.Inside.Allotted.{AreLaidOut};
ghost use Rattle.plan_make.specs.Planned.{all_pieces};

use crate::layout::Layout;
use crate::rows::rows_of;
use cd_split::CorePieces;
use std::alloc::Global;
use tab_core::{CoreNo, NoMemory, Piece, Pieces, Tasks, VcpuSet};
use table_form::{Draft, Homes, Tables};

// The pieces of all cores in one list, core by core.
fn pieces_of(alloc: Global, cores: &CorePieces) -> Result<Vec<Piece>, NoMemory>
    ensures { IfOk result (λ pieces. pieces.items ≡ all_pieces cores.now) }
{
    let mut pieces = Vec::new(alloc);
    for core in 0..cores.cores() {
        pieces.extend_from_slice(cores.of_core(CoreNo(core)))?;
    }
    Ok(pieces)
}

// The draft of a layout: its pieces, the row of each core by earliest deadline first, and the
// capped vCPUs.
pub(crate) fn draft_of(
    alloc: Global,
    tasks: Tasks,
    layout: Layout,
    capped: VcpuSet,
) -> Result<Draft, NoMemory>
    requires { AreLaidOut tasks layout.cores layout.homes.items [] }
    ensures tasks { IfOk result (λ draft. draft.tasks ≡ tasks) }
    ensures pieces { IfOk result (λ draft. draft.pieces ≡ all_pieces layout.cores) }
    ensures homes { IfOk result (λ draft. draft.tables.homes ≡ layout.homes.items) }
    ensures rows { IfOk result (λ draft. draft.tables.rows
        ≡ map (λ pieces. edf_row (jobs_of pieces)) layout.cores) }
    ensures count { IfOk result (λ draft. length draft.tables.rows ≡ length layout.cores) }
    ensures capped { IfOk result (λ draft. draft.capped ≡ capped) }
{
    let pieces = Pieces::of(pieces_of(alloc, &layout.cores)?);
    let rows = rows_of(alloc, &layout.cores)?;
    let homes = Homes::of(layout.homes);
    Ok(Draft {
        tasks,
        pieces,
        tables: Tables { homes, rows },
        capped,
    })
}
