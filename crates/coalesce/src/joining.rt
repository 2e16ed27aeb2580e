ghost use Rattle.std.specs.Prelude.{◌≡◌, ℕ, ◌+◌, ◌*◌, ◌/◌, ◌<◌, ◌≤◌, List, [], Some, IfOk, OnOk, length, slice_get};
ghost use Rattle.tab_core.specs.VcpuSets.{has_vcpu};
ghost use Rattle.tab_core.specs.declared.TheConstants.{MAX_CORES, ROUND};
ghost use Rattle.tab_core.specs.declared.piece.Piece.{Piece};
ghost use Rattle.table_form.specs.Planning.Drafts.{HaveOwnCores, pieces_at};
ghost use Rattle.table_form.specs.Tables.Rows.{Row};
ghost use Rattle.table_form.specs.Tables.Serves.{cells_within};
ghost use Rattle.table_form.specs.Tables.Segments.{segments_from};
ghost use Rattle.coalesce.specs.Joining.{AreJoined, IsJoined};
ghost use Rattle.coalesce.specs.Inside.Passing.{IsPieceTableOf};

use crate::filling::fill_all;
use crate::pass::{has_sliver_between, swap_all};
use crate::table::{empty_table, put_pieces, single_vcpus, take_pieces};
use std::alloc::Global;
use tab_core::{CoreNo, NoMemory, Piece, Tasks, VcpuSet};
use table_form::{CoreTable, Draft, Homes, Plan, Rows, Tables};

// Joins the slivers of the core's row. The table has no piece before and after. It is filled only where some three
// neighbours may be swapped as far as their owners and ticks say.
fn join_row(
    alloc: Global,
    row: &CoreTable,
    core: CoreNo,
    pieces: &[Piece],
    table: &mut Vec<Option<Piece>>,
    may_grow: &VcpuSet,
    sliver: u32,
) -> Result<CoreTable, NoMemory>
    requires own_cores { HaveOwnCores pieces.now }
    requires none { IsPieceTableOf [] table.old.items }
    ensures joined { IfOk result (IsJoined (pieces_at pieces.now core) (has_vcpu may_grow.now) sliver row.now) }
    ensures none { OnOk result (IsPieceTableOf [] table.new.items) }
{
    let segments = row.segments();
    if !has_sliver_between(segments, sliver) {
        return Ok(fill_all(Vec::from_slice(alloc, segments)?, may_grow, sliver));
    }
    put_pieces(table, pieces, core);
    let swapped = swap_all(alloc, segments, table, sliver)?;
    take_pieces(table, pieces);
    Ok(fill_all(swapped, may_grow, sliver))
}

// Joins the slivers of each row.
fn join_rows(
    alloc: Global,
    rows: &[CoreTable],
    pieces: &[Piece],
    capped: &VcpuSet,
    sliver: u32,
) -> Result<Vec<CoreTable>, NoMemory>
    requires own_cores { HaveOwnCores pieces.now }
    requires few { length rows.now ≤ MAX_CORES }
    ensures { IfOk result (λ joined. AreJoined pieces.now capped.now sliver rows.now joined.items) }
{
    let may_grow = single_vcpus(pieces).without(capped);
    let mut table = empty_table(alloc)?;
    let mut joined = Vec::with_capacity(alloc, rows.len())?;
    for core in 0..rows.len() {
        let number = CoreNo(core as u32);
        joined.push(join_row(
            alloc,
            &rows[core],
            number,
            pieces,
            &mut table,
            &may_grow,
            sliver,
        )?)?;
    }
    Ok(joined)
}

/// The plan of a draft, whose slivers are joined on each core: segments of fewer than `sliver`
/// ticks.
///
/// First, of three neighbouring segments A, B, A of two vCPUs, of which B's is such a sliver, the
/// third comes before B's, if strictly between B's begin and the end of the three no window of A's
/// piece on the core begins and none of B's ends. That is done at the leftmost place until it can
/// be done nowhere. Then each idle sliver after a segment of a vCPU that isn't capped and has a
/// single piece becomes that vCPU's.
///
/// Each job then has at least its cost of ticks inside its window, a capped vCPU has exactly its
/// cost in each of its periods, and no row has more segments than before. Only running out of
/// memory prevents it.
///
/// Source: the coalescing of M. Vanga, A. Gujarati and B. B. Brandenburg, EuroSys 2018.
pub fn join_slivers(alloc: Global, draft: &Draft, sliver: u32) -> Result<Plan, NoMemory>
    ensures joined { IfOk result
        (λ plan. AreJoined draft.now.pieces draft.now.capped sliver draft.now.tables.rows
        plan.tables.rows) }
    ensures only { IfOk result (λ plan. (rows : List Row)
        → AreJoined draft.now.pieces draft.now.capped sliver draft.now.tables.rows rows
        → rows ≡ plan.tables.rows) }
    ensures tasks { IfOk result (λ plan. plan.tasks ≡ draft.now.tasks) }
    ensures homes { IfOk result (λ plan. plan.tables.homes ≡ draft.now.tables.homes) }
    ensures capped { IfOk result (λ plan. plan.capped ≡ draft.now.capped) }
    ensures jobs { IfOk result (λ plan. (core i k : ℕ) (row : Row) (p : Piece)
        → slice_get plan.tables.rows core ≡ Some row → slice_get (pieces_at draft.now.pieces core) i ≡ Some p
        → k < ROUND / p.period
        → p.cost ≤ cells_within p.vcpu row (k * p.period + p.from) (k * p.period + p.to)) }
    ensures fewer { IfOk result (λ plan. (core : ℕ) (row new : Row)
        → slice_get draft.now.tables.rows core ≡ Some row
        → slice_get plan.tables.rows core ≡ Some new
        → length (segments_from 0 new) ≤ length (segments_from 0 row)) }
{
    let joined = join_rows(
        alloc,
        draft.tables.rows.items(),
        draft.pieces.items(),
        &draft.capped,
        sliver,
    )?;
    let homes = Vec::from_slice(alloc, draft.tables.homes.items())?;
    let tasks = Vec::from_slice(alloc, draft.tasks.items())?;
    Ok(Plan {
        tasks: Tasks::of(tasks),
        tables: Tables {
            homes: Homes::of(homes),
            rows: Rows::of(joined),
        },
        capped: draft.capped.copy(),
    })
}
