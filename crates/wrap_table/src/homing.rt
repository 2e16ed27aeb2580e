ghost use Rattle.std.specs.Prelude.{ℕ, ◌≡◌, ◌+◌, ◌-◌, ◌*◌, ◌<◌, ◌≤◌, IfOk, Some, None, cond, length, slice_index};
ghost use Rattle.std.specs.Option.{option_map};
ghost use Rattle.tab_core.specs.declared.periodic.Periodic.{Periodic};
ghost use Rattle.tab_core.specs.declared.TheConstants.{MAX_CORES, ROUND};
ghost use Rattle.table_form.specs.Tables.Serves.{cells_within, is_cell_of};
ghost use Rattle.wrap_table.specs.Inside.Homing.{AreHomesOf, IsMostOfFirst, most_at, with_core};

use std::alloc::Global;
use tab_core::{CoreNo, NoMemory, Periodic};
use table_form::{CoreTable, Segment};

// The core with most of a vCPU's cells so far, and how many it has there.
#[derive(Clone, Copy)]
pub(crate) struct Most {
    pub(crate) core: u32,
    pub(crate) cells: u32,
}

// Counts the cells of a segment that begins at `from` for its owner, if that is one of the first.
fn add_cells(cells: &mut Vec<u32>, segment: &Segment, from: u32)
    requires rises { from ≤ segment.now.end }
    requires in_round { segment.now.end ≤ ROUND }
    requires room { (v : ℕ) → slice_index cells.old.items v ≤ ROUND }
    ensures size { length cells.new.items ≡ length cells.old.items }
    ensures grown { (v : ℕ) → v < length cells.old.items → slice_index cells.new.items v
        ≡ slice_index cells.old.items v
        + (segment.now.end - from) * cond (is_cell_of v segment.now.owner) 1 0 }
{
    let Some(vcpu) = segment.owner.vcpu() else {
        return;
    };
    let v = vcpu.index();
    if v < cells.len() {
        cells[v] += segment.end - from;
    }
}

// How many cells of a row each of the first vCPUs has.
fn cells_of(alloc: Global, row: &CoreTable, width: usize) -> Result<Vec<u32>, NoMemory>
    ensures size { IfOk result (λ cells. length cells.items ≡ width) }
    ensures cells { IfOk result (λ cells. (v : ℕ) → v < width
        → slice_index cells.items v ≡ cells_within v row.now 0 ROUND) }
{
    let mut cells = vec![in alloc; 0u32; width]?;
    let mut from = 0;
    let segments = row.segments();
    for segment in segments {
        add_cells(&mut cells, segment, from);
        from = segment.end;
    }
    Ok(cells)
}

// Takes another core's cells into account.
fn count_core(most: &mut Vec<Most>, cells: &Vec<u32>, core: u32)
    requires { length cells.now.items ≡ length most.old.items }
    ensures size { length most.new.items ≡ length most.old.items }
    ensures most { (v : ℕ) → v < length most.old.items → most_at most.new.items v
        ≡ with_core (most_at most.old.items v) (slice_index cells.now.items v) core }
{
    for v in 0..most.len() {
        if cells[v] > most[v].cells {
            most[v] = Most {
                core,
                cells: cells[v],
            };
        }
    }
}

// For each of the first vCPUs the core with most of its cells.
fn most_of(alloc: Global, rows: &[CoreTable], width: usize) -> Result<Vec<Most>, NoMemory>
    requires { length rows.now ≤ MAX_CORES }
    ensures size { IfOk result (λ most. length most.items ≡ width) }
    ensures most { IfOk result (λ most. (v : ℕ) → v < width
        → IsMostOfFirst rows.now v (length rows.now) (most_at most.items v)) }
{
    let mut most = vec![in alloc; Most { core: 0, cells: 0 }; width]?;
    for core in 0..rows.len() {
        let cells = cells_of(alloc, &rows[core], width)?;
        count_core(&mut most, &cells, core as u32);
    }
    Ok(most)
}

// The home of a vCPU, if it is admitted.
fn home_of(task: Option<Periodic>, most: Most) -> Option<CoreNo>
    requires { most.core < MAX_CORES }
    ensures { result ≡ option_map (λ _. most.core) task }
{
    match task {
        None => None,
        Some(_) => Some(CoreNo(most.core)),
    }
}

// The homes: of each admitted vCPU the core with most of its cells, of those the lowest.
pub(crate) fn homes_of(
    alloc: Global,
    tasks: &[Option<Periodic>],
    rows: &[CoreTable],
) -> Result<Vec<Option<CoreNo>>, NoMemory>
    requires { length rows.now ≤ MAX_CORES }
    ensures { IfOk result (λ homes. AreHomesOf tasks.now rows.now homes.items) }
{
    let most = most_of(alloc, rows, tasks.len())?;
    let mut homes = Vec::with_capacity(alloc, tasks.len())?;
    for v in 0..tasks.len() {
        homes.push(home_of(tasks[v], most[v]))?;
    }
    Ok(homes)
}
