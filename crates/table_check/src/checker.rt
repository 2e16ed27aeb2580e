ghost use Rattle.std.specs.Prelude.{◌≡◌, ◌⊎◌, ◌≤◌, IfErr, IfNone, IfOk, IfSome, IsErr, IsTrue, false, length, replicate};
ghost use Rattle.tab_core.specs.declared.TheConstants.{MAX_CORES, MAX_VCPUS};
ghost use Rattle.table_form.specs.Tables.Homes.{are_housed};
ghost use Rattle.table_form.specs.Tables.Views.{plan_view};
ghost use Rattle.table_check.specs.Faults.{AreGood, HasCheckFault};
ghost use Rattle.table_check.specs.Shapes.{AreOwnedByTasks, rows_of};

use crate::clash::find_clash;
use crate::fault::CheckFault;
use crate::shape::{build_rows, find_bad_shape};
use crate::shortage::find_shortage;
use std::alloc::Global;
use tab_core::{NoMemory, Periodic, Tasks, VcpuSet};
use table_form::{Homes, Plan, RawTables, Segments, Tables};

/// The first fault of the tables, if they have one: none exactly where they serve these tasks, with no
/// vCPU on two cores at one tick. No table is copied.
///
/// `BadShape` comes exactly where the segments of a core make no row, `Twice` exactly where they all do
/// and a vCPU is on two cores at one tick, and `Short` exactly where none does and a vCPU gets less
/// than its cost in one of its periods. Neighbouring segments may have one owner.
pub fn first_fault(
    alloc: Global,
    tasks: &[Option<Periodic>],
    raw: &[Segments],
) -> Result<Option<CheckFault>, NoMemory>
    requires few { length tasks.now ≤ MAX_VCPUS }
    requires few_rows { length raw.now ≤ MAX_CORES }
    ensures none { IfOk result (λ fault. IfNone fault (AreGood tasks.now raw.now)) }
    ensures some { IfOk result (λ fault. IfSome fault (HasCheckFault tasks.now raw.now)) }
{
    if let Some(fault) = find_bad_shape(raw) {
        return Ok(Some(fault));
    }
    if let Some(clash) = find_clash(alloc, tasks.len(), raw) {
        return Ok(Some(clash.fault()));
    }
    if let Some(shortage) = find_shortage(alloc, tasks, raw)? {
        return Ok(Some(shortage.fault()));
    }
    Ok(None)
}

/// The plan of these tasks with these tables, in which no vCPU is capped, or the first fault of the
/// tables, as `first_fault` tells it.
///
/// There are at most 32 rows, each task has one home below their count and no other vCPU has one, and
/// each owner of a segment has a task. Tables that are a plan are refused only when memory runs out.
pub fn check(alloc: Global, tasks: &Tasks, raw: &RawTables) -> Result<Plan, CheckFault>
    requires few { length raw.now.rows ≤ MAX_CORES }
    requires housed { IsTrue (are_housed (length raw.now.rows) tasks.now raw.now.homes) }
    requires owned { AreOwnedByTasks tasks.now raw.now.rows }
    ensures plan { IfOk result (λ plan. plan_view plan
        ≡ record {
          tasks = tasks.now;
          homes = raw.now.homes;
          rows = rows_of raw.now.rows;
          capped = replicate MAX_VCPUS false;
        }) }
    ensures good { IfOk result (λ _. AreGood tasks.now raw.now.rows) }
    ensures fault { IfErr result (λ fault. (fault ≡ CheckFault.NoMemory)
        ⊎ HasCheckFault tasks.now raw.now.rows fault) }
    ensures accepted { AreGood tasks.now raw.now.rows → IfErr result (λ fault. fault ≡ CheckFault.NoMemory) }
    ensures refused { (fault : CheckFault) → HasCheckFault tasks.now raw.now.rows fault → IsErr result }
    ensures one_fault { (fault other : CheckFault) → HasCheckFault tasks.now raw.now.rows fault
        → HasCheckFault tasks.now raw.now.rows other → fault ≡ other }
{
    if let Some(fault) = first_fault(alloc, tasks.items(), raw.rows.items())? {
        return Err(fault);
    }
    let rows = build_rows(alloc, raw.rows.items())?;
    let homes = Homes::of(Vec::from_slice(alloc, raw.homes.items())?);
    Ok(Plan {
        tasks: Tasks::of(Vec::from_slice(alloc, tasks.items())?),
        tables: Tables { homes, rows },
        capped: VcpuSet::empty(),
    })
}
