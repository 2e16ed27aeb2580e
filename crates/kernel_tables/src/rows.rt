ghost use Rattle.std.specs.Prelude.{◌≡◌, ◌≤◌, ◌++◌, IfOk, length};
ghost use Rattle.tab_core.specs.declared.TheConstants.{MAX_VCPUS};
ghost use Rattle.table_form.specs.Tables.Plans.{PlanView};
ghost use Rattle.table_form.specs.Tables.Views.{plan_view};
ghost use Rattle.slice_table.specs.Owners.{AreRowOwners};
ghost use Rattle.slice_table.specs.Slices.{IsTableOf};
ghost use Rattle.kernel_tables.specs.Lines.{row_line};
ghost use Rattle.kernel_tables.specs.TablesText.{HasRows, IsCoreRow, IsVcpuRow};

use crate::bytes::put_bytes;
use crate::lines::{put_row_line, put_span, put_stretch};
use crate::stretch::stretch_from;
use slice_table::{RowOwners, SliceTable};
use std::alloc::Global;
use tab_core::{CoreNo, NoMemory, ROUND, VcpuNo};
use table_form::Plan;

/// The rows of all cores.
pub(crate) fn core_rows(
    alloc: Global,
    plan: &Plan,
    owners: &RowOwners,
    tick_ns: u32,
    words: u32,
) -> Result<Vec<u8>, NoMemory>
    requires owners { AreRowOwners (plan_view plan.now) owners.now }
    requires few { words ≤ 4 }
    ensures { IfOk result (λ text. HasRows (IsCoreRow (plan_view plan.now) tick_ns words)
        (length plan.now.tables.rows) text.items) }
{
    let mut text = Vec::new(alloc);
    for core in 0..plan.tables.rows.items().len() {
        let table = SliceTable::build_with(alloc, plan, owners, CoreNo(core as u32))?;
        let row = core_row(alloc, &table, core as u32, tick_ns, words)?;
        put_bytes(&mut text, &row)?;
    }
    Ok(text)
}

// The row of a core by its slice table.
fn core_row(
    alloc: Global,
    table: &SliceTable,
    core: u32,
    tick_ns: u32,
    words: u32,
) -> Result<Vec<u8>, NoMemory>
    requires few { words ≤ 4 }
    ensures { IfOk result (λ text. (plan : PlanView) → IsTableOf plan core table.now
        → IsCoreRow plan tick_ns words core text.items) }
{
    let mut lines = Vec::new(alloc);
    let mut count = 0;
    let mut place = 0;
    'spans: while place < ROUND {
        let span = table.span(place);
        put_span(&mut lines, tick_ns, words, &span)?;
        count += 1;
        place = span.end;
    }
    row_of(alloc, b"core ", core, count, &lines)
}

// The lines of a row after the line that says how many they are.
fn row_of(
    alloc: Global,
    what: &[u8],
    number: u32,
    count: u32,
    lines: &[u8],
) -> Result<Vec<u8>, NoMemory>
    ensures { IfOk result (λ text. text.items ≡ row_line what.now number count ++ lines.now) }
{
    let mut text = Vec::new(alloc);
    put_row_line(&mut text, what, number, count)?;
    put_bytes(&mut text, lines)?;
    Ok(text)
}

/// The rows of so many vCPUs.
pub(crate) fn vcpu_rows(
    alloc: Global,
    plan: &Plan,
    owners: &RowOwners,
    tick_ns: u32,
    vcpus: usize,
) -> Result<Vec<u8>, NoMemory>
    requires owners { AreRowOwners (plan_view plan.now) owners.now }
    requires few { vcpus ≤ MAX_VCPUS }
    ensures { IfOk result (λ text. HasRows (IsVcpuRow (plan_view plan.now) tick_ns) vcpus text.items) }
{
    let mut text = Vec::new(alloc);
    for vcpu in 0..vcpus {
        let row = vcpu_row(alloc, plan, owners, VcpuNo(vcpu as u32), tick_ns)?;
        put_bytes(&mut text, &row)?;
    }
    Ok(text)
}

// The row of a vCPU.
fn vcpu_row(
    alloc: Global,
    plan: &Plan,
    owners: &RowOwners,
    vcpu: VcpuNo,
    tick_ns: u32,
) -> Result<Vec<u8>, NoMemory>
    requires owners { AreRowOwners (plan_view plan.now) owners.now }
    ensures { IfOk result (λ text. IsVcpuRow (plan_view plan.now) tick_ns vcpu text.items) }
{
    let mut lines = Vec::new(alloc);
    let mut count = 0;
    let mut place = 0;
    'stretches: while place < ROUND {
        let stretch = stretch_from(plan, owners, vcpu, place);
        put_stretch(&mut lines, tick_ns, stretch.core, stretch.end)?;
        count += 1;
        place = stretch.end;
    }
    row_of(alloc, b"where ", vcpu.0, count, &lines)
}
