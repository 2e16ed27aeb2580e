ghost use Rattle.std.specs.Prelude.{◌↔◌, ◌≡◌, ◌+◌, ◌*◌, ◌≤◌, IfOk, IsTrue, List, length};
ghost use Rattle.tab_core.specs.declared.TheConstants.{MAX_CORES, MAX_VCPUS};
ghost use Rattle.table_form.specs.Tables.Rows.{Row};
ghost use Rattle.table_form.specs.Tables.Serves.{ServesExactly};
ghost use Rattle.table_check.specs.Inside.Counters.{CountSupply, HasItsCosts};
ghost use Rattle.table_check.specs.Shapes.{HaveGoodShapes, rows_of};
ghost use Rattle.table_check.specs.declared.counters.TheConstants.{MAX_PERIODS};

use crate::counters::{MAX_PERIODS, count_supply};
use std::alloc::Global;
use tab_core::{NoMemory, Periodic, ROUND, VcpuNo, VcpuSet};
use table_form::Segments;

// Whether each of the vCPU's counters is its cost.
fn has_its_costs(counters: &[u32], vcpu: usize, task: &Periodic) -> bool
    requires size { vcpu * MAX_PERIODS + MAX_PERIODS ≤ length counters.now }
    ensures { IsTrue result ↔ HasItsCosts counters.now vcpu task.now }
{
    for period_no in 0..ROUND / task.period {
        if counters[vcpu * MAX_PERIODS + period_no as usize] != task.cost {
            return false;
        }
    }
    true
}

// Whether each of the capped vCPUs has exactly its costs by the counters.
fn are_exact(counters: &[u32], tasks: &[Option<Periodic>], capped: &VcpuSet) -> bool
    requires size { length counters.now ≡ length tasks.now * MAX_PERIODS }
    requires few { length tasks.now ≤ MAX_VCPUS }
    ensures { (rows : List Row) → CountSupply tasks.now rows counters.now
        → (IsTrue result ↔ ServesExactly tasks.now capped.now rows) }
{
    for vcpu in 0..tasks.len() {
        if let Some(task) = &tasks[vcpu] {
            if capped.has(VcpuNo(vcpu as u32)) && !has_its_costs(counters, vcpu, task) {
                return false;
            }
        }
    }
    true
}

/// Whether the rows give each of these vCPUs that has a task exactly its cost in each of its periods,
/// and no tick more. Tables that serve their tasks may give more to a vCPU that isn't capped.
pub fn serve_exactly(
    alloc: Global,
    tasks: &[Option<Periodic>],
    capped: &VcpuSet,
    raw: &[Segments],
) -> Result<bool, NoMemory>
    requires few { length tasks.now ≤ MAX_VCPUS }
    requires few_rows { length raw.now ≤ MAX_CORES }
    requires good { HaveGoodShapes raw.now }
    ensures { IfOk result (λ exact. IsTrue exact ↔ ServesExactly tasks.now capped.now (rows_of raw.now)) }
{
    let counters = count_supply(alloc, tasks, raw)?;
    Ok(are_exact(&counters, tasks, capped))
}
