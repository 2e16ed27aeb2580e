ghost use Rattle.std.specs.Prelude.{◌≡◌, ◌+◌, ◌*◌, ◌≤◌, IfOk, List, length};
ghost use Rattle.tab_core.specs.declared.TheConstants.{MAX_CORES, MAX_VCPUS};
ghost use Rattle.table_form.specs.Tables.Rows.{Row};
ghost use Rattle.table_check.specs.Inside.Counters.{CountSupply, IsFirstLow};
ghost use Rattle.table_check.specs.Shapes.{HaveGoodShapes, rows_of};
ghost use Rattle.table_check.specs.Inside.Parts.{IsShortageOf};
ghost use Rattle.table_check.specs.declared.counters.TheConstants.{MAX_PERIODS};

use crate::counters::{MAX_PERIODS, count_supply};
use crate::fault::CheckFault;
use std::alloc::Global;
use tab_core::{NoMemory, Periodic, ROUND, VcpuNo};
use table_form::Segments;

// A vCPU that gets less than its cost in one of its periods.
#[derive(Clone, Copy)]
pub(crate) struct Shortage {
    pub(crate) vcpu: VcpuNo,
    pub(crate) period_no: u32,
    pub(crate) got: u32,
    pub(crate) cost: u32,
}

impl Shortage {
    pub(crate) fn fault(&self) -> CheckFault
        ensures { result ≡ CheckFault.Short self.now.vcpu self.now.period_no self.now.got self.now.cost }
    {
        CheckFault::Short {
            vcpu: self.vcpu,
            period_no: self.period_no,
            got: self.got,
            cost: self.cost,
        }
    }
}

// The first period of the vCPU whose counter is below its cost.
fn first_low(counters: &[u32], vcpu: usize, task: &Periodic) -> Option<u32>
    requires size { vcpu * MAX_PERIODS + MAX_PERIODS ≤ length counters.now }
    ensures { IsFirstLow counters.now vcpu task.now result }
{
    for period_no in 0..ROUND / task.period {
        if counters[vcpu * MAX_PERIODS + period_no as usize] < task.cost {
            return Some(period_no);
        }
    }
    None
}

// The first shortage by the counters.
pub(crate) fn first_shortage(counters: &[u32], tasks: &[Option<Periodic>]) -> Option<Shortage>
    requires size { length counters.now ≡ length tasks.now * MAX_PERIODS }
    requires few { length tasks.now ≤ MAX_VCPUS }
    ensures { (rows : List Row) → CountSupply tasks.now rows counters.now
        → IsShortageOf tasks.now rows result }
{
    for vcpu in 0..tasks.len() {
        if let Some(task) = &tasks[vcpu] {
            if let Some(period_no) = first_low(counters, vcpu, task) {
                return Some(Shortage {
                    vcpu: VcpuNo(vcpu as u32),
                    period_no,
                    got: counters[vcpu * MAX_PERIODS + period_no as usize],
                    cost: task.cost,
                });
            }
        }
    }
    None
}

// The first shortage of the rows.
pub(crate) fn find_shortage(
    alloc: Global,
    tasks: &[Option<Periodic>],
    raw: &[Segments],
) -> Result<Option<Shortage>, NoMemory>
    requires few { length tasks.now ≤ MAX_VCPUS }
    requires few_rows { length raw.now ≤ MAX_CORES }
    requires good { HaveGoodShapes raw.now }
    ensures { IfOk result (IsShortageOf tasks.now (rows_of raw.now)) }
{
    let counters = count_supply(alloc, tasks, raw)?;
    Ok(first_shortage(&counters, tasks))
}
