ghost use Rattle.std.specs.Prelude.{◌≡◌, ◌<◌, ◌≤◌, ◌^◌, IfOk, IsTrue, length};
ghost use Rattle.tab_core.specs.declared.TheConstants.{MAX_CORES};
ghost use Rattle.table_check.specs.Faults.{AreGood};
ghost use Rattle.table_check.specs.Shapes.{AreOwnedByTasks, HaveGoodShapes, rows_of};
ghost use Rattle.table_form.specs.Tables.Homes.{are_housed};
ghost use Rattle.table_form.specs.Tables.Views.{plan_view};
ghost use Rattle.period_choice.specs.Tasks.{AreTasksOf};
ghost use Rattle.plan_text.specs.Meaning.{AreFineRows, IsPlanText};
ghost use Rattle.vcpu_names.specs.Names.{names_of};
ghost use Rattle.kernel_tables.specs.Stated.{IsStated};

use period_choice::{TaskFault, tasks_of};
use plan_text::{ReadPlan, read_plan};
use std::alloc::Global;
use tab_core::{Host, Tasks, VcpuNo, VcpuSet};
use table_check::{CheckFault, check, serve_exactly};
use table_form::{Plan, RawTables};

/// Why a text states no plan of a host.
#[derive(Clone, Copy)]
pub enum NotStated {
    /// No period meets the latency of this vCPU, so the host has no plan.
    NoPeriod(VcpuNo),
    /// The first line with which no plan text of the host goes on, from 1.
    BadLine(u32),
    /// The tables are no plan of the host.
    Faulty(CheckFault),
    /// A capped vCPU gets more than its share.
    MoreThanCapped,
    NoMemory,
}

/// The plan of the host that the text of less than 2^32 bytes states.
pub fn stated_plan(alloc: Global, host: &Host, text: &[u8]) -> Result<Plan, NotStated>
    requires { length text.now < 2 ^ 32 }
    ensures { IfOk result (λ plan. IsStated host.now text.now (plan_view plan)) }
{
    let tasks = host_tasks(alloc, host)?;
    let raw = raw_tables(alloc, host, text, &tasks)?;
    let plan = checked(alloc, &tasks, &raw)?;
    with_caps(alloc, plan, &raw, host.vcpus.capped())
}

// The host's tasks.
fn host_tasks(alloc: Global, host: &Host) -> Result<Tasks, NotStated>
    ensures { IfOk result (AreTasksOf host.now) }
{
    match tasks_of(alloc, host) {
        Ok(tasks) => Ok(tasks),
        Err(fault) => Err(without_tasks(fault)),
    }
}

fn without_tasks(fault: TaskFault) -> NotStated {
    match fault {
        TaskFault::NoPeriod { vcpu } => NotStated::NoPeriod(vcpu),
        TaskFault::NoMemory => NotStated::NoMemory,
    }
}

// The tables of the text.
fn raw_tables(
    alloc: Global,
    host: &Host,
    text: &[u8],
    tasks: &Tasks,
) -> Result<RawTables, NotStated>
    requires named { length tasks.now ≡ length host.now.vcpus }
    requires short { length text.now < 2 ^ 32 }
    ensures ok { IfOk result (IsPlanText (names_of host.now.vcpus) host.now.cores tasks.now text.now) }
    ensures few { IfOk result (λ raw. length raw.rows ≤ MAX_CORES) }
    ensures housed { IfOk result (λ raw. IsTrue (are_housed (length raw.rows) tasks.now raw.homes)) }
    ensures fine { IfOk result (λ raw. AreFineRows tasks.now raw.rows) }
{
    match read_plan(alloc, text, host, tasks) {
        Ok(raw) => Ok(raw),
        Err(ReadPlan::BadLine { line }) => Err(NotStated::BadLine(line)),
        Err(ReadPlan::NoMemory) => Err(NotStated::NoMemory),
    }
}

// The plan that the tables are, in which nobody is capped.
fn checked(alloc: Global, tasks: &Tasks, raw: &RawTables) -> Result<Plan, NotStated>
    requires few { length raw.now.rows ≤ MAX_CORES }
    requires housed { IsTrue (are_housed (length raw.now.rows) tasks.now raw.now.homes) }
    requires owned { AreOwnedByTasks tasks.now raw.now.rows }
    ensures good { IfOk result (λ _. AreGood tasks.now raw.now.rows) }
    ensures tasks { IfOk result (λ plan. plan.tasks ≡ tasks.now) }
    ensures homes { IfOk result (λ plan. plan.tables.homes ≡ raw.now.homes) }
    ensures rows { IfOk result (λ plan. plan.tables.rows ≡ rows_of raw.now.rows) }
{
    match check(alloc, tasks, raw) {
        Ok(plan) => Ok(plan),
        Err(CheckFault::NoMemory) => Err(NotStated::NoMemory),
        Err(fault) => Err(NotStated::Faulty(fault)),
    }
}

// The plan with these capped vCPUs, if it gives them their costs exactly. Its rows are those of the tables.
fn with_caps(alloc: Global, plan: Plan, raw: &RawTables, capped: VcpuSet) -> Result<Plan, NotStated>
    requires rows { plan.tables.rows ≡ rows_of raw.now.rows }
    requires good { HaveGoodShapes raw.now.rows }
    requires few { length raw.now.rows ≤ MAX_CORES }
    ensures tasks { IfOk result (λ made. made.tasks ≡ plan.tasks) }
    ensures tables { IfOk result (λ made. made.tables ≡ plan.tables) }
    ensures capped { IfOk result (λ made. made.capped ≡ capped) }
{
    match serve_exactly(alloc, plan.tasks.items(), &capped, raw.rows.items()) {
        Ok(true) => Ok(Plan {
            tasks: plan.tasks,
            tables: plan.tables,
            capped,
        }),
        Ok(false) => Err(NotStated::MoreThanCapped),
        Err(_) => Err(NotStated::NoMemory),
    }
}
