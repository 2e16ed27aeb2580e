ghost use Rattle.std.specs.Prelude.{◌≡◌, ◌≤◌, IfOk};
ghost use Rattle.tab_core.specs.declared.TheConstants.{MAX_CORES};
ghost use Rattle.table_form.specs.Tables.Views.{plan_view};
ghost use Rattle.flow_net.specs.Allotments.{IsAllotment};
ghost use Rattle.flow_net.specs.Allotted.{allotment_view};
ghost use Rattle.wrap_table.specs.Wrapping.{IsWrapped};

use crate::homing::homes_of;
use crate::laying::rows_of;
use flow_net::Allotment;
use std::alloc::Global;
use tab_core::{NoMemory, Tasks, VcpuSet};
use table_form::{Homes, Plan, Rows, Tables};

/// The plan of an allotment: in each interval the vCPUs' ticks are laid in rising number, one after the
/// other, along core 0, then core 1, and so on. A vCPU that reaches a core's end goes on at the
/// interval's start on the next core. What no vCPU gets is idle. The home of an admitted vCPU is the
/// core with most of its cells, of those the lowest. Any set of vCPUs may be capped, since each vCPU
/// gets exactly its cost in each of its periods.
///
/// The allotment is one of these tasks to so many cores, at most 32. Fails only when memory runs out.
///
/// Source: the wrap-around rule of R. McNaughton, "Scheduling with deadlines and loss functions",
/// Management Science 6, 1959, in each interval.
pub fn wrap(
    alloc: Global,
    tasks: &Tasks,
    allotment: &Allotment,
    cores: u32,
    capped: VcpuSet,
) -> Result<Plan, NoMemory>
    requires cores { cores ≤ MAX_CORES }
    requires allotment { IsAllotment tasks.now cores (allotment_view allotment.now) }
    ensures wrapped { IfOk result (λ plan. IsWrapped tasks.now (allotment_view allotment.now) cores
        (plan_view plan)) }
    ensures capped { IfOk result (λ plan. plan.capped ≡ capped) }
{
    let tasks = tasks.items();
    let rows = rows_of(alloc, allotment, cores)?;
    let homes = homes_of(alloc, tasks, &rows)?;
    let tasks = Vec::from_slice(alloc, tasks)?;
    Ok(Plan {
        tasks: Tasks::of(tasks),
        tables: Tables {
            homes: Homes::of(homes),
            rows: Rows::of(rows),
        },
        capped,
    })
}
