ghost use Rattle.std.specs.Prelude.{◌≡◌, ◌≤◌, ℕ, IfOk, Some, length, slice_get};
ghost use Rattle.tab_core.specs.declared.TheConstants.{MAX_CORES};
ghost use Rattle.table_form.specs.Tables.Serves.{owner_at};

use std::alloc::Global;
use tab_core::{Name, NoMemory, ROUND, Reservation, Tasks, Vcpu, VcpuSet};
use table_form::{CoreTable, Homes, Plan, RowBuilder, Rows, Tables};

pub(crate) fn vcpu_of(
    name: Name,
    reservation: Option<Reservation>,
    runnable: bool,
    capped: bool,
) -> Vcpu
    ensures { result.name ≡ name }
{
    Vcpu {
        name,
        reservation,
        runnable,
        capped,
    }
}

fn idle_row(alloc: Global) -> Result<CoreTable, NoMemory>
    ensures { IfOk result (λ row. (x v : ℕ) → slice_get row x ≡ Some (Some v) → ⊥) }
{
    let mut row = RowBuilder::new(alloc);
    row.push_run(None, ROUND)?;
    Ok(row.finish())
}

fn idle_rows(alloc: Global, cores: u32) -> Result<Vec<CoreTable>, NoMemory>
    ensures count { IfOk result (λ rows. length rows.items ≡ cores) }
    ensures idle { IfOk result (λ rows. (c x v : ℕ) → owner_at rows.items c x ≡ Some v → ⊥) }
{
    let mut rows = Vec::new(alloc);
    for core in 0..cores {
        let row = idle_row(alloc)?;
        rows.push(row)?;
    }
    Ok(rows)
}

// A plan of cores without slots.
pub(crate) fn idle_plan(alloc: Global, cores: u32) -> Result<Plan, NoMemory>
    requires { cores ≤ MAX_CORES }
    ensures { IfOk result (λ plan. length plan.tables.rows ≡ cores) }
{
    let rows = Rows::of(idle_rows(alloc, cores)?);
    Ok(Plan {
        tasks: Tasks::of(Vec::new(alloc)),
        tables: Tables {
            homes: Homes::of(Vec::new(alloc)),
            rows,
        },
        capped: VcpuSet::empty(),
    })
}
