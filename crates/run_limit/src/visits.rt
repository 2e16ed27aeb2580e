ghost use Rattle.std.specs.Prelude.{◌≡◌, ◌≢◌, ◌<◌, ℕ, IfNone, IfSome, IsFalse, IsTrue, Some, false, true, length, slice_get, slice_index_or};
ghost use Rattle.table_form.specs.Tables.Homes.{IsHome};
ghost use Rattle.table_form.specs.Tables.Rows.{Row};
ghost use Rattle.table_form.specs.Tables.Views.{plan_view};
ghost use Rattle.run_limit.specs.Inside.Walks.{AreVisits, IsNobodyAway, IsSeen};

use tab_core::{CoreNo, VcpuNo};
use table_form::{Owner, Plan};

/// Places for all rows of a plan.
pub(crate) const ROWS: usize = 32;

/// In which other rows the vCPUs of each core have cells.
#[derive(Drop)]
pub(crate) struct Visits {
    /// By the home of the vCPUs, and by row.
    pub rows: [[bool; ROWS]; ROWS],
    /// By the home of the vCPUs, whether there is such a row.
    pub some: [bool; ROWS],
}

/// Those of a plan, by one look at each segment.
pub(crate) fn visits_of(plan: &Plan) -> Visits
    ensures { AreVisits (plan_view plan.now) result }
{
    let mut visits = Visits {
        rows: [[false; ROWS]; ROWS],
        some: [false; ROWS],
    };
    for row in 0..plan.tables.rows.items().len() {
        see_row(plan, row, &mut visits);
    }
    visits
}

// Marks the row for each other core whose vCPU it has.
fn see_row(plan: &Plan, row: usize, visits: &mut Visits)
    requires { row < length plan.now.tables.rows }
    ensures kept { (c d : ℕ) → IsSeen visits.old c d → IsSeen visits.new c d }
    ensures seen { (c v x : ℕ) (cells : Row) → slice_get plan.now.tables.rows row ≡ Some cells
        → slice_get cells x ≡ Some (Some v) → IsHome plan.now.tables.homes c v → c ≢ row
        → IsSeen visits.new c row }
{
    let homes = plan.tables.homes.items();
    let segments = plan.tables.rows.items()[row].segments();
    for at in 0..segments.len() {
        see_owner(homes, segments[at].owner, row, visits);
    }
}

// Marks the row for the home of the owner, where that is another core.
fn see_owner(homes: &[Option<CoreNo>], owner: Owner, row: usize, visits: &mut Visits)
    requires { row < ROWS }
    ensures kept { (c d : ℕ) → IsSeen visits.old c d → IsSeen visits.new c d }
    ensures seen { (c v : ℕ) → owner ≡ Some v → IsHome homes.now c v → c ≢ row
        → IsSeen visits.new c row }
{
    let Some(vcpu) = owner.vcpu() else {
        return;
    };
    let Some(home) = home_of(homes, vcpu) else {
        return;
    };
    if home.index() == row {
        return;
    }
    mark(visits, home.index(), row);
}

fn mark(visits: &mut Visits, core: usize, row: usize)
    requires core { core < ROWS }
    requires row { row < ROWS }
    ensures kept { (c d : ℕ) → IsSeen visits.old c d → IsSeen visits.new c d }
    ensures seen { IsSeen visits.new core row }
{
    mark_row(&mut visits.rows[core], row);
    visits.some[core] = true;
}

fn mark_row(rows: &mut [bool; ROWS], row: usize)
    requires { row < ROWS }
    ensures kept { (d : ℕ) → slice_index_or rows.old d false ≡ true → slice_index_or rows.new d false ≡ true }
    ensures marked { slice_index_or rows.new row false ≡ true }
{
    rows[row] = true;
}

/// Whether the vCPU of the cells, if there is one, has the core as its home.
pub(crate) fn is_of_core(homes: &[Option<CoreNo>], owner: Owner, core: usize) -> bool
    ensures yes { IsTrue result → (v : ℕ) → owner ≡ Some v → IsHome homes.now core v }
    ensures no { IsFalse result → (v : ℕ) → owner ≡ Some v → IsHome homes.now core v → ⊥ }
{
    let Some(vcpu) = owner.vcpu() else {
        return false;
    };
    let Some(home) = home_of(homes, vcpu) else {
        return false;
    };
    home.index() == core
}

// The home of the vCPU, if it has one.
fn home_of(homes: &[Option<CoreNo>], vcpu: VcpuNo) -> Option<CoreNo>
    ensures some { IfSome result (λ home. IsHome homes.now home vcpu) }
    ensures none { IfNone result ((home : ℕ) → IsHome homes.now home vcpu → ⊥) }
{
    let at = vcpu.index();
    if at < homes.len() { homes[at] } else { None }
}
