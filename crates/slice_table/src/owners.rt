ghost use Rattle.std.specs.Prelude.{◌≡◌, ◌<◌, ◌↔◌, ◌⊎◌, ℕ, IfOk, IsTrue, Some, length, slice_get};
ghost use Rattle.tab_core.specs.VcpuSets.{has_vcpu};
ghost use Rattle.tab_core.specs.declared.TheConstants.{MAX_VCPUS};
ghost use Rattle.table_form.specs.Tables.Views.{plan_view};
ghost use Rattle.slice_table.specs.Owners.{AreCourseOwners, AreOwnersIn, AreRowOwners};

use crate::sight::nobody;
use std::alloc::Global;
use std::marker::Model;
use tab_core::{NoMemory, VcpuNo, VcpuSet};
use table_form::{CoreTable, Course, Plan};

/// For each row of a plan the vCPUs that own time there. Which rows matter to a core's spans is read off it, so that
/// it is made once for all cores. Contracts see the sets, by core number.
#[derive(Drop)]
pub struct RowOwners {
    sets: Vec<VcpuSet>,
}

impl Model for RowOwners {
    ghost use Rattle.std.specs.Prelude.{Bool, List};

    ghost Value = { List (List Bool) };

    ghost view = { λ owners. owners.sets.items };
}

impl RowOwners {
    /// Those of the plan, by one pass over its segments. Fails only when memory runs out.
    pub fn of(alloc: Global, plan: &Plan) -> Result<RowOwners, NoMemory>
        ensures { IfOk result (λ owners. AreRowOwners (plan_view plan.now) owners) }
    {
        let rows = plan.tables.rows.items();
        let mut sets = Vec::with_capacity(alloc, rows.len())?;
        for number in 0..rows.len() {
            sets.push(owners_in(&rows[number]))?;
        }
        Ok(RowOwners { sets })
    }

    /// How many rows there are.
    pub fn rows(&self) -> usize
        ensures { result ≡ length self.now }
    {
        self.sets.len()
    }

    /// The owners in the row of the number.
    pub fn of_row(&self, number: usize) -> &VcpuSet
        requires { number < length self.now }
        ensures { slice_get self.now number ≡ Some result.now }
    {
        &self.sets[number]
    }
}

/// The owners in the rows of each plan of the course. Fails only when memory runs out.
pub fn course_owners(alloc: Global, course: &Course) -> Result<Vec<RowOwners>, NoMemory>
    ensures { IfOk result (λ owners. AreCourseOwners course.now owners.items) }
{
    let mut owners = Vec::with_capacity(alloc, course.plans() as usize)?;
    for number in 0..course.plans() {
        owners.push(RowOwners::of(alloc, course.plan(number))?)?;
    }
    Ok(owners)
}

fn owners_in(row: &CoreTable) -> VcpuSet
    ensures { AreOwnersIn row.now result }
{
    let segments = row.segments();
    let mut owners = nobody();
    for at in 0..segments.len() {
        put_owner(&mut owners, segments[at].owner.vcpu());
    }
    owners
}

fn put_owner(owners: &mut VcpuSet, owner: Option<VcpuNo>)
    requires { length owners.old ≡ MAX_VCPUS }
    ensures size { length owners.new ≡ MAX_VCPUS }
    ensures members { (v : ℕ) → v < MAX_VCPUS → (IsTrue (has_vcpu owners.new v)
        ↔ (IsTrue (has_vcpu owners.old v) ⊎ (owner ≡ Some v))) }
{
    if let Some(vcpu) = owner {
        owners.put(vcpu);
    }
}
