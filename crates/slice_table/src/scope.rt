ghost use Rattle.std.specs.Prelude.{◌≡◌, ◌≢◌, ◌↔◌, ◌<◌, ℕ, IfOk, IsTrue, false, true, length};
ghost use Rattle.tab_core.specs.VcpuSets.{has_vcpu};
ghost use Rattle.table_form.specs.Tables.Views.{plan_view};
ghost use Rattle.slice_table.specs.Inside.Sweeps.{IsScope};
ghost use Rattle.slice_table.specs.Owners.{AreRowOwners};

use crate::owners::RowOwners;
use std::alloc::{AllocError, Global};
use tab_core::{CoreNo, VcpuSet};
use table_form::Plan;

/// What a core's spans depend on beside its own row.
#[derive(Drop)]
pub(crate) struct Scope {
    pub core: CoreNo,
    /// The vCPUs whose home is the core.
    pub home: VcpuSet,
    /// Those of them that may run beyond their slots.
    pub sharers: VcpuSet,
    /// The numbers of the other rows that have some of these vCPUs.
    pub others: Vec<usize>,
}

/// The scope of the core, by one look at the owners in each row.
pub(crate) fn scope_of(
    alloc: Global,
    plan: &Plan,
    owners: &RowOwners,
    core: CoreNo,
) -> Result<Scope, AllocError>
    requires core { core < length plan.now.tables.rows }
    requires owners { AreRowOwners (plan_view plan.now) owners.now }
    ensures core { IfOk result (λ scope. scope.core ≡ core) }
    ensures scope { IfOk result (λ scope. IsScope (plan_view plan.now) scope) }
{
    let home = plan.homes_of(core);
    prove!(plan.tables.homes.items().len() <= 256);
    let mut others = Vec::new(alloc);
    for number in 0..owners.rows() {
        if matters(owners.of_row(number), number, core, &home) {
            others.push(number)?;
        }
    }
    let sharers = uncapped(&home, &plan.capped);
    Ok(Scope {
        core,
        home,
        sharers,
        others,
    })
}

// Those of the set that may run beyond their slots.
fn uncapped(set: &VcpuSet, capped: &VcpuSet) -> VcpuSet
    ensures { (v : ℕ) → (IsTrue (has_vcpu result v)
        ↔ (IsTrue (has_vcpu set.now v) × (has_vcpu capped.now v ≡ false))) }
{
    set.without(capped)
}

// Whether the row of the number is another one than the core's, and has one of the vCPUs.
fn matters(owners: &VcpuSet, number: usize, core: CoreNo, home: &VcpuSet) -> bool
    ensures other { result ≡ true → number ≢ core }
    ensures none { result ≡ false → number ≢ core → (v : ℕ) → IsTrue (has_vcpu owners.now v)
        → has_vcpu home.now v ≡ false }
{
    number != core.index() && owners.first_common(home, 0).is_some()
}
