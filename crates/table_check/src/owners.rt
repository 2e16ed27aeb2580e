ghost use Rattle.std.specs.Prelude.{◌≡◌, ℕ, IfOk, IsTrue, Some, false, length};
ghost use Rattle.tab_core.specs.VcpuSets.{has_vcpu};
ghost use Rattle.tab_core.specs.declared.TheConstants.{MAX_VCPUS};
ghost use Rattle.table_form.specs.Tables.Rows.{cells_from};
ghost use Rattle.table_check.specs.Clashes.{IsClash};
ghost use Rattle.table_check.specs.Inside.Owners.{HasOwners, HaveOwners};
ghost use Rattle.table_check.specs.Shapes.{rows_of};

use std::alloc::Global;
use tab_core::{NoMemory, VcpuNo, VcpuSet};
use table_form::{Segment, Segments};

// The vCPUs that are in each of the rows, or no sets where memory runs out.
pub(crate) fn owners_of(alloc: Global, raw: &[Segments]) -> Vec<VcpuSet>
    ensures { HaveOwners (rows_of raw.now) result.items }
{
    match sets_of(alloc, raw) {
        Ok(sets) => sets,
        Err(_) => Vec::new(alloc),
    }
}

// The vCPUs that are in each of the rows, by one pass over the segments.
fn sets_of(alloc: Global, raw: &[Segments]) -> Result<Vec<VcpuSet>, NoMemory>
    ensures { IfOk result (λ sets. HaveOwners (rows_of raw.now) sets.items) }
{
    let mut sets = Vec::with_capacity(alloc, raw.len())?;
    for row in raw {
        sets.push(owners_in(row.items()))?;
    }
    Ok(sets)
}

// The vCPUs that are in the row of these segments.
fn owners_in(segments: &[Segment]) -> VcpuSet
    ensures { HasOwners (cells_from 0 segments.now) result }
{
    let mut owners = VcpuSet::empty();
    for segment in segments {
        put_owner(&mut owners, segment.owner.vcpu());
    }
    owners
}

fn put_owner(owners: &mut VcpuSet, owner: Option<VcpuNo>)
    requires { length owners.old ≡ MAX_VCPUS }
    ensures size { length owners.new ≡ MAX_VCPUS }
    ensures put { (v : ℕ) → owner ≡ Some v → IsTrue (has_vcpu owners.new v) }
    ensures kept { (v : ℕ) → IsTrue (has_vcpu owners.old v) → IsTrue (has_vcpu owners.new v) }
{
    if let Some(vcpu) = owner {
        owners.put(vcpu);
    }
}

// Whether a vCPU may be in the rows of both cores. Where one of the sets isn't there, nothing is seen.
pub(crate) fn may_meet(raw: &[Segments], owners: &[VcpuSet], core: usize, other: usize) -> bool
    requires { HaveOwners (rows_of raw.now) owners.now }
    ensures { result ≡ false → (v x : ℕ) → IsClash (rows_of raw.now) v x core other → ⊥ }
{
    if core >= owners.len() || other >= owners.len() {
        return true;
    }
    owners[core].meets(&owners[other])
}
