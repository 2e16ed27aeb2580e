ghost use Rattle.std.specs.Prelude.{◌≡◌, ℕ, ◌≤◌, ◌++◌, ◌⊎◌, false, true, [], ◌∷◌, IfErr, IfOk, List};
ghost use Rattle.tab_core.specs.declared.TheConstants.{MAX_CORES};
ghost use Rattle.sizes_doc.specs.SizedHost.{HasSizesFault};
ghost use Rattle.sizes_doc.specs.declared.fault.SizesFault.{SizesFault as SizesFaultValue};
ghost use Rattle.sizes_doc.specs.declared.size.Size.{Size as SizeValue};
ghost use Rattle.size_fit.specs.Fits.{HasNoRoom};
ghost use Rattle.fleet_place.specs.Fits.{IsAccepted, IsHostRefused};
ghost use Rattle.fleet_place.specs.Held.{sizes_in};
ghost use Rattle.fleet_place.specs.declared.fault.PlaceFault.TheVariants.{NoHost, NoMemory};

use crate::fault::PlaceFault;
use crate::policy::Policy;
use crate::vm::Vm;
use period_choice::{TaskFault, tasks_of};
use plan_make::{PlanFault, plan_with};
use sizes_doc::{Size, SizesFault, host_of_sizes};
use std::alloc::{AllocError, Global};
use tab_core::{Host, NoMemory};
use worst_fit::place as place_on_cores;

// Whether the sizes make a host that is planned. If worst fit leaves no vCPU over, it is; otherwise a vCPU would be split,
// and if that may be, the planner says.
pub(crate) fn is_accepted(
    alloc: Global,
    policy: &Policy,
    cores: u32,
    sizes: &[Size<'_>],
) -> Result<bool, PlaceFault>
    requires some_core { 1 ≤ cores }
    requires few_cores { cores ≤ MAX_CORES }
    ensures accepted { IfOk result (λ is. is ≡ true → IsAccepted policy.now cores sizes.now) }
    ensures refused { IfOk result (λ is. is ≡ false → IsHostRefused policy.now cores sizes.now) }
    ensures fault { IfErr result (λ fault. (fault ≡ NoMemory)
        ⊎ ((why : SizesFaultValue) × (fault ≡ NoHost why) × HasSizesFault sizes.now why)) }
{
    match host_of_sizes(alloc, cores, policy.tick_ns, sizes) {
        Ok(host) => Ok(has_room(alloc, policy.no_split, &host)?),
        Err(SizesFault::NoMemory) => Err(PlaceFault::NoMemory),
        Err(fault) => Err(PlaceFault::NoHost(fault)),
    }
}

// Whether the host has room for its vCPUs.
fn has_room(alloc: Global, no_split: bool, host: &Host) -> Result<bool, NoMemory>
    ensures planned { IfOk result (λ has. has ≡ true → HasNoRoom no_split host.now → ⊥) }
    ensures refused { IfOk result (λ has. has ≡ false → HasNoRoom no_split host.now) }
{
    let tasks = match tasks_of(alloc, host) {
        Ok(tasks) => tasks,
        Err(TaskFault::NoPeriod { .. }) => return Ok(false),
        Err(TaskFault::NoMemory) => return Err(AllocError),
    };
    let placed = place_on_cores(alloc, &tasks, host.cores)?;
    if placed.left.items().is_empty() {
        return Ok(true);
    }
    if no_split {
        return Ok(false);
    }
    match plan_with(alloc, host, tasks) {
        Ok(_) => Ok(true),
        Err(PlanFault::NoRoom { .. }) => Ok(false),
        Err(PlanFault::NoPeriod { .. }) => Ok(false),
        Err(PlanFault::NoMemory) => Err(AllocError),
    }
}

/// The sizes of VMs, in their order.
pub fn sizes_of<'a>(alloc: Global, vms: &[Vm<'a>]) -> Result<Vec<Size<'a>>, NoMemory>
    ensures { IfOk result (λ sizes. sizes.items ≡ sizes_in vms.now) }
{
    let mut sizes = Vec::with_capacity(alloc, vms.len())?;
    for vm in vms {
        sizes.push(vm.size)?;
    }
    Ok(sizes)
}

// The sizes of VMs, and that of one more after them.
pub(crate) fn sizes_with<'a>(
    alloc: Global,
    vms: &[Vm<'a>],
    vm: &Vm<'a>,
) -> Result<Vec<Size<'a>>, NoMemory>
    ensures { IfOk result (λ sizes. sizes.items ≡ sizes_in (vms.now ++ vm.now ∷ [])) }
{
    let mut sizes = sizes_of(alloc, vms)?;
    sizes.push(vm.size)?;
    Ok(sizes)
}
