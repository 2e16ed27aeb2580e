//! How many hosts would do for VMs that are left over.
ghost use Rattle.std.specs.Prelude.{◌≡◌, ◌≤◌, IfOk, length};
ghost use Rattle.tab_core.specs.declared.TheConstants.{MAX_CORES};

use crate::fleet::alike;
use crate::place::placed;
use fleet_place::{FleetHost, Placing, Policy, Vm};
use std::alloc::Global;
use tab_core::ROUND;
use tool_input::{Fault, shown};

/// How many hosts more would do for the VMs that are left over: so many of them are used where the VMs are placed by
/// themselves, on hosts of as many cores as the host of most cores has. A VM that fits no such host alone is refused.
///
/// There is room on a host for each VM, but more hosts are walked for each VM too. So few are tried first, and twice as
/// many where these don't do. Hosts that have no VM don't change where the others go, which is argued and not proved: a
/// VM goes to the fullest host that it fits. So VMs are never spread here.
pub(crate) fn more_hosts(
    alloc: Global,
    policy: &Policy,
    placing: &Placing<'_>,
) -> Result<usize, Fault> {
    let left = placing.left.as_slice();
    let cores = most_cores(&placing.hosts);
    let mut count = twice_the_least(cores, left).min(left.len());
    while count < left.len() {
        let more = placed_alike(alloc, policy, cores, count, left)?;
        match more.left.first() {
            Some(vm) => fits_alone(alloc, policy, cores, vm)?,
            None => return Ok(used(&more.hosts)),
        }
        count = count.saturating_mul(2).min(left.len());
    }
    let more = placed_alike(alloc, policy, cores, count, left)?;
    match more.left.first() {
        Some(vm) => Err(misfit(alloc, vm)),
        None => Ok(used(&more.hosts)),
    }
}

// The cores of the host of most cores.
fn most_cores(hosts: &[FleetHost<'_>]) -> u32
    ensures some { 1 ≤ result }
    ensures few { result ≤ MAX_CORES }
{
    let mut most = 1;
    for host in hosts {
        most = host.cores().max(most);
    }
    most
}

// Twice the hosts of so many cores that the VMs' demands would fill, and at least one.
fn twice_the_least(cores: u32, vms: &[Vm<'_>]) -> usize
    requires { 1 ≤ cores }
    ensures { 1 ≤ result }
{
    let mut ticks = 0u64;
    for vm in vms {
        ticks = ticks.saturating_add(vm.demand);
    }
    let least = ticks / (u64::from(cores) * u64::from(ROUND));
    least.saturating_add(1).saturating_mul(2) as usize
}

// The VMs, placed on so many hosts of so many cores, which had none.
fn placed_alike<'a>(
    alloc: Global,
    policy: &Policy,
    cores: u32,
    count: usize,
    vms: &[Vm<'a>],
) -> Result<Placing<'a>, Fault>
    requires some_core { 1 ≤ cores }
    requires few_cores { cores ≤ MAX_CORES }
{
    let groups = alike(alloc, cores, count)?;
    placed(alloc, policy, &groups, vms)
}

// Refuses a VM that doesn't fit a host of so many cores alone.
fn fits_alone(alloc: Global, policy: &Policy, cores: u32, vm: &Vm<'_>) -> Result<(), Fault>
    requires some_core { 1 ≤ cores }
    requires few_cores { cores ≤ MAX_CORES }
{
    let alone = placed_alike(alloc, policy, cores, 1, &[*vm])?;
    if alone.left.is_empty() {
        Ok(())
    } else {
        Err(misfit(alloc, vm))
    }
}

// The fault of a VM that fits no host.
fn misfit(alloc: Global, vm: &Vm<'_>) -> Fault {
    match shown(alloc, vm.size.name) {
        Ok(name) => Fault::Misfit { name },
        Err(_) => Fault::NoMemory,
    }
}

// How many of the hosts have a VM.
fn used(hosts: &[FleetHost<'_>]) -> usize {
    hosts.iter().filter(|host| !host.vms().is_empty()).count()
}
