//! How many vCPUs the plans of a fleet's hosts split.
ghost use Rattle.std.specs.Prelude.{◌≡◌, ℕ, IfOk, Some, length, slice_get};
ghost use Rattle.fleet_place.specs.Fits.{IsSplitCount, SplitsMany};
ghost use Rattle.fleet_place.specs.Held.{Held};

use crate::ask::sizes_of;
use crate::fault::PlaceFault;
use crate::fleet_host::FleetHost;
use crate::policy::Policy;
use period_choice::{TaskFault, tasks_of};
use size_fit::split_of;
use sizes_doc::{SizesFault, host_of_sizes};
use std::alloc::Global;
use tab_core::Host;

/// How many vCPUs a plan of each host with its VMs splits, by the numbers of the hosts.
///
/// `NoHost` comes if the VMs of a host make no host, since a name isn't of the form of a name or is there twice. A host
/// whose plan is refused since no period meets the latency of a vCPU splits nobody; a placing has no such host.
pub fn splits_of(
    alloc: Global,
    policy: &Policy,
    hosts: &[FleetHost<'_>],
) -> Result<Vec<u32>, PlaceFault>
    ensures size { IfOk result (λ splits. length splits.items ≡ length hosts.now) }
    ensures each { IfOk result (λ splits. (number : ℕ) (held : Held) (count : ℕ) → slice_get hosts.now number ≡ Some held
        → slice_get splits.items number ≡ Some count → SplitsMany policy.now held count) }
{
    let mut splits = Vec::with_capacity(alloc, hosts.len())?;
    for host in hosts {
        splits.push(split_on(alloc, policy, host)?)?;
    }
    Ok(splits)
}

// How many vCPUs a plan of the host with its VMs splits.
fn split_on(alloc: Global, policy: &Policy, host: &FleetHost<'_>) -> Result<u32, PlaceFault>
    ensures { IfOk result (SplitsMany policy.now host.now) }
{
    let sizes = sizes_of(alloc, host.vms())?;
    match host_of_sizes(alloc, host.cores(), policy.tick_ns, &sizes) {
        Ok(host) => Ok(count_of(alloc, &host)?),
        Err(SizesFault::NoMemory) => Err(PlaceFault::NoMemory),
        Err(fault) => Err(PlaceFault::NoHost(fault)),
    }
}

// How many of its vCPUs a plan of the host splits.
fn count_of(alloc: Global, host: &Host) -> Result<u32, PlaceFault>
    ensures { IfOk result (IsSplitCount host.now) }
{
    match tasks_of(alloc, host) {
        Ok(tasks) => Ok(split_of(alloc, host, &tasks)?.len() as u32),
        Err(TaskFault::NoPeriod { .. }) => Ok(0),
        Err(TaskFault::NoMemory) => Err(PlaceFault::NoMemory),
    }
}
