ghost use Rattle.std.specs.Prelude.{◌≡◌, ℕ, ◌<◌, ◌≤◌, ◌++◌, ◌*◌, ◌^◌, IfErr, IfOk, IsTrue, List, MatchOption, false, true, length, take};
ghost use Rattle.tab_core.specs.declared.TheConstants.{MAX_CORES, MAX_VCPUS, ROUND};
ghost use Rattle.fleet_place.specs.Fits.{FitsHost, FitsNot};
ghost use Rattle.fleet_place.specs.Held.{load_of_vms, vcpu_count_of};
ghost use Rattle.fleet_place.specs.Stays.{IsStay};
ghost use Rattle.fleet_place.specs.declared.vm.Vm.{Vm as VmValue};

use crate::ask::{is_accepted, sizes_of};
use crate::fault::PlaceFault;
use crate::fleet_host::FleetHost;
use crate::group::Group;
use crate::policy::Policy;
use crate::vm::Vm;
use std::alloc::Global;
use tab_core::{MAX_VCPUS, NoMemory, ROUND};

// The host with those VMs that stay on it; the others are pushed to those that move.
pub(crate) fn stay<'a>(
    alloc: Global,
    policy: &Policy,
    group: &Group<'a>,
    moved: &mut Vec<Vm<'a>>,
) -> Result<FleetHost<'a>, PlaceFault>
    ensures { IfOk result (λ host. (mine : List VmValue) × (moved.new.items ≡ moved.old.items ++ mine)
        × IsStay policy.now group.now host mine) }
{
    let vms = group.vms.as_slice();
    let count = longest(alloc, policy, group.cores, vms)?;
    moved.extend_from_slice(&vms[count..])?;
    let host = host_with(alloc, group.cores, &vms[..count])?;
    Ok(host)
}

// A host of so many cores with these VMs, which are within its limits.
fn host_with<'a>(alloc: Global, cores: u32, vms: &[Vm<'a>]) -> Result<FleetHost<'a>, NoMemory>
    requires some_core { 1 ≤ cores }
    requires few_cores { cores ≤ MAX_CORES }
    requires much { load_of_vms vms.now ≤ cores * ROUND }
    requires many { vcpu_count_of vms.now ≤ MAX_VCPUS }
    ensures { IfOk result (λ host. host ≡ record { cores = cores; vms = vms.now }) }
{
    let mut host = FleetHost::empty(alloc, cores);
    for vm in vms {
        host.push(vm)?;
    }
    Ok(host)
}

// How many of the VMs, from the first on, fit a host of so many cores: the greatest count.
fn longest(alloc: Global, policy: &Policy, cores: u32, vms: &[Vm<'_>]) -> Result<usize, PlaceFault>
    requires some_core { 1 ≤ cores }
    requires few_cores { cores ≤ MAX_CORES }
    ensures within { IfOk result (λ count. count ≤ length vms.now) }
    ensures fits { IfOk result (λ count. 1 ≤ count → FitsHost policy.now cores (take count vms.now)) }
    ensures longest { IfOk result (λ count. (more : ℕ) → count < more → more ≤ length vms.now
        → FitsNot policy.now cores (take more vms.now)) }
{
    let mut count = vms.len();
    while count > 0 {
        if is_fit(alloc, policy, cores, &vms[..count])? {
            return Ok(count);
        }
        count -= 1;
    }
    Ok(0)
}

// Whether the VMs fit a host of so many cores.
fn is_fit(alloc: Global, policy: &Policy, cores: u32, vms: &[Vm<'_>]) -> Result<bool, PlaceFault>
    requires some_core { 1 ≤ cores }
    requires few_cores { cores ≤ MAX_CORES }
    ensures fits { IfOk result (λ is. is ≡ true → FitsHost policy.now cores vms.now) }
    ensures fits_not { IfOk result (λ is. is ≡ false → FitsNot policy.now cores vms.now) }
{
    if !takes_within(vms, u64::from(cores) * u64::from(ROUND)) || !counts_within(vms) {
        return Ok(false);
    }
    let sizes = sizes_of(alloc, vms)?;
    is_accepted(alloc, policy, cores, &sizes)
}

// Whether the VMs take at most so many ticks of a round.
fn takes_within(vms: &[Vm<'_>], ticks: u64) -> bool
    requires { ticks < 2 ^ 40 }
    ensures yes { result ≡ true → load_of_vms vms.now ≤ ticks }
    ensures no { result ≡ false → ticks < load_of_vms vms.now }
{
    let mut load = 0;
    for vm in vms {
        load += vm.demand;
        if load > ticks {
            return false;
        }
    }
    true
}

// Whether they have at most as many vCPUs as a host may have.
fn counts_within(vms: &[Vm<'_>]) -> bool
    ensures yes { result ≡ true → vcpu_count_of vms.now ≤ MAX_VCPUS }
    ensures no { result ≡ false → MAX_VCPUS < vcpu_count_of vms.now }
{
    let mut count = 0;
    for vm in vms {
        count += vm.size.machines * vm.size.vcpus;
        if count > MAX_VCPUS {
            return false;
        }
    }
    true
}
