ghost use Rattle.std.specs.Prelude.{◌≡◌, ◌+◌, ◌*◌, ◌<◌, ◌≤◌, None, IfNone, IfOk, IfSome, IsSomeAnd, OnOk, Some, false, true, length, replicate, slice_get, slice_set};
ghost use Rattle.tab_core.specs.declared.TheConstants.{MAX_VCPUS, ROUND};
ghost use Rattle.fleet_place.specs.Deals.{Deal, IsBestHost, Joins, JoinsNone, JoinsNot, with_vm};
ghost use Rattle.fleet_place.specs.Held.{Held, load_of_vms, rank_of, vcpu_count_of};
ghost use Rattle.fleet_place.specs.Inside.Memory.{IsAlike, IsRefusedBeside, IsTurn, KnowsRefusals};

use crate::ask::{is_accepted, sizes_with};
use crate::fault::PlaceFault;
use crate::fleet_host::FleetHost;
use crate::policy::Policy;
use crate::vm::Vm;
use sizes_doc::Size;
use std::alloc::Global;
use tab_core::NoMemory;

// Deals the VMs, in this order, to the hosts, and gives those that are left over.
pub(crate) fn deal<'a>(
    alloc: Global,
    policy: &Policy,
    hosts: &mut [FleetHost<'a>],
    order: &[Vm<'a>],
) -> Result<Vec<Vm<'a>>, PlaceFault>
    ensures { IfOk result (λ left. Deal policy.now hosts.old order.now hosts.new left.items) }
{
    let mut refused = nothing_refused(alloc, hosts.len())?;
    deal_all(alloc, policy, hosts, &mut refused, order)
}

// No size was refused at any host yet.
fn nothing_refused<'a>(alloc: Global, hosts: usize) -> Result<Vec<Option<Size<'a>>>, NoMemory>
    ensures { IfOk result (λ refused. refused.items ≡ replicate hosts None) }
{
    Ok(vec![in alloc; None; hosts]?)
}

// Deals the VMs, where these sizes were refused at the hosts.
fn deal_all<'a>(
    alloc: Global,
    policy: &Policy,
    hosts: &mut [FleetHost<'a>],
    refused: &mut [Option<Size<'a>>],
    order: &[Vm<'a>],
) -> Result<Vec<Vm<'a>>, PlaceFault>
    requires sizes { length refused.old ≡ length hosts.old }
    requires known { KnowsRefusals policy.now hosts.old refused.old }
    ensures { IfOk result (λ left. Deal policy.now hosts.old order.now hosts.new left.items) }
{
    let mut left = Vec::new(alloc);
    for vm in order {
        deal_next(alloc, policy, hosts, refused, &mut left, vm)?;
    }
    Ok(left)
}

// Deals one VM: to the best host that it fits, or else to those that are left over.
fn deal_next<'a>(
    alloc: Global,
    policy: &Policy,
    hosts: &mut [FleetHost<'a>],
    refused: &mut [Option<Size<'a>>],
    left: &mut Vec<Vm<'a>>,
    vm: &Vm<'a>,
) -> Result<(), PlaceFault>
    requires sizes { length refused.old ≡ length hosts.old }
    requires known { KnowsRefusals policy.now hosts.old refused.old }
    ensures { OnOk result (IsTurn policy.now vm.now hosts.old left.old.items hosts.new left.new.items refused.new) }
{
    match best_host(alloc, policy, hosts, refused, vm)? {
        Some(number) => push_to(hosts, refused, number, vm)?,
        None => left.push(*vm)?,
    }
    Ok(())
}

// Adds a VM to the host of a number, and forgets what was refused there.
fn push_to<'a>(
    hosts: &mut [FleetHost<'a>],
    refused: &mut [Option<Size<'a>>],
    number: usize,
    vm: &Vm<'a>,
) -> Result<(), NoMemory>
    requires sizes { length refused.old ≡ length hosts.old }
    requires here { number < length hosts.old }
    requires much { (held : Held) → slice_get hosts.old number ≡ Some held
        → load_of_vms held.vms + vm.now.demand ≤ held.cores * ROUND }
    requires many { (held : Held) → slice_get hosts.old number ≡ Some held
        → vcpu_count_of held.vms + vm.now.size.machines * vm.now.size.vcpus ≤ MAX_VCPUS }
    ensures hosts { OnOk result ((held : Held) → slice_get hosts.old number ≡ Some held
        → hosts.new ≡ slice_set hosts.old number (with_vm held vm.now)) }
    ensures refused { OnOk result (refused.new ≡ slice_set refused.old number None) }
{
    hosts[number].push(vm)?;
    refused[number] = None;
    Ok(())
}

// The best host that the VM fits, and of those the lowest. Of each host the size is kept that was refused last beside
// its VMs, so that the planner isn't asked again for one that is alike.
fn best_host<'a>(
    alloc: Global,
    policy: &Policy,
    hosts: &[FleetHost<'a>],
    refused: &mut [Option<Size<'a>>],
    vm: &Vm<'a>,
) -> Result<Option<usize>, PlaceFault>
    requires sizes { length refused.old ≡ length hosts.now }
    requires known { KnowsRefusals policy.now hosts.now refused.old }
    ensures some { IfOk result (λ best. IfSome best (λ number. (held : Held) × IsBestHost policy.now hosts.now vm.now number held)) }
    ensures none { IfOk result (λ best. IfNone best (JoinsNone policy.now hosts.now vm.now)) }
    ensures length { OnOk result (length refused.new ≡ length refused.old) }
    ensures knows { OnOk result (KnowsRefusals policy.now hosts.now refused.new) }
{
    let mut best = None;
    for (number, host) in hosts.iter().enumerate() {
        if is_better(policy, hosts, best, host.rank(policy))
            && joins(alloc, policy, host, &mut refused[number], vm)?
        {
            best = Some(number);
        }
    }
    Ok(best)
}

// Whether a host of this rank comes before the best so far, if there is one.
fn is_better(policy: &Policy, hosts: &[FleetHost<'_>], best: Option<usize>, rank: u64) -> bool
    requires { IfSome best (λ number. number < length hosts.now) }
    ensures better { result ≡ true → IfSome best (λ number. (held : Held) → slice_get hosts.now number ≡ Some held
        → rank < rank_of policy.now held) }
    ensures not { result ≡ false → IsSomeAnd best (λ number. (held : Held) × (slice_get hosts.now number ≡ Some held)
        × (rank_of policy.now held ≤ rank)) }
{
    match best {
        Some(number) => rank < hosts[number].rank(policy),
        None => true,
    }
}

// Whether the VM fits the host beside its VMs. If it doesn't since the planner refuses it, its size is kept.
fn joins<'a>(
    alloc: Global,
    policy: &Policy,
    host: &FleetHost<'a>,
    refused: &mut Option<Size<'a>>,
    vm: &Vm<'a>,
) -> Result<bool, PlaceFault>
    requires known { IfSome refused.old (IsRefusedBeside policy.now host.now) }
    ensures fits { IfOk result (λ fits. fits ≡ true → Joins policy.now host.now vm.now) }
    ensures fits_not { IfOk result (λ fits. fits ≡ false → JoinsNot policy.now host.now vm.now) }
    ensures knows { OnOk result (IfSome refused.new (IsRefusedBeside policy.now host.now)) }
{
    if !host.has_space(vm) || is_known(refused, vm) {
        return Ok(false);
    }
    let sizes = sizes_with(alloc, host.vms(), vm)?;
    let fits = is_accepted(alloc, policy, host.cores(), &sizes)?;
    if !fits {
        *refused = Some(vm.size);
    }
    Ok(fits)
}

// Whether a size that is alike was refused.
fn is_known(refused: &Option<Size<'_>>, vm: &Vm<'_>) -> bool
    ensures { result ≡ true → IsSomeAnd refused.now (λ size. IsAlike size vm.now.size) }
{
    match refused {
        Some(size) => is_alike(size, &vm.size),
        None => false,
    }
}

// Whether the sizes ask for the same reservations.
#[tactic(auto, using(tab_core::proofs::Alike::same_reservation))]
fn is_alike(one: &Size<'_>, other: &Size<'_>) -> bool
    ensures { result ≡ true → IsAlike one.now other.now }
{
    one.machines == other.machines
        && one.vcpus == other.vcpus
        && one.reservation.share_ppm == other.reservation.share_ppm
        && one.reservation.latency_ns == other.reservation.latency_ns
}
