ghost use Rattle.std.specs.Prelude.{◌≡◌, ◌≤◌, ◌++◌, All, IfOk, IsPermutation, flat_map, length, map};
ghost use Rattle.fleet_place.specs.Deals.{IsPlacing};
ghost use Rattle.fleet_place.specs.Fits.{FitsHost};
ghost use Rattle.fleet_place.specs.Held.{all_held};

use crate::deal::deal;
use crate::fault::PlaceFault;
use crate::fleet_host::FleetHost;
use crate::group::Group;
use crate::order::put_in_order;
use crate::policy::Policy;
use crate::stay::stay;
use crate::vm::Vm;
use std::alloc::Global;

/// Where VMs are placed.
#[derive(Drop)]
pub struct Placing<'a> {
    /// The hosts by their numbers, each with its VMs.
    pub hosts: Vec<FleetHost<'a>>,
    /// The VMs that fit no host when their turn came, in that order.
    pub left: Vec<Vm<'a>>,
}

/// Places VMs on hosts by a policy.
///
/// Of the VMs that were on a host the longest prefix that fits it stays. Those that move, and the others, are dealt by
/// falling demand, ties to the lower number: each goes to the host with the least room of those that it fits, or to the
/// one with the least load if VMs are spread, ties to the lower host, and is left over if it fits none. Loads are compared
/// in parts per million of a host's cores, rounded down.
///
/// `NoHost` comes where VMs that are tried together make no host, since a name isn't of the form of a name or is there
/// twice.
pub fn place<'a>(
    alloc: Global,
    policy: &Policy,
    groups: &[Group<'a>],
    others: &[Vm<'a>],
) -> Result<Placing<'a>, PlaceFault>
    ensures placing { IfOk result (λ placing. IsPlacing policy.now groups.now others.now placing.hosts.items placing.left.items) }
    ensures cores { IfOk result (λ placing. map (λ host. host.cores) placing.hosts.items ≡ map (λ group. group.cores) groups.now) }
    ensures each { IfOk result (λ placing. IsPermutation (flat_map (λ group. group.vms.items) groups.now ++ others.now)
        (all_held placing.hosts.items ++ placing.left.items)) }
    ensures fits { IfOk result (λ placing. All (λ host. 1 ≤ length host.vms → FitsHost policy.now host.cores host.vms)
        placing.hosts.items) }
{
    let mut pool = Vec::new(alloc);
    let mut hosts = Vec::with_capacity(alloc, groups.len())?;
    for group in groups {
        let host = stay(alloc, policy, group, &mut pool)?;
        hosts.push(host)?;
    }
    pool.extend_from_slice(others)?;
    put_in_order(&mut pool)?;
    let left = deal(alloc, policy, &mut hosts, &pool)?;
    Ok(Placing { hosts, left })
}
