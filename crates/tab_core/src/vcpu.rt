ghost use Rattle.std.specs.Prelude.{◌≡◌, ◌<◌, ◌≤◌, length, slice_set};
ghost use Rattle.tab_core.specs.declared.TheConstants.{MAX_VCPUS};
ghost use Rattle.tab_core.specs.Vcpus.{HaveDistinctNames, capped_set, runnable_at_first};

use crate::name::Name;
use crate::number::VcpuNo;
use crate::reservation::Reservation;
use crate::vcpu_set::VcpuSet;
use std::marker::Model;

/// A vCPU of a host. It is admitted where it has a reservation.
#[derive(Drop)]
pub struct Vcpu {
    pub name: Name,
    pub reservation: Option<Reservation>,
    /// Whether it wants to run as the run begins.
    pub runnable: bool,
    /// Whether it runs in its slots alone, and takes no unused time.
    pub capped: bool,
}

/// The vCPUs of a host by number, of which no two have one name. Contracts see the list.
#[derive(Drop)]
pub struct Vcpus {
    items: Vec<Vcpu>,
}

impl Model for Vcpus {
    ghost use Rattle.std.specs.Prelude.{◌≤◌, List, length};
    ghost use Rattle.tab_core.specs.declared.vcpu.Vcpu.{Vcpu};
    ghost use Rattle.tab_core.specs.declared.TheConstants.{MAX_VCPUS};
    ghost use Rattle.tab_core.specs.Vcpus.{HaveDistinctNames};

    ghost Value = { List Vcpu };

    ghost view = { λ vcpus. vcpus.items.items };

    ghost invariant = { λ vcpus. (length vcpus.items.items ≤ MAX_VCPUS)
        × HaveDistinctNames vcpus.items.items };
}

impl Vcpus {
    /// The list of these vCPUs, by number.
    pub fn of(items: Vec<Vcpu>) -> Vcpus
        requires few { length items.items ≤ MAX_VCPUS }
        requires distinct { HaveDistinctNames items.items }
        ensures { result ≡ items.items }
    {
        Vcpus { items }
    }

    /// The vCPUs by number, at most 256, of which no two have one name.
    pub fn items(&self) -> &[Vcpu]
        ensures same { result.now ≡ self.now }
        ensures few { length self.now ≤ MAX_VCPUS }
        ensures distinct { HaveDistinctNames self.now }
    {
        &self.items
    }

    /// The vCPUs that want to run as the run begins.
    pub fn runnable(&self) -> VcpuSet
        ensures { result ≡ runnable_at_first self.now }
    {
        let mut set = VcpuSet::empty();
        for number in 0..self.items.len() {
            set_to(&mut set, number, self.items[number].runnable);
        }
        set
    }

    /// The vCPUs that run in their slots alone.
    pub fn capped(&self) -> VcpuSet
        ensures { result ≡ capped_set self.now }
    {
        let mut set = VcpuSet::empty();
        for number in 0..self.items.len() {
            set_to(&mut set, number, self.items[number].capped);
        }
        set
    }
}

// Makes the vCPU a member, or no member.
fn set_to(set: &mut VcpuSet, number: usize, member: bool)
    requires { number < MAX_VCPUS }
    ensures { set.new ≡ slice_set set.old number member }
{
    if member {
        set.put(VcpuNo(number as u32));
    } else {
        set.take(VcpuNo(number as u32));
    }
}
