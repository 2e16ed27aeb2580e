ghost use Rattle.std.specs.Prelude.{◌≡◌, ◌+◌, ◌*◌, ◌<◌, ◌≤◌, ◌⊎◌, [], IsTrue, OnOk};
ghost use Rattle.tab_core.specs.declared.TheConstants.{MAX_CORES, MAX_VCPUS, ROUND};
ghost use Rattle.fleet_place.specs.Deals.{with_vm};
ghost use Rattle.fleet_place.specs.Held.{load_of_vms, load_ppm, rank_of, room_for_vms, vcpu_count_of};

use crate::policy::Policy;
use crate::vm::Vm;
use std::alloc::Global;
use std::marker::Model;
use tab_core::{MAX_VCPUS, NoMemory, ROUND, WHOLE_PPM};

/// A host of a fleet with its VMs, which are within its limits. Contracts see its cores and its VMs.
#[derive(Drop)]
pub struct FleetHost<'a> {
    cores: u32,
    vms: Vec<Vm<'a>>,
    load: u64,
    vcpus: u32,
}

impl<'a> Model for FleetHost<'a> {
    ghost use Rattle.std.specs.Prelude.{◌≡◌, ◌*◌, ◌≤◌};
    ghost use Rattle.tab_core.specs.declared.TheConstants.{MAX_CORES, MAX_VCPUS, ROUND};
    ghost use Rattle.fleet_place.specs.Held.{Held, load_of_vms, vcpu_count_of};

    ghost Value = { Held };

    ghost view = { λ host. record { cores = host.cores; vms = host.vms.items } };

    ghost invariant = { λ host. (1 ≤ host.cores) × (host.cores ≤ MAX_CORES) × (host.load ≡ load_of_vms host.vms.items)
        × (host.vcpus ≡ vcpu_count_of host.vms.items) × (host.load ≤ host.cores * ROUND) × (host.vcpus ≤ MAX_VCPUS) };
}

impl<'a> FleetHost<'a> {
    /// A host of so many cores without VMs.
    pub fn empty(alloc: Global, cores: u32) -> FleetHost<'a>
        requires some { 1 ≤ cores }
        requires few { cores ≤ MAX_CORES }
        ensures { result ≡ record { cores = cores; vms = [] } }
    {
        FleetHost {
            cores,
            vms: Vec::new(alloc),
            load: 0,
            vcpus: 0,
        }
    }

    /// How many cores the host has.
    pub fn cores(&self) -> u32
        ensures value { result ≡ self.now.cores }
        ensures some { 1 ≤ result }
        ensures few { result ≤ MAX_CORES }
    {
        self.cores
    }

    /// Its VMs, in the order of its document.
    pub fn vms(&self) -> &[Vm<'a>]
        ensures { result.now ≡ self.now.vms }
    {
        &self.vms
    }

    /// The ticks of a round that its VMs take.
    pub fn load(&self) -> u64
        ensures value { result ≡ load_of_vms self.now.vms }
        ensures within { result ≤ self.now.cores * ROUND }
    {
        self.load
    }

    /// How many vCPUs the host's VMs have together.
    pub fn vcpus(&self) -> u32
        ensures value { result ≡ vcpu_count_of self.now.vms }
        ensures few { result ≤ MAX_VCPUS }
    {
        self.vcpus
    }

    /// The ticks of a round that its VMs leave.
    pub fn room(&self) -> u64
        ensures { result ≡ room_for_vms self.now }
    {
        u64::from(self.cores) * u64::from(ROUND) - self.load
    }

    // Its load in parts per million of its cores, rounded down.
    fn load_ppm(&self) -> u64
        ensures { result ≡ load_ppm self.now }
    {
        self.load * u64::from(WHOLE_PPM) / (u64::from(self.cores) * u64::from(ROUND))
    }

    /// What the policy goes by: of the hosts that a VM fits, it goes to the one with the least of it.
    #[tactic(auto, unfolding(crate::specs::Held::rank_of))]
    pub fn rank(&self, policy: &Policy) -> u64
        ensures { result ≡ rank_of policy.now self.now }
    {
        if policy.spread {
            self.load_ppm()
        } else {
            self.room()
        }
    }

    /// Whether the VM is within the host's limits beside its VMs: together they take no more ticks of a
    /// round than the cores have, and have no more than 256 vCPUs. Whether the planner accepts it is
    /// another question.
    pub fn has_space(&self, vm: &Vm<'_>) -> bool
        ensures much { IsTrue result → load_of_vms self.now.vms + vm.now.demand ≤ self.now.cores * ROUND }
        ensures many { IsTrue result → vcpu_count_of self.now.vms + vm.now.size.machines * vm.now.size.vcpus ≤ MAX_VCPUS }
        ensures none { ¬ (IsTrue result) → (self.now.cores * ROUND < load_of_vms self.now.vms + vm.now.demand)
            ⊎ (MAX_VCPUS < vcpu_count_of self.now.vms + vm.now.size.machines * vm.now.size.vcpus) }
    {
        let fits = self.load + vm.demand <= u64::from(self.cores) * u64::from(ROUND);
        fits && self.vcpus + vm.size.machines * vm.size.vcpus <= MAX_VCPUS
    }

    /// Adds a VM that is within the host's limits, as `has_space` says. Fails only when memory runs
    /// out.
    pub fn push(&mut self, vm: &Vm<'a>) -> Result<(), NoMemory>
        requires much { load_of_vms self.old.vms + vm.now.demand ≤ self.old.cores * ROUND }
        requires many { vcpu_count_of self.old.vms + vm.now.size.machines * vm.now.size.vcpus ≤ MAX_VCPUS }
        ensures { OnOk result (self.new ≡ with_vm self.old vm.now) }
    {
        self.vms.push(*vm)?;
        self.load += vm.demand;
        self.vcpus += vm.size.machines * vm.size.vcpus;
        Ok(())
    }
}
