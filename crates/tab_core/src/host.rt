ghost use Rattle.std.specs.Prelude.{◌≤◌};
ghost use Rattle.tab_core.specs.declared.TheConstants.{MAX_CORES, MAX_SLIVER, MAX_TICK_NS, MIN_TICK_NS, ROUND};

use crate::vcpu::Vcpus;

/// A virtual machine host: its cores, the parameters of planning and running, and its vCPUs.
#[derive(Drop)]
pub struct Host {
    /// The length of a tick in nanoseconds, which no edit changes.
    pub tick_ns: u32,
    pub cores: u32,
    /// How far a core may run ahead of the others and of the script's events, in ticks.
    pub lag: u32,
    /// Slots shorter than this many ticks are joined where that breaks no promise.
    pub sliver: u32,
    /// The longest stint of a vCPU in unused time, in ticks.
    pub quantum: u32,
    pub vcpus: Vcpus,
    pub ghost tick_at_least: { MIN_TICK_NS ≤ tick_ns },
    pub ghost tick_at_most: { tick_ns ≤ MAX_TICK_NS },
    pub ghost some_core: { 1 ≤ cores },
    pub ghost few_cores: { cores ≤ MAX_CORES },
    pub ghost some_lag: { 1 ≤ lag },
    pub ghost lag_in_round: { lag ≤ ROUND },
    pub ghost small_sliver: { sliver ≤ MAX_SLIVER },
    pub ghost some_quantum: { 1 ≤ quantum },
    pub ghost quantum_in_round: { quantum ≤ ROUND },
}
