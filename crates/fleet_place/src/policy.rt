ghost use Rattle.std.specs.Prelude.{◌≤◌};
ghost use Rattle.tab_core.specs.declared.TheConstants.{MAX_TICK_NS, MIN_TICK_NS};

/// By which rules VMs are placed.
#[derive(Clone, Copy)]
pub struct Policy {
    /// Nanoseconds of a tick of each host.
    pub tick_ns: u32,
    /// Whether a host has no room for VMs if its plan would split one of their vCPUs.
    pub no_split: bool,
    /// Whether a VM goes to the host of least load that it fits, and not to the one with the least room.
    pub spread: bool,
    pub ghost least_tick: { MIN_TICK_NS ≤ tick_ns },
    pub ghost most_tick: { tick_ns ≤ MAX_TICK_NS },
}
