ghost use Rattle.std.specs.Prelude.{◌≡◌};
ghost use Rattle.trace_report.specs.ReportViews.{no_core_ticks, no_vcpu_ticks};

/// What a report tells of a vCPU, in ticks of the whole run.
#[derive(Clone, Copy, PartialEq, Eq)]
pub struct VcpuTicks {
    /// How many are offered to it.
    pub offered: u64,
    /// How many it ran in its slots.
    pub slots: u64,
    /// How many it ran as the second level's pick.
    pub shared: u64,
    /// Its greatest gap.
    pub gap: u32,
}

/// What a report tells of a core, in ticks of the whole run.
#[derive(Clone, Copy, PartialEq, Eq)]
pub struct CoreTicks {
    /// How many it ran vCPUs in their slots.
    pub slots: u64,
    /// How many it ran the second level's picks.
    pub shared: u64,
    /// How many it idled.
    pub idle: u64,
}

impl VcpuTicks {
    // Nothing happened to the vCPU.
    pub(crate) fn none() -> VcpuTicks
        ensures { result ≡ no_vcpu_ticks }
    {
        VcpuTicks {
            offered: 0,
            slots: 0,
            shared: 0,
            gap: 0,
        }
    }
}

impl CoreTicks {
    // Nothing happened on the core.
    pub(crate) fn none() -> CoreTicks
        ensures { result ≡ no_core_ticks }
    {
        CoreTicks {
            slots: 0,
            shared: 0,
            idle: 0,
        }
    }
}
