/// What a report says became of a change of the script.
#[derive(Clone, Copy)]
pub enum Became<'a> {
    /// It was planned.
    Planned,
    /// No period meets what the vCPU of this name has reserved.
    NoPeriod(&'a [u8]),
    /// There was no room for the vCPU of this name.
    NoRoom(&'a [u8]),
}

/// A change of the script, by its tick.
#[derive(Clone, Copy)]
pub struct ReportedChange<'a> {
    pub tick: u32,
    pub became: Became<'a>,
}

/// A round that begins with another plan than the round before, and the number of its plan.
#[derive(Clone, Copy)]
pub struct PlanStart {
    pub round: u32,
    pub plan: u32,
}

/// What a vCPU got, in ticks of the whole run.
#[derive(Clone, Copy)]
pub struct VcpuRan<'a> {
    pub name: &'a [u8],
    /// How many were offered to it.
    pub offered: u32,
    /// How many it ran in its slots.
    pub slots: u32,
    /// How many it ran in time that others didn't use.
    pub shared: u32,
    /// The greatest number in a row without an offer to it.
    pub gap: u32,
}

/// What a core did, in ticks of the whole run.
#[derive(Clone, Copy)]
pub struct CoreRan {
    /// How many it ran vCPUs in their slots.
    pub slots: u32,
    /// How many it ran others.
    pub shared: u32,
    /// How many it idled.
    pub idle: u32,
}

// What a line of a report says.
#[derive(Clone, Copy)]
pub(crate) enum Said<'a> {
    // How many rounds, cores and events there are.
    Begun {
        rounds: u32,
        cores: u32,
        events: u32,
    },
    // What became of the change of this number.
    Changed {
        number: u32,
        change: ReportedChange<'a>,
    },
    // A round begins with another plan.
    Planned(PlanStart),
    // What a vCPU got.
    Vcpu(VcpuRan<'a>),
    // What the core of this number did.
    Core {
        number: u32,
        ran: CoreRan,
    },
    // The report ends.
    Done,
}
