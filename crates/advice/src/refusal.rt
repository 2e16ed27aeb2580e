use host_doc::HostFault;
use script_doc::ScriptFault;
use tab_core::{Actor, CoreNo, Host, VcpuNo};

/// What a core, or the controller, has to do next, or why there is nothing to do.
#[derive(Clone, Copy, PartialEq, Eq)]
pub enum Due {
    /// The core must see the posted count.
    See,
    /// The core must enter its clock's round.
    Decide,
    /// The core may run its next stint.
    Run,
    /// The core's clock is at the run's end.
    Finished,
    /// The controller has posted every event.
    AllPosted,
}

/// What a call refused, with what its line tells of the place.
#[derive(Clone, Copy)]
pub enum Refusal<'a> {
    /// The words are no command. The place is that of the first word with which none begins, from 0.
    Usage {
        place: u32,
    },
    /// The source failed.
    ReadFault,
    /// The input is longer than its limit.
    TooLong,
    /// The input hasn't as many sections as the command wants.
    BadSections {
        found: u32,
        wanted: u32,
    },
    /// The first section is no host.
    Host(HostFault),
    /// The second section is no script.
    Script(ScriptFault),
    /// This line of the third section, from 1, is no step.
    BadStep {
        line: u32,
    },
    /// No period meets the latency of this vCPU.
    NoPeriod {
        vcpu: VcpuNo,
    },
    /// A vCPU of this host can't be split over the cores.
    NoRoom {
        host: &'a Host,
    },
    /// The vCPUs are due so many ticks of a round, and all cores have so many.
    NoFit {
        demand: u64,
        room: u64,
    },
    /// This line of the second section, from 1, is none of a plan text.
    BadPlanLine {
        line: u32,
    },
    /// The segments of this core make no row: the end of the one at `place` isn't above the one before, or
    /// is beyond the round, or there are only so many and the last falls short of it.
    BadShape {
        core: CoreNo,
        place: u32,
    },
    /// A vCPU is at one tick on two cores.
    Twice {
        tick: u32,
        core: CoreNo,
        other: CoreNo,
    },
    /// A vCPU gets so many ticks in its period of this number, from 0, and not its cost.
    Short {
        period_no: u32,
        got: u32,
        cost: u32,
    },
    /// The trace may have more stints than are kept.
    TraceTooLong,
    /// The step on this line of the third section, from 1, isn't due; its actor has to do this.
    NotNow {
        line: u32,
        due: Due,
    },
    /// The step on that line waits for this actor, which is at this tick.
    Behind {
        line: u32,
        who: Actor,
        tick: u32,
    },
    /// The sink failed.
    WriteFault,
    NoMemory,
}
