ghost use Rattle.std.specs.Prelude.{◌<◌};
ghost use Rattle.std.specs.Option.{ForSome};
ghost use Rattle.tab_core.specs.declared.TheConstants.{MAX_VCPUS};

use crate::number::VcpuNo;

/// One interval of execution of a core: the ticks from `from` up to, and without, `end`.
#[derive(Clone, Copy, Debug, PartialEq, Eq)]
pub struct Stint {
    pub from: u32,
    pub end: u32,
    /// How many events its runnable set includes.
    pub seen: u32,
    /// How many events its plan includes.
    pub used: u32,
    /// The vCPU that the core ran, or none where it idled.
    pub ran: Option<VcpuNo>,
    pub ghost ran_small: { ForSome ran (λ vcpu. vcpu < MAX_VCPUS) },
}
