ghost use Rattle.std.specs.Prelude.{◌≡◌};
ghost use Rattle.plan_make.specs.Faults.{fault_of_split, fault_of_tasks};
ghost use Rattle.plan_make.specs.declared.fault.PlanFault.TheVariants.{NoMemory};

use cd_split::SplitFault;
use period_choice::TaskFault;
use std::alloc::AllocError;
use std::error::Error;
use std::fmt;
use tab_core::{Overs, VcpuNo};

/// Why a host has no plan.
#[derive(Debug, Drop)]
pub enum PlanFault {
    /// No period meets this vCPU's latency. It is the lowest such vCPU.
    NoPeriod {
        vcpu: VcpuNo,
    },
    /// This vCPU is on no core and can't be split: the last `rest` ticks of each of its periods
    /// have no room. It is the first such vCPU in the order of placement. `over` has for each
    /// unused core, by rising number, the overloaded interval that they would make there.
    NoRoom {
        vcpu: VcpuNo,
        rest: u32,
        over: Overs,
    },
    NoMemory,
}

impl fmt::Display for PlanFault {
    fn fmt<W: fmt::Write>(&self, f: &mut fmt::Formatter<W>) -> fmt::Result {
        match self {
            PlanFault::NoPeriod { vcpu } => write!(f, "no period for vCPU {}", vcpu.0),
            PlanFault::NoRoom { vcpu, rest, .. } => {
                write!(f, "no room for vCPU {}, {rest} ticks left", vcpu.0)
            }
            PlanFault::NoMemory => write!(f, "want of memory"),
        }
    }
}

impl Error for PlanFault {}

impl From<AllocError> for PlanFault {
    ghost from_gives = { λ _ fault. fault ≡ NoMemory };

    fn from(_: AllocError) -> PlanFault {
        PlanFault::NoMemory
    }
}

impl From<SplitFault> for PlanFault {
    ghost from_gives = { λ fault given. given ≡ fault_of_split fault };

    fn from(fault: SplitFault) -> PlanFault {
        match fault {
            SplitFault::NoRoom { vcpu, rest, over } => PlanFault::NoRoom { vcpu, rest, over },
            SplitFault::NoMemory => PlanFault::NoMemory,
        }
    }
}

impl From<TaskFault> for PlanFault {
    ghost from_gives = { λ fault given. given ≡ fault_of_tasks fault };

    fn from(fault: TaskFault) -> PlanFault {
        match fault {
            TaskFault::NoPeriod { vcpu } => PlanFault::NoPeriod { vcpu },
            TaskFault::NoMemory => PlanFault::NoMemory,
        }
    }
}
