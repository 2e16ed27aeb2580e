ghost use Rattle.std.specs.Prelude.{◌≡◌};
ghost use Rattle.period_choice.specs.declared.fault.TaskFault.TheVariants.{NoMemory};

use std::alloc::{AllocError, AllocFailed};
use std::error::Error;
use std::fmt;
use tab_core::VcpuNo;

/// Why a host's vCPUs can't all be given a period.
#[derive(Clone, Copy, Debug, PartialEq, Eq)]
pub enum TaskFault {
    /// No period meets this vCPU's latency. It is the lowest such vCPU.
    NoPeriod { vcpu: VcpuNo },
    NoMemory,
}

impl fmt::Display for TaskFault {
    fn fmt<W: fmt::Write>(&self, f: &mut fmt::Formatter<W>) -> fmt::Result {
        match self {
            TaskFault::NoPeriod { vcpu } => write!(f, "no period for vCPU {}", vcpu.0),
            TaskFault::NoMemory => write!(f, "want of memory"),
        }
    }
}

impl Error for TaskFault {}

impl From<AllocError> for TaskFault {
    ghost from_gives = { λ _ fault. fault ≡ NoMemory };

    fn from(_: AllocError) -> TaskFault {
        TaskFault::NoMemory
    }
}

impl<T: Drop> From<AllocFailed<T>> for TaskFault {
    ghost from_gives = { λ _ fault. fault ≡ NoMemory };

    fn from(_: AllocFailed<T>) -> TaskFault {
        TaskFault::NoMemory
    }
}
