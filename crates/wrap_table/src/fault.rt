ghost use Rattle.std.specs.Prelude.{◌≡◌};
ghost use Rattle.wrap_table.specs.Faults.{whole_fault_of_tasks};
ghost use Rattle.wrap_table.specs.declared.fault.WholeFault.TheVariants.{NoMemory};

use period_choice::TaskFault;
use std::alloc::AllocError;
use std::error::Error;
use std::fmt;
use tab_core::VcpuNo;

/// Why a host has no whole-host plan.
#[derive(Clone, Copy, Debug, PartialEq, Eq)]
pub enum WholeFault {
    /// No period meets this vCPU's latency. It is the lowest such vCPU.
    NoPeriod { vcpu: VcpuNo },
    /// The vCPUs are due `demand` ticks of a round together, and the cores have `room`, which is less.
    NoFit { demand: u64, room: u64 },
    NoMemory,
}

impl fmt::Display for WholeFault {
    fn fmt<W: fmt::Write>(&self, f: &mut fmt::Formatter<W>) -> fmt::Result {
        match self {
            WholeFault::NoPeriod { vcpu } => write!(f, "no period for vCPU {}", vcpu.0),
            WholeFault::NoFit { demand, room } => {
                write!(f, "a demand of {demand} ticks, and room for {room}")
            }
            WholeFault::NoMemory => write!(f, "want of memory"),
        }
    }
}

impl Error for WholeFault {}

impl From<AllocError> for WholeFault {
    ghost from_gives = { λ _ fault. fault ≡ NoMemory };

    fn from(_: AllocError) -> WholeFault {
        WholeFault::NoMemory
    }
}

impl From<TaskFault> for WholeFault {
    ghost from_gives = { λ fault given. given ≡ whole_fault_of_tasks fault };

    fn from(fault: TaskFault) -> WholeFault {
        match fault {
            TaskFault::NoPeriod { vcpu } => WholeFault::NoPeriod { vcpu },
            TaskFault::NoMemory => WholeFault::NoMemory,
        }
    }
}
