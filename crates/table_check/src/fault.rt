ghost use Rattle.std.specs.Prelude.{◌≡◌};
ghost use Rattle.table_check.specs.declared.fault.CheckFault.TheVariants.{NoMemory};

use std::alloc::{AllocError, AllocFailed};
use std::error::Error;
use std::fmt;
use tab_core::{CoreNo, VcpuNo};

/// Why tables are no plan. A bad shape comes before any other fault, and a vCPU on two cores before
/// one that gets too little.
#[derive(Clone, Copy, Debug, PartialEq, Eq)]
pub enum CheckFault {
    /// The segments of this core make no row: the end at `place` isn't above the one before or is
    /// beyond the round, or there are only so many segments and the last falls short of the round.
    /// It is the lowest such core.
    BadShape {
        core: CoreNo,
        place: u32,
    },
    /// This vCPU is at one tick on the two cores, of which `core` is the lower one. The tick is the
    /// least at which this is so of a vCPU, and of its pairs of cores it is the first.
    Twice {
        vcpu: VcpuNo,
        tick: u32,
        core: CoreNo,
        other: CoreNo,
    },
    /// This vCPU gets `got` ticks in its period of this number, from 0, and not the `cost` of its
    /// task. It is the lowest such vCPU, and its first such period.
    Short {
        vcpu: VcpuNo,
        period_no: u32,
        got: u32,
        cost: u32,
    },
    NoMemory,
}

impl fmt::Display for CheckFault {
    fn fmt<W: fmt::Write>(&self, f: &mut fmt::Formatter<W>) -> fmt::Result {
        match self {
            CheckFault::BadShape { core, place } => {
                write!(f, "core {} has a bad end at segment {place}", core.0)
            }
            CheckFault::Twice {
                vcpu,
                tick,
                core,
                other,
            } => write!(
                f,
                "vCPU {} stands on cores {} and {} at tick {tick}",
                vcpu.0, core.0, other.0
            ),
            CheckFault::Short {
                vcpu,
                period_no,
                got,
                cost,
            } => write!(
                f,
                "vCPU {} has {got} of {cost} ticks in period {period_no}",
                vcpu.0
            ),
            CheckFault::NoMemory => write!(f, "want of memory"),
        }
    }
}

impl Error for CheckFault {}

impl From<AllocError> for CheckFault {
    ghost from_gives = { λ _ fault. fault ≡ NoMemory };

    fn from(_: AllocError) -> CheckFault {
        CheckFault::NoMemory
    }
}

impl<T: Drop> From<AllocFailed<T>> for CheckFault {
    ghost from_gives = { λ _ fault. fault ≡ NoMemory };

    fn from(_: AllocFailed<T>) -> CheckFault {
        CheckFault::NoMemory
    }
}
