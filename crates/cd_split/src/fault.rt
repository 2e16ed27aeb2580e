ghost use Rattle.std.specs.Prelude.{◌≡◌};
ghost use Rattle.cd_split.specs.declared.fault.SplitFault.TheVariants.{NoMemory};

use std::alloc::{AllocError, AllocFailed};
use std::error::Error;
use std::fmt;
use tab_core::{Overs, VcpuNo};

/// Why a vCPU can't be split.
#[derive(Debug, Drop)]
pub enum SplitFault {
    /// No unused core takes the last `rest` ticks of each period, and none of two or more takes a
    /// cut of 10 ticks or more. `over` has for each unused core, in rising number, the overloaded
    /// interval that they would make there.
    NoRoom {
        vcpu: VcpuNo,
        rest: u32,
        over: Overs,
    },
    NoMemory,
}

impl fmt::Display for SplitFault {
    fn fmt<W: fmt::Write>(&self, f: &mut fmt::Formatter<W>) -> fmt::Result {
        match self {
            SplitFault::NoRoom { vcpu, rest, .. } => {
                write!(f, "no room for {rest} ticks of vCPU {}", vcpu.0)
            }
            SplitFault::NoMemory => write!(f, "want of memory"),
        }
    }
}

impl Error for SplitFault {}

impl From<AllocError> for SplitFault {
    ghost from_gives = { λ _ fault. fault ≡ NoMemory };

    fn from(_: AllocError) -> SplitFault {
        SplitFault::NoMemory
    }
}

impl<T: Drop> From<AllocFailed<T>> for SplitFault {
    ghost from_gives = { λ _ fault. fault ≡ NoMemory };

    fn from(_: AllocFailed<T>) -> SplitFault {
        SplitFault::NoMemory
    }
}
