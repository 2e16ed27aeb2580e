ghost use Rattle.std.specs.Prelude.{◌≡◌};
ghost use Rattle.fleet_place.specs.declared.fault.PlaceFault.TheVariants.{NoMemory};

use sizes_doc::SizesFault;
use std::alloc::{AllocError, AllocFailed};
use std::error::Error;
use std::fmt;

/// Why VMs aren't placed.
#[derive(Clone, Copy, Debug, PartialEq, Eq)]
pub enum PlaceFault {
    /// Some of them make no host: a name of a vCPU isn't of the form of a name, or is there twice.
    NoHost(SizesFault),
    NoMemory,
}

impl fmt::Display for PlaceFault {
    fn fmt<W: fmt::Write>(&self, f: &mut fmt::Formatter<W>) -> fmt::Result {
        match self {
            PlaceFault::NoHost(fault) => write!(f, "{fault}"),
            PlaceFault::NoMemory => write!(f, "out of memory"),
        }
    }
}

impl Error for PlaceFault {}

impl From<AllocError> for PlaceFault {
    ghost from_gives = { λ _ fault. fault ≡ NoMemory };

    fn from(_: AllocError) -> PlaceFault {
        PlaceFault::NoMemory
    }
}

impl<T: Drop> From<AllocFailed<T>> for PlaceFault {
    ghost from_gives = { λ _ fault. fault ≡ NoMemory };

    fn from(_: AllocFailed<T>) -> PlaceFault {
        PlaceFault::NoMemory
    }
}
