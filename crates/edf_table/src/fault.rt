ghost use Rattle.std.specs.Prelude.{◌≡◌};
ghost use Rattle.edf_table.specs.declared.fault.EdfFault.TheVariants.{NoMemory};

use std::alloc::AllocError;
use std::error::Error;
use std::fmt;

/// Why pieces have no row.
#[derive(Clone, Copy, Debug, PartialEq, Eq)]
pub enum EdfFault {
    /// The pieces don't fit. Of the overloaded intervals this is the one of least end, and of
    /// those the one of greatest begin; `demand` is what the jobs inside it cost, in ticks.
    Miss { from: u32, to: u32, demand: u64 },
    NoMemory,
}

impl fmt::Display for EdfFault {
    fn fmt<W: fmt::Write>(&self, f: &mut fmt::Formatter<W>) -> fmt::Result {
        match self {
            EdfFault::Miss { from, to, demand } => {
                write!(f, "{demand} ticks are due between ticks {from} and {to}")
            }
            EdfFault::NoMemory => write!(f, "want of memory"),
        }
    }
}

impl Error for EdfFault {}

impl From<AllocError> for EdfFault {
    ghost from_gives = { λ _ e. e ≡ NoMemory };

    fn from(_: AllocError) -> Self {
        EdfFault::NoMemory
    }
}
