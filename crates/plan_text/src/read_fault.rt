ghost use Rattle.std.specs.Prelude.{◌≡◌};
ghost use Rattle.plan_text.specs.declared.read_fault.ReadPlan.TheVariants.{NoMemory};

use std::alloc::AllocError;
use std::error::Error;
use std::fmt;

/// Why a text isn't read as the text of a plan.
#[derive(Clone, Copy, Debug, PartialEq, Eq)]
pub enum ReadPlan {
    /// The first line with which no text for this host and these tasks begins, from 1, or one past
    /// the last where the text stops early.
    BadLine { line: u32 },
    NoMemory,
}

impl fmt::Display for ReadPlan {
    fn fmt<W: fmt::Write>(&self, f: &mut fmt::Formatter<W>) -> fmt::Result {
        match self {
            ReadPlan::BadLine { line } => write!(f, "plan line {line}"),
            ReadPlan::NoMemory => write!(f, "want of memory"),
        }
    }
}

impl Error for ReadPlan {}

impl From<AllocError> for ReadPlan {
    ghost from_gives = { λ _ fault. fault ≡ NoMemory };

    fn from(_: AllocError) -> ReadPlan {
        ReadPlan::NoMemory
    }
}
