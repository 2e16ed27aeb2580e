ghost use Rattle.std.specs.Prelude.{◌≡◌};
ghost use Rattle.host_judge.specs.declared.fault.JudgeFault.TheVariants.{NoMemory};

use std::alloc::{AllocError, AllocFailed};
use std::error::Error;
use std::fmt;

/// Why a trace isn't judged.
#[derive(Debug, Drop)]
pub enum JudgeFault {
    /// The line of this number, from 1, says nothing, and it is the first such. These are its bytes.
    BadLine { line: u64, text: Vec<u8> },
    /// The source failed, and its count of faults rose in this call.
    ReadFault,
    /// The trace has 2^64 - 1 bytes or more, and its lines or the reads of it can no longer be counted.
    TooLong,
    NoMemory,
}

impl fmt::Display for JudgeFault {
    fn fmt<W: fmt::Write>(&self, f: &mut fmt::Formatter<W>) -> fmt::Result {
        match self {
            JudgeFault::BadLine { line, .. } => write!(f, "line {line} of the trace"),
            JudgeFault::ReadFault => write!(f, "the input failed"),
            JudgeFault::TooLong => write!(f, "the trace has too many lines"),
            JudgeFault::NoMemory => write!(f, "want of memory"),
        }
    }
}

impl Error for JudgeFault {}

impl From<AllocError> for JudgeFault {
    ghost from_gives = { λ _ fault. fault ≡ NoMemory };

    fn from(_: AllocError) -> JudgeFault {
        JudgeFault::NoMemory
    }
}

impl<T: Drop> From<AllocFailed<T>> for JudgeFault {
    ghost from_gives = { λ _ fault. fault ≡ NoMemory };

    fn from(_: AllocFailed<T>) -> JudgeFault {
        JudgeFault::NoMemory
    }
}
