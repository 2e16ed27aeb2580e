ghost use Rattle.std.specs.Prelude.{◌≡◌};
ghost use Rattle.script_doc.specs.declared.script_fault.ScriptFault.TheVariants.{NoMemory};

use std::alloc::{AllocError, AllocFailed};
use std::error::Error;
use std::fmt;
use tab_core::{MAX_CHANGES, MAX_EVENTS};

/// Why a text isn't read as a script: the first fault of the first line with one, whose number is
/// from 1. The faults of one line come in the order of these variants.
#[derive(Clone, Copy, Debug, PartialEq, Eq)]
pub enum ScriptFault {
    /// The line isn't of the form of an event.
    BadLine { line: u32 },
    /// A name of the line is no vCPU's of the host.
    UnknownName { line: u32 },
    /// The tick is below that of the event before.
    OutOfOrder { line: u32 },
    /// The tick isn't before the end of the run.
    LateEvent { line: u32 },
    /// The event is the 65,536th.
    TooManyEvents { line: u32 },
    /// The event is the 16th change of reservations.
    TooManyChanges { line: u32 },
    NoMemory,
}

impl fmt::Display for ScriptFault {
    fn fmt<W: fmt::Write>(&self, f: &mut fmt::Formatter<W>) -> fmt::Result {
        match self {
            ScriptFault::BadLine { line } => write!(f, "script line {line}"),
            ScriptFault::UnknownName { line } => write!(f, "unknown name in script line {line}"),
            ScriptFault::OutOfOrder { line } => write!(f, "script line {line} goes back"),
            ScriptFault::LateEvent { line } => write!(f, "script line {line} is past the run"),
            ScriptFault::TooManyEvents { line } => {
                write!(f, "more than {MAX_EVENTS} events at script line {line}")
            }
            ScriptFault::TooManyChanges { line } => {
                write!(f, "more than {MAX_CHANGES} changes at script line {line}")
            }
            ScriptFault::NoMemory => write!(f, "want of memory"),
        }
    }
}

impl Error for ScriptFault {}

impl From<AllocError> for ScriptFault {
    ghost from_gives = { λ _ fault. fault ≡ NoMemory };

    fn from(_: AllocError) -> ScriptFault {
        ScriptFault::NoMemory
    }
}

impl<T: Drop> From<AllocFailed<T>> for ScriptFault {
    ghost from_gives = { λ _ fault. fault ≡ NoMemory };

    fn from(_: AllocFailed<T>) -> ScriptFault {
        ScriptFault::NoMemory
    }
}
