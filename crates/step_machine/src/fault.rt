ghost use Rattle.std.specs.Prelude.{◌≡◌};
ghost use Rattle.step_machine.specs.declared.fault.ReplayFault.TheVariants.{NoMemory};

use crate::answer::Answer;
use std::alloc::AllocError;
use std::error::Error;
use std::fmt;

/// Why a list of steps can't be replayed.
#[derive(Clone, Copy, Debug, PartialEq, Eq)]
pub enum ReplayFault {
    /// The first step that isn't done, by its place from 0, and its answer.
    Refused { place: u32, answer: Answer },
    NoMemory,
}

impl fmt::Display for ReplayFault {
    fn fmt<W: fmt::Write>(&self, f: &mut fmt::Formatter<W>) -> fmt::Result {
        match self {
            ReplayFault::Refused { place, .. } => write!(f, "step {place}, from 0, isn't done"),
            ReplayFault::NoMemory => write!(f, "want of memory"),
        }
    }
}

impl Error for ReplayFault {}

impl From<AllocError> for ReplayFault {
    ghost from_gives = { λ _ fault. fault ≡ NoMemory };

    fn from(_: AllocError) -> Self {
        ReplayFault::NoMemory
    }
}
