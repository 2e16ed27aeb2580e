ghost use Rattle.std.specs.Prelude.{◌≡◌};
ghost use Rattle.view_doc.specs.declared.read_fault.ReadView.TheVariants.{NoMemory};

use std::alloc::{AllocError, AllocFailed};
use std::error::Error;
use std::fmt;

/// Why a text isn't read.
#[derive(Clone, Copy, Debug, PartialEq, Eq)]
pub enum ReadView {
    /// The first line that may not be where it is, from 1, or one past the last where the text stops
    /// early.
    BadLine { line: u32 },
    NoMemory,
}

impl fmt::Display for ReadView {
    fn fmt<W: fmt::Write>(&self, f: &mut fmt::Formatter<W>) -> fmt::Result {
        match self {
            ReadView::BadLine { line } => write!(f, "line {line}"),
            ReadView::NoMemory => write!(f, "want of memory"),
        }
    }
}

impl Error for ReadView {}

impl From<AllocError> for ReadView {
    ghost from_gives = { λ _ fault. fault ≡ NoMemory };

    fn from(_: AllocError) -> ReadView {
        ReadView::NoMemory
    }
}

impl<T: Drop> From<AllocFailed<T>> for ReadView {
    ghost from_gives = { λ _ fault. fault ≡ NoMemory };

    fn from(_: AllocFailed<T>) -> ReadView {
        ReadView::NoMemory
    }
}
