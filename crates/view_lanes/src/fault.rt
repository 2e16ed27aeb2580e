use std::error::Error;
use std::fmt;

/// Why a view isn't drawn.
#[derive(Clone, Copy, Debug, PartialEq, Eq)]
pub enum ChartFault {
    /// No tick or no core is shown.
    Nothing,
    /// Not all was written.
    Write,
    NoMemory,
}

impl fmt::Display for ChartFault {
    fn fmt<W: fmt::Write>(&self, f: &mut fmt::Formatter<W>) -> fmt::Result {
        match self {
            ChartFault::Nothing => write!(f, "no tick or no core is shown"),
            ChartFault::Write => write!(f, "the output failed"),
            ChartFault::NoMemory => write!(f, "want of memory"),
        }
    }
}

impl Error for ChartFault {}
