ghost use Rattle.std.specs.Prelude.{◌≡◌};
ghost use Rattle.advice.specs.Faults.{of_sink};

use std::error::Error;
use std::fmt;
use tab_io::WriteFault;

/// Why an advice isn't in the sink whole.
#[derive(Clone, Copy, Debug, PartialEq, Eq)]
pub enum AdviceFault {
    /// Memory ran out, and nothing was written.
    NoMemory,
    /// The sink failed after a prefix of the advice.
    Sink(WriteFault),
}

impl fmt::Display for AdviceFault {
    fn fmt<W: fmt::Write>(&self, f: &mut fmt::Formatter<W>) -> fmt::Result {
        match self {
            AdviceFault::NoMemory => write!(f, "memory ran out"),
            AdviceFault::Sink(fault) => write!(f, "{fault}"),
        }
    }
}

impl Error for AdviceFault {}

// The answer to an advice that needs no memory.
pub(crate) fn of_sink(done: Result<(), WriteFault>) -> Result<(), AdviceFault>
    ensures { result ≡ of_sink done }
{
    match done {
        Ok(()) => Ok(()),
        Err(fault) => Err(AdviceFault::Sink(fault)),
    }
}
