use std::error::Error;
use std::fmt;

/// Why a line of a trace can't be drawn: of several causes the first of these.
#[derive(Clone, Copy, Debug, PartialEq, Eq)]
pub enum LineCause {
    /// It isn't of the form of a line.
    NoForm,
    /// Its time is before that of a line before it.
    Falls,
    /// What it names hasn't the form of a vCPU's name.
    NoName,
    /// Its vCPU runs, and it names no CPU.
    NoCpu,
    /// Its vCPU runs on a CPU with a number above 31.
    HighCpu,
    /// It names one vCPU more than 256.
    ManyVcpus,
}

/// Why a trace can't be drawn. Lines are counted from 1.
#[derive(Clone, Copy, Debug, PartialEq, Eq)]
pub enum TraceFault {
    /// The first line that can't be drawn.
    BadLine { line: u64, cause: LineCause },
    /// The first line by which a vCPU begins to run on a CPU on which another runs.
    Shared { line: u64 },
    /// The trace lasts 2^32 times 10 microseconds, which are 11.9 hours, or more.
    TooLong,
    /// The first line from which a vCPU runs and begins and ends within one tick of this many ns.
    Short { line: u64, tick_ns: u16 },
    NoMemory,
}

impl fmt::Display for TraceFault {
    fn fmt<W: fmt::Write>(&self, f: &mut fmt::Formatter<W>) -> fmt::Result {
        match self {
            TraceFault::BadLine { line, .. } => write!(f, "line {line} of the trace"),
            TraceFault::Shared { line } => write!(f, "line {line} of the trace: the CPU is taken"),
            TraceFault::TooLong => write!(f, "the trace lasts too long"),
            TraceFault::Short { line, .. } => write!(f, "line {line} of the trace: too short"),
            TraceFault::NoMemory => write!(f, "want of memory"),
        }
    }
}

impl Error for TraceFault {}
