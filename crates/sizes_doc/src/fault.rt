ghost use Rattle.std.specs.Prelude.{◌≡◌, Some};
ghost use Rattle.sizes_doc.specs.Faults.{bad_part_words, sizes_fault_words};
ghost use Rattle.sizes_doc.specs.declared.fault.SizesFault.TheVariants.{NoMemory};

use std::alloc::{AllocError, AllocFailed};
use std::error::Error;
use std::fmt;
use tab_core::MAX_VCPUS;

/// What is wrong with a size: the part of it that isn't as it has to be, and how.
#[derive(Clone, Copy, Debug, PartialEq, Eq)]
pub enum Part {
    /// The words are neither NAME VMS x VCPUS SHARE LATENCY nor vm NAME VCPUS SHARE LATENCY, with or
    /// without `capped` as the last.
    Form,
    Machines,
    Vcpus,
    /// The share is no number with a unit, nor one without.
    Share,
    ShareUnit,
    ShareZero,
    ShareAbove,
    /// The latency is no whole nanoseconds with a unit, nor a number without.
    Latency,
    LatencyUnit,
    LatencyAbove,
}

impl fmt::Display for Part {
    ghost output = { λ part. Some (bad_part_words part) };

    fn fmt<W: fmt::Write>(&self, f: &mut fmt::Formatter<W>) -> fmt::Result {
        match self {
            Part::Form => write!(
                f,
                "it isn't NAME VMS x VCPUS SHARE LATENCY [capped], nor vm NAME VCPUS SHARE LATENCY [capped]; in a command it is one word, in quotes"
            ),
            Part::Machines => write!(f, "the count of VMs isn't 1 to {MAX_VCPUS}"),
            Part::Vcpus => write!(f, "the count of vCPUs isn't 1 to {MAX_VCPUS}"),
            Part::Share => write!(
                f,
                "the share isn't a number of % or ppm: write it as 20%, 12.5% or 125000ppm, with four decimals at most"
            ),
            Part::ShareUnit => write!(f, "the share has no unit: write it as 20% or 200000ppm"),
            Part::ShareZero => write!(f, "the share is 0: the least is 1ppm"),
            Part::ShareAbove => write!(f, "the share is above 100%, a whole core"),
            Part::Latency => write!(
                f,
                "the latency isn't whole nanoseconds in s, ms, us or ns: write it as 20ms or 1.5ms"
            ),
            Part::LatencyUnit => write!(
                f,
                "the latency has no unit: write it as 20ms, or with s, us or ns"
            ),
            Part::LatencyAbove => write!(f, "the latency is above 1000s"),
        }
    }
}

/// Why sizes aren't read, or make no host. Lines are numbered from 1.
#[derive(Clone, Copy, Debug, PartialEq, Eq)]
pub enum SizesFault {
    /// The line is no size, and it is the first such. This is its first bad part.
    BadSize { line: u32, part: Part },
    /// The sizes up to that of this line, and not before, have more vCPUs than a host may have.
    TooMany { line: u32 },
    /// A vCPU of the size of this line would have a name that isn't of the form of a name.
    BadName { line: u32 },
    /// The vCPU of this number, from 0, has the name of an earlier one.
    SameName { vcpu: u32 },
    NoMemory,
}

impl fmt::Display for SizesFault {
    ghost output = { λ fault. Some (sizes_fault_words fault) };

    fn fmt<W: fmt::Write>(&self, f: &mut fmt::Formatter<W>) -> fmt::Result {
        match self {
            SizesFault::BadSize { line, part } => write!(f, "size {line}: {part}"),
            SizesFault::TooMany { line } => write!(
                f,
                "size {line}: more than {MAX_VCPUS} vCPUs in all"
            ),
            SizesFault::BadName { line } => {
                write!(f, "size {line}: its name doesn't make names of vCPUs")
            }
            SizesFault::SameName { vcpu } => write!(
                f,
                "two sizes make vCPUs of one name, the second time vcpu {vcpu}: give each size a name of its own"
            ),
            SizesFault::NoMemory => write!(f, "want of memory"),
        }
    }
}

impl Error for SizesFault {}

impl From<AllocError> for SizesFault {
    ghost from_gives = { λ _ fault. fault ≡ NoMemory };

    fn from(_: AllocError) -> SizesFault {
        SizesFault::NoMemory
    }
}

impl<T: Drop> From<AllocFailed<T>> for SizesFault {
    ghost from_gives = { λ _ fault. fault ≡ NoMemory };

    fn from(_: AllocFailed<T>) -> SizesFault {
        SizesFault::NoMemory
    }
}
