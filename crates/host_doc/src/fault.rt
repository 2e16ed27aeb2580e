ghost use Rattle.std.specs.Prelude.{◌≡◌, Some};
ghost use Rattle.host_doc.specs.Path.{of_document, of_vcpu, word_of};
ghost use Rattle.host_doc.specs.Refusal.{fault_words, path_text};
ghost use Rattle.host_doc.specs.declared.fault.HostFault.TheVariants.{NoMemory};

use std::alloc::{AllocError, AllocFailed};
use std::error::Error;
use std::fmt;

/// A key of the document or of one of its vCPUs.
#[derive(Clone, Copy, Debug, PartialEq, Eq)]
pub enum Key {
    Format,
    TickNs,
    Cores,
    Lag,
    Sliver,
    Quantum,
    Vcpu,
    Name,
    Admitted,
    Runnable,
    Share,
    Latency,
    Capped,
    /// A key that isn't in the table of keys.
    Unknown,
}

impl Key {
    /// The key as it is written, or `unknown key`.
    pub fn word(self) -> &'static str
        ensures { result.now ≡ word_of self }
    {
        match self {
            Key::Format => "format",
            Key::TickNs => "tick_ns",
            Key::Cores => "cores",
            Key::Lag => "lag",
            Key::Sliver => "sliver",
            Key::Quantum => "quantum",
            Key::Vcpu => "vcpu",
            Key::Name => "name",
            Key::Admitted => "admitted",
            Key::Runnable => "runnable",
            Key::Share => "share_ppm",
            Key::Latency => "latency_ns",
            Key::Capped => "capped",
            Key::Unknown => "unknown key",
        }
    }
}

/// Where a fault is.
#[derive(Clone, Copy, Debug, PartialEq, Eq)]
pub struct Path {
    /// The number of the member of `vcpu`, from 0, or none for a key of the document.
    pub vcpu: Option<u32>,
    /// The key, which is `Vcpu` for a member that isn't a table.
    pub key: Key,
}

impl Path {
    pub(crate) fn of_document(key: Key) -> Path
        ensures { result ≡ of_document key }
    {
        Path { vcpu: None, key }
    }

    pub(crate) fn of_vcpu(number: u32, key: Key) -> Path
        ensures { result ≡ of_vcpu number key }
    {
        Path {
            vcpu: Some(number),
            key,
        }
    }
}

impl fmt::Display for Path {
    ghost output = { λ path. Some (path_text path) };

    fn fmt<W: fmt::Write>(&self, f: &mut fmt::Formatter<W>) -> fmt::Result {
        match self.vcpu {
            Some(vcpu) => match self.key {
                Key::Vcpu => write!(f, "vcpu {vcpu}"),
                key => write!(f, "vcpu {vcpu} {}", key.word()),
            },
            None => write!(f, "{}", self.key.word()),
        }
    }
}

/// Why bytes aren't read as a host: the first fault in the order of the table of keys.
#[derive(Clone, Copy, Debug, PartialEq, Eq)]
pub enum HostFault {
    /// The bytes aren't a TOML document.
    NotToml,
    /// The key is unknown, or it is required and missing, or its value is of another type.
    BadKey { path: Path },
    /// The key's value is out of its range, or a name isn't of the form of a name.
    OutOfRange { path: Path },
    /// The vCPU of this number has the name of an earlier one.
    SameName { vcpu: u32 },
    /// The document has this many vCPUs, which are more than a host may have.
    TooMany { count: u32 },
    /// Memory ran out, or more than `u32::MAX` vCPUs are there, which no text below 4 GiB has.
    NoMemory,
}

impl fmt::Display for HostFault {
    ghost output = { λ fault. Some (fault_words fault) };

    fn fmt<W: fmt::Write>(&self, f: &mut fmt::Formatter<W>) -> fmt::Result {
        match self {
            HostFault::NotToml => write!(f, "host is not TOML"),
            HostFault::BadKey { path } => write!(f, "host key {path}"),
            HostFault::OutOfRange { path } => write!(f, "host value {path}"),
            HostFault::SameName { vcpu } => write!(f, "name of vcpu {vcpu} stands twice"),
            HostFault::TooMany { count } => write!(f, "{count} vcpus"),
            HostFault::NoMemory => write!(f, "want of memory"),
        }
    }
}

impl Error for HostFault {}

impl From<AllocError> for HostFault {
    ghost from_gives = { λ _ fault. fault ≡ NoMemory };

    fn from(_: AllocError) -> HostFault {
        HostFault::NoMemory
    }
}

impl<T: Drop> From<AllocFailed<T>> for HostFault {
    ghost from_gives = { λ _ fault. fault ≡ NoMemory };

    fn from(_: AllocFailed<T>) -> HostFault {
        HostFault::NoMemory
    }
}
