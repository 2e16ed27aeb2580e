//! The types that every crate of the scheduler speaks of, with the facts that each value keeps.
//!
//! Contracts see a `VcpuNo` and a `CoreNo` as a number, a `Name` as its bytes, a list type as its
//! list and a `VcpuSet` as 256 truth values. All times are in ticks where no other unit is named.
#![tactic(auto)]

mod actor;
mod edit;
mod entry;
mod host;
mod host_copy;
mod host_edits;
mod name;
mod number;
mod over;
mod periodic;
mod piece;
mod reservation;
mod steps;
mod stint;
mod vcpu;
mod vcpu_set;

pub use actor::Actor;
pub use edit::Edit;
pub use entry::Entry;
pub use host::Host;
pub use name::{Name, NameFault};
pub use number::{CoreNo, VcpuNo};
pub use over::{Over, Overs};
pub use periodic::{Periodic, Tasks};
pub use piece::{Piece, Pieces};
pub use reservation::Reservation;
pub use steps::Steps;
pub use stint::Stint;
pub use vcpu::{Vcpu, Vcpus};
pub use vcpu_set::VcpuSet;

/// The error of a call that fails only where memory runs out.
pub type NoMemory = std::alloc::AllocError;

/// Ticks of a round, which is the length of every table.
pub const ROUND: u32 = 102_600;

/// Nanoseconds of a tick, where a host names no tick of its own.
pub const TICK_NS: u32 = 1001;

/// The least length of a host's tick, in nanoseconds.
pub const MIN_TICK_NS: u32 = 500;

/// The greatest length of a host's tick, in nanoseconds.
pub const MAX_TICK_NS: u32 = 2002;

/// Parts per million of a whole share.
pub const WHOLE_PPM: u32 = 1_000_000;

/// The greatest latency of a reservation, in nanoseconds.
pub const MAX_LATENCY_NS: u64 = 1_000_000_000_000;

/// The greatest number of cores of a host.
pub const MAX_CORES: u32 = 32;

/// The greatest number of vCPUs of a host.
pub const MAX_VCPUS: u32 = 256;

/// The greatest length of a vCPU's name, in bytes.
pub const MAX_NAME: usize = 32;

/// The greatest sliver of a host, in ticks.
pub const MAX_SLIVER: u32 = 1000;

/// The greatest number of events of a script.
pub const MAX_EVENTS: u32 = 65_535;

/// The greatest number of changes of reservations in a script.
pub const MAX_CHANGES: u32 = 15;

/// The greatest number of rounds of a run.
pub const MAX_ROUNDS: u32 = 10_000;

/// The divisors of a round that are at least 100 ticks, from the least to the round itself.
pub const PERIODS: [u32; 65] = [
    100, 108, 114, 120, 135, 150, 152, 171, 180, 190, 200, 216, 225, 228, 270, 285, 300, 342, 360,
    380, 450, 456, 475, 513, 540, 570, 600, 675, 684, 760, 855, 900, 950, 1026, 1080, 1140, 1350,
    1368, 1425, 1710, 1800, 1900, 2052, 2280, 2565, 2700, 2850, 3420, 3800, 4104, 4275, 5130, 5400,
    5700, 6840, 8550, 10_260, 11_400, 12_825, 17_100, 20_520, 25_650, 34_200, 51_300, 102_600,
];
