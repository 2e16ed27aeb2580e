//! Sizes of VMs, and the host that they make.
//!
//! The grammar of a size is `IsSize` of `specs/Sizes.antt`, what a text states is in `specs/SizeLines.antt`,
//! and the host of sizes is `IsHostOf` of `specs/SizedHost.antt`. The readers answer exactly so, and name
//! the first line that isn't a size, and which part of it.
#![tactic(auto)]

mod decimals;
mod fault;
mod measure;
mod size;
mod size_reader;
mod sized_host;
mod twice;

pub use fault::{Part, SizesFault};
pub use measure::read_time_or;
pub use size::Size;
pub use size_reader::read_sizes;
pub use sized_host::{host_of_sizes, name_in_sizes};
