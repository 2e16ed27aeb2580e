//! Which VM goes on which host of a fleet.
//!
//! The VMs of a host stay there if they can, and the others are dealt by falling demand, each to the fullest host that
//! it fits, or by another policy to the host of least load: `IsPlacing` of `specs/Deals.antt`. VMs fit a host if they are
//! within its limits and the planner doesn't refuse it: `Fits` of `specs/Fits.antt`.
#![tactic(auto)]

mod ask;
mod deal;
mod fault;
mod fleet;
mod fleet_host;
mod group;
mod laws;
mod order;
mod policy;
mod split;
mod stay;
mod vm;
mod write;

pub use ask::sizes_of;
pub use fault::PlaceFault;
pub use fleet::{Placing, place};
pub use fleet_host::FleetHost;
pub use group::Group;
pub use laws::{a_host_with_room_keeps_all, fit_or_not};
pub use policy::Policy;
pub use split::splits_of;
pub use vm::Vm;
pub use write::{write_placing, write_summary};
