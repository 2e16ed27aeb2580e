//! Placement of vCPUs on cores by worst-fit decreasing, from empty cores or beside those that stay.
//!
//! Layers above may rely on `IsPlacement`, `IsStayingPlacement` and `PlacesEach` of
//! `specs/Placement.antt`, on who stays by `specs/Staying.antt`, on the loads of `specs/Load.antt`,
//! and on the bound of `specs/Bound.antt`, within which no vCPU is left over.
#![tactic(auto)]

mod by_demand;
mod laws;
mod placed;
mod placing;

pub use laws::{a_whole_placement_stays, without_old_homes_all_move};
pub use placed::{LeftOver, Placed, PlacedCores};
pub use placing::{place, place_staying};
