//! Whole-host plans by flow: how many ticks each vCPU gets in each interval between the ends of periods.
//!
//! Layers above may rely on `IsAllotment` of `specs/Allotments.antt`, which says what an allotment is,
//! and on the laws that one exists only where the demands fit. `allot` makes one wherever they do. The
//! network that it searches is defined in `specs/Networks.antt`, over `specs/Load.antt`.
#![tactic(auto)]

mod allotment;
mod allotting;
mod demands;
mod edge;
mod fill;
mod flow;
mod laws;
mod making;
mod marks;
mod net;
mod opening;
mod reach;
mod search;
mod ticks;

pub use allotment::{Allotment, Marks, Rows};
pub use allotting::allot;
pub use laws::{allotments_fit, cuts_are_enough, periods_have_one_list_of_marks};
pub use making::demand_sum;
pub use net::Net;
pub use ticks::Ticks;
