//! The period that each reservation gets.
//!
//! Layers above may rely on `IsChosen` of `specs/Choice.antt` for one reservation, and on
//! `AreTasksOf` of `specs/Tasks.antt` for the vCPUs of a host. A reservation has at most one
//! chosen budget, which a clause of `choose` states.
#![tactic(auto)]

mod choice;
mod fault;
mod laws;
mod tasks;

pub use choice::choose;
pub use fault::TaskFault;
pub use laws::{a_gap_is_within_the_latency, the_periods_are_the_long_divisors};
pub use tasks::{tasks_after, tasks_of};
