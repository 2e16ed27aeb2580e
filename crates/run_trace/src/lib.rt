//! The trace of a run as the trace of a host: its stints, core by core and in ticks, become lines in the order of time
//! and in nanoseconds.
//!
//! `specs/RunTraces.antt` says which lines these are. `turns_in` and `write_run` answer exactly so.
#![tactic(auto)]

mod turn;
mod turns;
mod write;

pub use turn::Turn;
pub use turns::turns_in;
pub use write::write_run;
