//! The trace of a host: lines TIME_NS,VCPU,STATE or TIME_NS,VCPU,STATE,CPU, each of which says what a vCPU does
//! from a time on.
//!
//! `specs/TraceLines.antt` has what a line says, and what the lines of a text say. `told_of` and `mark_of` answer
//! exactly so.
#![tactic(auto)]

mod fields;
mod line;
mod mark;

pub use line::{is_passed_over, mark_of, told_of};
pub use mark::{Mark, State, Told};
