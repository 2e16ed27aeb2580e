//! A host's trace as a view: the stretches of time in which its vCPUs ran on its CPUs, as the stints of a run.
//!
//! `specs/Drawable.antt` says which lines can be drawn, `specs/Stints.antt` in which stretches the vCPUs run by
//! them, and `specs/Traces.antt` what of these is shown. `read_trace` answers exactly so.
#![tactic(auto)]

mod fault;
mod lines;
mod names;
mod read;
mod reading;
mod stints;
mod stretches;
mod trace;

pub use fault::{LineCause, TraceFault};
pub use read::{is_host_trace, read_trace};
pub use trace::HostTrace;
