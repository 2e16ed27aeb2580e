//! That what `tableau` wrote is read by the companion program as what it stands for: a plan is shown as its
//! vCPUs and rows, a replay as what its steps made, and the trace of a run as the stints of the run's state.
//!
//! `specs/ShownPlans.antt`, `ShownReplays.antt` and `ShownTraces.antt` say what a view of each text has. The
//! crate has laws and no other code, so there is no body that a wrong edit could turn.
#![tactic(auto)]

mod laws;

pub use laws::{a_plan_text_is_read_back, a_replay_text_is_read_back, a_trace_text_is_read_back};
