//! The text of a replay.
//!
//! `write_replay` writes exactly the `replay_text` of `specs/ReplayText.antt`: a line for each entry
//! and each stint of a trace, which has what the steps of a run made in their order, as `IsTrace` of
//! `step_machine/specs/Traces.antt` says.
#![tactic(auto)]

mod entry_line;
mod refusal;
mod write;

pub use refusal::put_step_fault;
pub use write::write_replay;
