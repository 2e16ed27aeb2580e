//! Advice after a refusal: where the fault is, and what to do.
//!
//! `specs/Advice.antt` says what is written of each refusal, for the words and the input that were refused: the
//! line that is quoted and the numbers, by the definitions of the crates that refuse. `write_advice` writes
//! exactly that, or says that memory ran out to look the input up again. `write_prompt` writes what a command
//! reads, before it reads a terminal.
#![tactic(auto)]

mod again;
mod fault;
mod host_keys;
mod host_text;
mod hosts;
mod kept;
mod key_lines;
mod least;
mod line;
mod mistaken;
mod part;
mod plan_lines;
mod prompt;
mod refusal;
mod room;
mod script_lines;
mod sections;
mod step_lines;
mod usage;
mod write;

pub use fault::AdviceFault;
pub use kept::KeptSource;
pub use least::{least_latency, least_share};
pub use prompt::write_prompt;
pub use refusal::{Due, Refusal};
pub use write::write_advice;
