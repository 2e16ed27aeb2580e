//! A whole run of a course by threads, from the taking of its memory to the text of its report.
//!
//! `run_course` takes all memory first, then starts the board, and gives back what `IsRunOf` of
//! `specs/Runs.antt` says: the view of all parts reads as a complete run that keeps all promises, and the
//! report and the kept stints are those of that run. `write_run` writes the `run_text` of `specs/RunText.antt`.
#![tactic(auto)]

mod changes;
mod keeping;
mod laws;
mod ran;
mod telling;
mod write;

pub use changes::changes_of;
pub use keeping::{RunFault, TRACE_LIMIT};
pub use laws::{a_run_can_be_told, a_run_tells_of_its_state};
pub use ran::{Ran, run_course};
pub use write::write_run;
