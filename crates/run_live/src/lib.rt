//! A whole run of a script whose changes are planned while the cores run, from the taking of its memory to the
//! text of its report.
//!
//! `run_script` plans the host alone before it starts the board. Where memory didn't run out, it gives back what
//! `IsRunOf` of `specs/LiveRuns.antt` says: by the course that the script makes of the host, the view of all parts
//! reads as a complete run that keeps all promises, and the report is that of this run. Where memory ran out in
//! between, the view still reads as a run so far that keeps them (`RunsSoFar`).
#![tactic(auto)]

mod ran;
mod telling;
mod write;

pub use ran::{LiveFault, Ran, run_script};
pub use write::write_run;
