//! The command of `tableau-tools` that writes what ran as the trace of a host, for the judge.
//!
//! `run_trace` has the text of a run of `tableau`.
#![tactic(auto)]

mod run;

pub use run::{RunWords, export_run};
