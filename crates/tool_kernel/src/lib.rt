//! The command of `tableau-tools` that writes the tables of a plan for a scheduler in a kernel.
//!
//! `kernel_tables` reads the plan and has the text.
#![tactic(auto)]

mod tables;

pub use tables::export_tables;
