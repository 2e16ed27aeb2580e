//! The check of tables that were read: whether they are a plan, or their first fault.
//!
//! Layers above may rely on `AreGood` and `HasCheckFault` of `specs/Faults.antt`: the tables are
//! accepted where their rows have good shapes, keep each vCPU on one core at a time and give each
//! task its cost in each of its periods, and else the first fault is named. `RowChecks` sees that rows
//! are good as they come, and keeps none of them.
#![tactic(auto)]

mod caps;
mod checker;
mod clash;
mod counters;
mod fault;
mod marks;
mod meeting;
mod owners;
mod refusal;
mod row_checks;
mod shape;
mod shortage;

pub use caps::serve_exactly;
pub use checker::{check, first_fault};
pub use fault::CheckFault;
pub use refusal::put_check_fault;
pub use row_checks::RowChecks;
