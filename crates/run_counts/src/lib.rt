//! What a report counts of a run: the ticks that it offers to each vCPU, each vCPU's greatest gap, and the
//! rounds that begin with another plan. An account has the ticks that a core's stints come to.
//!
//! The segments of a plan's rows are gone over once, row by row, and only where its number isn't that of
//! the round before. A vCPU whose segments, taken so, aren't in the order of time has a walk of its own
//! over them. The rounds in a row of one plan cost one join of stretches for each vCPU, however many they
//! are.
#![tactic(auto)]

mod account;
mod counting;
mod describing;
mod laws;
mod round_plan;
mod row_pass;
mod stretch;
mod walk;

pub use account::CoreAccount;
pub use counting::count_waits;
pub use laws::a_report_is_determined;
pub use round_plan::{RoundPlan, round_plans};
pub use stretch::Stretch;
