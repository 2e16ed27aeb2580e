//! The second level of the scheduler: whom a core runs in time that its slot's owner doesn't use,
//! and the stint that a core runs next.
//!
//! The rule of `pick` is round robin by number among the core's vCPUs that may share its time: `IsPick` in
//! `table_form/specs/Running/Choice.antt`. `specs/Pick.antt` says who may be picked, in terms of the
//! sets that `pick` is given. `next_stint` gives the stint that `IsDispatch`, in the file of `IsPick`,
//! determines. It takes a course without its plans, and the span that the core's row shows.
#![tactic(auto)]

mod round_robin;
mod stints;

pub use round_robin::pick;
pub use stints::{Begin, Next, next_stint, next_stint_in};
