//! Whole-host plans: each interval's ticks are laid along the cores by the wrap-around rule.
//!
//! Layers above may rely on `IsWrapped` of `specs/Wrapping.antt`, which says what the plan of an
//! allotment is, and on `IsWholePlan` and `IsBeyondRoom` of `specs/Whole.antt`, which say what
//! `plan_whole` makes of a host and when it refuses one.
#![tactic(auto)]

mod fault;
mod homing;
mod laws;
mod laying;
mod planner;
mod refusal;
mod wrapping;

pub use fault::WholeFault;
pub use laws::{
    wrapped_rows_are_apart, wrapped_rows_are_owned, wrapped_rows_serve, wrapped_rows_serve_exactly,
};
pub use planner::plan_whole;
pub use refusal::put_no_fit;
pub use wrapping::wrap;
