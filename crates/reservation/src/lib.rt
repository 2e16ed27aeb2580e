//! What a share of a core costs in each period, and what that takes of a round.
//!
//! Layers above may rely on `cost` and `demand` of `specs/Cost.antt`. A cost is the least whole
//! number of ticks that gives the share, which `IsLeastCost` states with no rounding.
#![tactic(auto)]

mod cost;

pub use cost::{cost_of, demand_of};
