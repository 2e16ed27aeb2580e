//! Bursts of work: when one is seen by all cores, when it is done, and a bound on that.
#![tactic(auto)]

mod ahead;
mod answer;
mod bounding;
mod burst;
mod burst_text;
mod counting;
mod laws;
mod ran;
mod report;
mod runs;
mod seeing;
mod sights;

pub use answer::BurstAnswer;
pub use burst::bound_of;
pub use burst_text::write_bursts;
pub use laws::{a_burst_is_done_by_its_bound, an_event_is_seen_early};
pub use report::{BurstReport, burst_count};
