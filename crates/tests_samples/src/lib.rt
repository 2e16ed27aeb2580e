//! Hosts and scripts from a seed, for the tests of whole runs. What differs from one crate of tests to another is named by a `Case`
//! and a `Mix`. It has no tests of its own.
#![tactic(auto)]

mod host;
mod mix;
mod sample;
mod script;
mod sets;
mod stumbling;

pub use mix::{Edits, Kind, Mix};
pub use sample::{Case, Sample, sample_of};
pub use sets::{bit, capped_of, spread};
pub use stumbling::Stumbling;
