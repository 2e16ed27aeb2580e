//! What a run promises, from the invariant of its state alone.
//!
//! No step is named here, so the laws hold of each state that keeps `StateInvariant` of
//! `table_form/specs/Running/Invariant.antt`, however it came about: by the steps of the pure
//! machine, or by cores that run beside one another. `KeepsPromises` of
//! `table_form/specs/Promises/Run.antt` is the record of the promises. The crate has laws and no
//! other code, so there is no body that a wrong edit could turn.
#![tactic(auto)]

mod laws;

pub use laws::{a_kept_run_keeps_its_promises, a_whole_run_entered_each_round};
