//! What a plan promises to whoever loads its tables elsewhere, and what a run promises across its plans: the
//! reservations of their hosts.
//!
//! `KeepsReservations` of `specs/Reservations.antt` is the record of a plan's promises, where the rows repeat
//! round after round without end. `RunPromises` of `specs/RunPromises.antt` is that of a whole run, by the
//! hosts of `specs/Histories.antt`; its shares and latencies are in `specs/Runs.antt`. The crate has laws and
//! no other code, so there is no body that a wrong edit could turn.
#![tactic(auto)]

mod laws;

pub use laws::{
    a_plan_keeps_the_reservations, a_run_keeps_the_reservations, a_whole_run_is_as_promised,
    rows_that_serve_keep_the_reservations,
};
