//! What of a view is drawn: lanes, by core or by vCPU, with a bar for each slot or stint, the colours of the
//! bars, and the lines that tell what is shown.
//!
//! All numbers are whole, and how something is drawn isn't said here. The definitions begin in
//! `specs/Shown.antt`.
#![tactic(auto)]

mod amounts;
mod cells;
mod colours;
mod fault;
mod frame;
mod lanes;
mod laws;
mod names;
mod rounds;
mod shown;
mod titles;
mod tones;

pub use amounts::{per_mille, tenths_ms};
pub use cells::{edge_of, overlap, width_at};
pub use fault::ChartFault;
pub use frame::{Bar, ChartOptions, Frame};
pub use lanes::{Lane, held_in, is_dense, lanes_from};
pub use laws::colours_of_a_lane_differ;
pub use names::name_at;
pub use rounds::{first_round, rounds_shown, used_counts};
pub use shown::{
    cores_in, frame_of, lanes_of, shown_in, shows_no_trace, shows_nothing, span_of, trace_frame,
};
pub use titles::{Head, head_in, head_of, put_sub, put_title, put_trace_sub, put_trace_title};
pub use tones::{core_names, core_tones, vcpu_tones};
