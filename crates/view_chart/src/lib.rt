//! A view as a picture, in SVG: a head, two axes, a lane for each core or vCPU, the rounds of a run, and a legend. A
//! host's trace is one without rounds, in ns.
//!
//! What is written is a definition of `specs/`, begun in `specs/Charts.antt`. All numbers are whole.
#![tactic(auto)]

mod axis;
mod chart;
mod head;
mod legend;
mod picture;
mod rounds;
mod trace;
mod trace_axis;
mod trace_head;
mod trace_picture;

pub use chart::write_chart;
pub use trace::write_trace_chart;
