//! A view as a text for terminals: a line for each core, in it a letter for each column of ticks.
//!
//! What is written is a definition of `specs/TextCharts.antt`.
#![tactic(auto)]

mod letters;
mod options;
mod text_chart;
mod trace_text;
mod window;

pub use options::TextOptions;
pub use text_chart::write_text_chart;
pub use trace_text::write_trace_text;
