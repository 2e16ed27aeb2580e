//! The text of a host's trace: the head, and a line for each change in the state of a vCPU.
//!
//! `specs/TraceTexts.antt` says what is written. `host_trace` has the definition of what such lines say.
#![tactic(auto)]

mod lines;

pub use lines::{put_trace_head, put_trace_line};
