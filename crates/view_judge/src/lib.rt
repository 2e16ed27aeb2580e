//! What a judge says of a trace, as tables and as JSON, and whether the host kept its promises.
//!
//! `specs/Verdicts.antt` says when it did. Each text is a definition of `specs/`, and what is written is that text.
#![tactic(auto)]

mod cells;
mod json;
mod said;
mod tables;
mod verdict;

pub use json::write_json;
pub use said::Verdict;
pub use tables::write_tables;
pub use verdict::verdict_of;
