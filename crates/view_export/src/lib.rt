//! A view as comma-separated values, as trace events and as JSON.
//!
//! Each text is a definition of `specs/`, and what is written is that text.
#![tactic(auto)]

mod chrome;
mod csv;
mod json;
mod shown;

pub use chrome::write_chrome;
pub use csv::write_csv;
pub use json::write_json;
