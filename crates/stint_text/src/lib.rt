//! The line of a stint, as a trace has it and the text of a replay.
//!
//! It is the `stint_line` of `specs/StintLine.antt`. `StintLines` puts it, and other lines of a replay,
//! after those that it has gathered, and writes many at once.
#![tactic(auto)]

mod first_owner;
mod line_parts;
mod lines;
mod number_parts;
mod numbered;

pub use lines::StintLines;
pub use numbered::Numbered;
