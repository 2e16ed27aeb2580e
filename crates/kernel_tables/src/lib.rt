//! The tables of a plan as a text, for a scheduler in a kernel: each core's spans with who may share them, where each
//! vCPU's slots are, and a checksum.
//!
//! `specs/TablesText.antt` has the text, and `specs/Sums.antt` its checksum. Each line of a core is a span of the plan as
//! `IsSpan` of table_form has it, so it is what the slice table of the core shows. Each line of a vCPU is a stretch of
//! `specs/Stretches.antt`. `specs/Stated.antt` says which plan it is: the one that a plan text states for a host.
#![tactic(auto)]

mod bytes;
mod hexadecimal;
mod lines;
mod rows;
mod stated;
mod stretch;
mod sum;
mod tables;

pub use stated::{NotStated, stated_plan};
pub use sum::checksum;
pub use tables::tables_text;
