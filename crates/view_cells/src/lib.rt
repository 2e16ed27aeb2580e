//! The cells of tables: texts, and numbers as they are, in percent or in milliseconds, in columns of a width.
//!
//! `specs/Cells.antt` says what a cell is, and what is written is that text.
#![tactic(auto)]

mod cells;

pub use cells::{Cell, put_cells, put_left, yes_or_no};
