//! The dispatcher's look-up of a core's span by the tick of the round, in constant time.
//!
//! A `SliceTable` is seen as the list of its spans. `specs/Slices.antt` says when they are those of a
//! core's row in a plan; a look-up takes one division, one reading of a slice's entry and one
//! comparison, each counted as a step.
#![tactic(auto)]

mod core_slices;
mod cursor;
mod full_span;
mod own_spans;
mod owners;
mod scope;
mod sight;
mod slice_list;
mod slice_table;
mod slices;
mod span_list;
mod sweep;

pub use core_slices::CoreSlices;
pub use full_span::FullSpan;
pub use owners::{RowOwners, course_owners};
pub use slice_list::SliceList;
pub use slice_table::SliceTable;
