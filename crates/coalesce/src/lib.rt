//! Coalescing: of a core's row short segments, its slivers, are moved together where no window
//! forbids it, and short idle ones go to the vCPU before them, if that may have more.
//!
//! `AreJoined` in `specs/Joining.antt` says which rows the joined rows are: on each core the first
//! rule is applied at its leftmost place until it applies nowhere, and then the second everywhere.
//! The code makes one pass over a row for each rule, that of the first only where a short segment is between
//! two of one owner.
#![tactic(auto)]

mod filling;
mod joining;
mod pass;
mod swap;
mod table;

pub use joining::join_slivers;
