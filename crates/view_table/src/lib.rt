//! The tables of a plan, and what differs between two plans.
//!
//! `figures_of` works out the longest waits, which are `wait_of` of `specs/Waits.antt`, and the cores and the slots
//! of each vCPU. Each text is a definition of `specs/`, and what is written is that text.
#![tactic(auto)]

mod data;
mod diff;
mod diff_data;
mod figures;
mod groups;
mod laws;
mod rows;
mod sums;
mod table;
mod totals;
mod vm_diff;
mod waits;

pub use data::{write_table_csv, write_table_json};
pub use diff::write_diff;
pub use diff_data::{write_diff_csv, write_diff_json};
pub use figures::{Figures, figures_of, refused_figures_of};
pub use groups::write_vm_table;
pub use laws::a_shown_wait_is_the_longest;
pub use sums::write_sums;
pub use table::write_table;
pub use vm_diff::write_vm_diff;
