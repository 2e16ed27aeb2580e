//! A view as one page of HTML, which loads nothing: its tables, its pictures, the script of a run, and
//! what differs from an older plan.
//!
//! What is written is a definition of `specs/Pages.antt`.
#![tactic(auto)]

mod escaped;
mod laws;
mod page;
mod part;

pub use laws::a_name_is_no_markup;
pub use page::{Page, write_page};
