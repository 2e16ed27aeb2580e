//! The commands of `tableau-tools` that show what `tableau` wrote: as pictures, tables, pages and texts for other
//! programs.
//!
//! Each command is one call of what its words say. What it writes is a definition's text of the view that was read: `view_doc`
//! has the reader, `view_table`, `view_chart`, `view_text`, `view_page` and `view_export` the texts. Of a trace of another host
//! `view_trace` has the reader; of the report of a run `view_report` has both.
#![tactic(auto)]

mod charts;
mod diffs;
mod export;
mod form;
mod ran;
mod reports;
mod tables;
mod traces;

pub use charts::{ChartWords, chart};
pub use diffs::{DiffWords, diff};
pub use export::{ExportWords, Format, export_view};
pub use form::{Form, form_of};
pub use reports::report;
pub use tables::{TableWords, table};
