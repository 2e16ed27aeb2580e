//! The report of a run, read again, and written as JSON and as comma-separated values.
//!
//! `specs/Lines.antt` has what a line of a report says, and `specs/Reports.antt` which lines may follow which and what
//! they say together. `read_report` reads exactly that, and names the first bad line. What is written is a definition's
//! text of what was read: `specs/RunJson.antt` and `specs/RunCsv.antt`.
#![tactic(auto)]

mod csv;
mod fault;
mod json;
mod line;
mod read;
mod reader;
mod report;
mod said;
mod words;

pub use csv::write_report_csv;
pub use fault::ReportFault;
pub use json::write_report_json;
pub use read::{has_report, read_report};
pub use report::RunReport;
pub use said::{Became, CoreRan, PlanStart, ReportedChange, VcpuRan};
