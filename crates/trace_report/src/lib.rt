//! What is reported of a run of threads: the report of what each vCPU and each core got, and the
//! trace of its stints.
//!
//! `specs/RunReports.antt` says which numbers a report has, in the words of offers, gaps, rounds' plans and
//! accounts. `write_report` writes the `report_text` of `specs/ReportText.antt`, and `write_trace` the
//! `trace_text` of `specs/TraceText.antt`.
#![tactic(auto)]

mod adding;
mod change_line;
mod filling;
mod laws;
mod report;
mod report_lines;
mod ticks;
mod trace;

pub use laws::{a_run_has_one_report, accounts_make_a_report};
pub use report::Report;
pub use report_lines::write_report;
pub use ticks::{CoreTicks, VcpuTicks};
pub use trace::write_trace;
