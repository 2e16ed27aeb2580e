//! What the commands of `tableau-tools` share: the plans, runs and hosts that they read, standard output, and why a
//! command doesn't end well.
//!
//! A text that isn't what a command wants is a `Fault`, whose words are the line on standard error. What `tableau check`
//! says of a plan beside its host is a `Verdict`, by `specs/Verdicts.antt`.
#![tactic(auto)]

mod fault;
mod input;
mod mistaken;
mod output;
mod plan;
mod planned;
mod quote;
mod run;
mod trace_line;
mod unkept;
mod verdict;

pub use fault::Fault;
pub use input::{Input, LIMIT, input_beside, input_of, read_once, unread};
pub use mistaken::{Wanted, bad_line, cut_in_return, no_host};
pub use output::{finish, output_of};
pub use plan::{drawable, host_of, plan_of, view_in, view_of};
pub use planned::{Planned, planned_in, planned_of, refusal_in, shown_of, tick_of};
pub use quote::{ends_in_return, line_of, place_of, shown, shown_whole};
pub use run::{last_part, report_in, run_tick};
pub use trace_line::trace_fault;
pub use unkept::Refusal;
pub use verdict::{Verdict, put_verdict, refusal_of, verdict_of};
