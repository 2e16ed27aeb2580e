//! A judge of what ran on a host: it takes the marks of a trace one after the other, and keeps of each vCPU what is
//! reported of it.
//!
//! `specs/Traces.antt` says what the marks of a trace say of the vCPUs over time, `specs/Courses.antt` how long a
//! vCPU is in a state, `specs/Waits.antt` what its waits are, `specs/Windows.antt` what its share is in windows of its
//! running and waiting, `specs/Owed.antt` how much it is owed there, `specs/Clashes.antt` which lines can't be, and
//! `specs/Reports.antt` what is reported. Each number is that of these definitions over the whole trace.
#![tactic(auto)]

mod clashes;
mod counts;
mod dues;
mod fault;
mod judge;
mod judging;
mod laws;
mod least;
mod owed;
mod reading;
mod report;
mod reports;
mod source;
mod times;
mod tracker;
mod waits;
mod windows;

pub use dues::{owed_by_plan, owed_by_share, owed_by_shares};
pub use fault::JudgeFault;
pub use judging::judge_trace;
pub use laws::{a_kept_plan_is_never_broken, a_plan_kept_in_time_is_kept};
pub use owed::{Owed, PlanOwed, ShareOwed};
pub use report::{LeastShare, LineCount, LongestWait, Report, VcpuReport};
