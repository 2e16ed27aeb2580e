//! The plan of a host: its vCPUs are placed unsplit, the left-over ones are split, and each core's
//! row is made by earliest deadline first.
//!
//! Layers above may rely on `IsPlanned` and `IsFirstWithoutRoom` of `specs/Planned.antt`, which say
//! what the plan of a host is and when it has none because room is missing, and on `IsStayingPlan`
//! and `IsFirstStayingWithoutRoom`, from given old homes. That the plan serves each vCPU and keeps
//! it on one core at a time is part of its type, in table_form.
#![tactic(auto)]

mod draft;
mod fault;
mod laws;
mod layout;
mod planner;
mod refusal;
mod rows;
mod splitting;
mod unsplit;

pub use fault::PlanFault;
pub use laws::{a_host_has_one_plan, a_host_has_one_refusal, a_plan_stays};
pub use planner::{plan, plan_staying, plan_with};
pub use refusal::{put_no_period, put_no_room};
