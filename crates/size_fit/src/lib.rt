//! Whether the VMs of some sizes fit a host, how full they make it, and how many more of each size would fit.
//!
//! The planner answers, and no formula beside it: `FitMore` of `specs/Fits.antt` says what a count of more VMs means,
//! by the plans and refusals of `plan_make`, and where no vCPU may be split also by the vCPUs that worst fit leaves over. What is written is a definition of `specs/FitText.antt`.
#![tactic(auto)]

mod fit;
mod load;
mod more;
mod more_vms;
mod write;

pub use fit::{Fit, Room, fit_sizes, split_of};
pub use write::{write_fit, write_refusal, write_split};
