//! What a plan's vCPUs are given on the schedulers of hosts: for each a budget in each of its periods, in the
//! scheduler's unit of time, why some plan isn't put there, and the lines that do it.
//!
//! `specs/Budgets.antt` has the arithmetic, `specs/Unkept.antt` the refusals and `specs/Supply.antt` what a scheduler
//! keeps that gives each vCPU its budget in each of its periods. `specs/Fits.antt` has cores that are just full, which
//! aren't refused. The texts are those of `specs/Lines.antt`,
//! `specs/QuotaLines.antt` and `specs/LibvirtLines.antt`. The CPUs that the cores are may be given as a list, whose form
//! `specs/CpuLists.antt` defines.
#![tactic(auto)]

mod budget;
mod cpu_list;
mod guest;
mod heads;
mod laws;
mod libvirt;
mod lines;
mod loads;
mod quotas;
mod reserved;
mod scheduler;
mod unkept;
mod unlike;

pub use cpu_list::{CpuListFault, cpus_of};
pub use laws::an_exact_fit_is_not_overbooked;
pub use libvirt::write_libvirt;
pub use lines::{write_deadline, write_rtds};
pub use quotas::write_cgroup;
pub use scheduler::Scheduler;
pub use unkept::{Unkept, unkept_of};
pub use unlike::unlike_of;

/// Parts of a core's time, by which budgets of different periods are added: a thousand for each of the 102,600 ticks of a
/// round. Where periods divide the round and a tick is a whole number of the scheduler's units, each budget is a whole
/// number of them, so that a core that is just full isn't overbooked.
pub const PARTS: u64 = 102_600_000;
