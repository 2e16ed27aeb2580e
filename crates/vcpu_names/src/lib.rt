//! The vCPUs of a host, found by their names, and the names that texts have for them.
//!
//! `specs/Names.antt` says which name each number has, what it is that no vCPU has a name, and how a
//! text names an owner.
#![tactic(auto)]

mod names;
mod vcpu_name;

pub use names::Names;
pub use vcpu_name::name_in;
