//! C=D splitting: one vCPU that has no room whole on a core gets pieces of several cores.
//!
//! Each piece but the last has no slack: its window is as long as its cost. The windows follow one
//! another through the period, so the vCPU is never on two cores at once. `Splits` in
//! `specs/Splitting.antt` says which pieces there are, and exactly when there is no room.
#![tactic(auto)]

mod core_pieces;
mod cut;
mod fault;
mod laws;
mod left;
mod load;
mod order;
mod refusal;
mod search;
mod splitting;
mod trial;

pub use core_pieces::CorePieces;
pub use cut::LEAST_CUT;
pub use fault::SplitFault;
pub use laws::{a_split_is_no_refusal, a_vcpu_has_one_refusal, a_vcpu_has_one_split};
pub use splitting::split;
