//! What the text of a host is read as: the text that `gen` writes is a host document of exactly that host.
//!
//! `IsAdmittedHost` of `specs/Admitted.antt` is what the types keep of a host whose vCPUs are all
//! admitted. The crate has laws and no other code, so there is no body that a wrong edit could turn.
#![tactic(auto)]

mod laws;

pub use laws::{a_generated_host_is_read_back, a_written_host_is_read_back};
