//! The host document: a TOML text that describes a host, read by its table of keys.
//!
//! What a document stands for and which of its faults is the first is defined in
//! `specs/Document.antt`, over the table of keys in `specs/KeyTable.antt`. `read_host` says that it
//! answers exactly so, and a text states one host at most.
#![tactic(auto)]

mod document;
mod fault;
mod laws;
mod refusal;
mod value;
mod vcpus;

pub use document::read_host;
pub use fault::{HostFault, Key, Path};
pub use laws::a_text_states_one_host;
pub use refusal::put_host_fault;
