//! The outside: sources of bytes and sinks for bytes, in memory and over std, that count their faults.
//!
//! Contracts see an end as a view of it (`specs/Views.antt`): its bytes, where it tells them, and its
//! count of faults. `specs/Sources.antt` says what a read and `read_all` do to the view, and
//! `specs/Sinks.antt` what a write, `finish` and `write_all` do. A fault is answered only where the
//! count rose. The lemmas of `proofs/SinkLemmas.antt` join texts that are written one after the other.
#![tactic(auto)]

mod fault_count;
mod memory;
mod sink;
mod source;

pub use memory::{MemSink, MemSource};
pub use sink::{Put, Sink, StdSink, WriteFault, write_all};
pub use source::{Got, ReadAll, Source, StdSource, read_all};
