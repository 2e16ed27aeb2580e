//! Example hosts: one is generated from a seed, and a host is written as its document.
//!
//! The host of a seed is `IsGenerated` of `specs/Generated.antt`, from the words of
//! `specs/GeneratorWords.antt`. The laws say that a seed has one host, and that planning refuses it
//! neither because a period is missing nor because room is. `write_host` writes `host_text` of
//! `specs/HostText.antt`.
#![tactic(auto)]

mod generator;
mod laws;
mod write;

pub use generator::generate;
pub use laws::{
    a_generated_host_is_within_the_bound, a_generated_vcpu_has_its_period, a_seed_has_one_host,
    the_words_of_a_seed,
};
pub use write::write_host;
