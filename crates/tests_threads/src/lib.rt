//! The tests of the crates by which threads share the work of a run, in a crate of their own, since
//! a crate with tests is proved twice, with them and without.
#![tactic(auto)]

#[cfg(test)]
mod actors;
#[cfg(test)]
mod board;
