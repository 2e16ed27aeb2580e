//! The tests of bursts in whole runs: what is reported of each burst is judged tick by tick, by a plain test
//! that shares nothing with the crate that reports it. They are a crate of their own, since a crate with tests
//! is proved twice, with them and without.
#![tactic(auto)]

#[cfg(test)]
mod bursts;
#[cfg(test)]
mod judging;
#[cfg(test)]
mod running;
#[cfg(test)]
mod scenes;
#[cfg(test)]
mod settings;
