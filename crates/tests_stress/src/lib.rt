//! The stress test of running cores: short runs of many kinds, of which each is judged by plain rules and
//! replayed step by step. It is a crate of its own, since a crate with tests is proved twice, with them
//! and without.
#![tactic(auto)]

#[cfg(test)]
mod judging;
#[cfg(test)]
mod leaving;
#[cfg(test)]
mod ordering;
#[cfg(test)]
mod pictures;
#[cfg(test)]
mod replaying;
#[cfg(test)]
mod running;
#[cfg(test)]
mod scenes;
#[cfg(test)]
mod step_log;
#[cfg(test)]
mod stress;
