//! The tests of plans that are made while the cores run: single steps, and whole runs by threads, whose used counts,
//! accounts and plans are judged by plain rules. They are a crate of their own, since a crate with tests is proved
//! twice, with them and without.
#![tactic(auto)]

#[cfg(test)]
mod judging;
#[cfg(test)]
mod runs;
#[cfg(test)]
mod scenes;
#[cfg(test)]
mod stepping;
