//! The tests of single calls of the libraries that no case can show: ends that fail, words of faults, the steps of the
//! machine and what they are made of, and calls that the program doesn't make. They are a crate of their own, since a
//! crate with tests is proved twice, with them and without.
#![tactic(auto)]

#[cfg(test)]
mod books;
#[cfg(test)]
mod checks;
#[cfg(test)]
mod edf_rows;
#[cfg(test)]
mod ends;
#[cfg(test)]
mod look_ups;
#[cfg(test)]
mod machine;
#[cfg(test)]
mod networks;
#[cfg(test)]
mod samples;
#[cfg(test)]
mod shared_types;
#[cfg(test)]
mod sharing;
#[cfg(test)]
mod wordings;
