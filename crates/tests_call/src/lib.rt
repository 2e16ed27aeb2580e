//! The tests of the top call that no case can show: failing reads, small rooms, held actors and runs
//! that the machine's own steps lead to their end.
#![tactic(auto)]

#[cfg(test)]
mod calls;
