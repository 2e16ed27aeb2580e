//! Actors that step by seats of one board: each by a worker in a thread of its own, by fewer threads where they get on faster, or all
//! of them in turns by one thread.
//!
//! What an actor is, when it agrees with a view and why it waits is a matter of its kind (`specs/Kinds.antt`): a trait's ghost, with the
//! laws by which steps of other actors leave it in peace. So one crew serves runs whose plans are known and runs whose plans are made
//! beside them. `specs/Troops.antt` says when the actors of a run fit a view, and when they are at rest.
#![tactic(auto)]

mod beside;
mod clocks;
mod driving;
mod gate;
mod guess;
mod mask;
mod patience;
mod phase;
mod player;
mod running;
mod stepper;
mod turning;
mod widths;
mod working;

pub use beside::work_beside;
pub use clocks::{Least, OUT, find_least};
pub use driving::{Rest, drive_all};
pub use gate::{FreeGate, Gate, Pass};
pub use guess::Guess;
pub use patience::PATIENCE;
pub use player::Player;
pub use stepper::{CoreStepper, Site, Stepper, Turn};
