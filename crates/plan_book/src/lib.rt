//! The plan book of a host and a script: after each count of first events the host's plan and the
//! runnable vCPUs, and what became of each change of reservations.
//!
//! Layers above may rely on `IsKnownAfter` of `specs/After.antt`, which says what is known after
//! the first events, and on `IsBookOf` of `specs/Books.antt` and `IsCourseOf` of `specs/Courses.antt`,
//! which say what a book and its course show of it. All hosts of a run have one tick.
#![tactic(auto)]

mod book;
mod book_so_far;
mod counts;
mod fault;
mod laws;
mod make;
mod outcome;
mod planning;

pub use book::PlanBook;
pub use fault::BookFault;
pub use laws::{a_run_has_one_tick, a_script_makes_one_course, the_capped_stay_capped};
pub use make::{make_book, make_book_with, ticks_in};
pub use outcome::Outcome;
pub use planning::planned;
