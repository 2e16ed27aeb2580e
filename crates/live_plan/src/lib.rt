//! Plans that are made while the cores run.
//!
//! A live book (`specs/Books.antt`) has all of a script for a host but the plans of its changes. A planner
//! makes these one after the other, and puts each on a shelf; the controller posts a change only once its
//! shelf gives a value for it, and a core looks for the changes of its round's used count. `LiveTold` and
//! `LiveControlTold` say what the steps do: they are those of `dispatch_core` and `plan_switch` by each
//! course of the book (`IsLiveCourse` of `specs/Courses.antt`), of which the course of the script is one.
#![tactic(auto)]

mod actor;
mod answer;
mod book;
mod cell_shelf;
mod controller;
mod crew;
mod finding;
mod into_book;
mod kept;
mod laws;
mod lead;
mod list_shelf;
mod made;
mod maker;
mod making;
mod matching;
mod member;
mod plan_copy;
mod planner;
mod seeking;
mod shelf;
mod stepping;
mod taken;
mod workers;

pub use actor::LiveActor;
pub use answer::LiveAnswer;
pub use book::LiveBook;
pub use cell_shelf::CellShelf;
pub use controller::{LiveControl, LiveController, live_control_step};
pub use crew::LiveCrew;
pub use laws::{a_scripts_course_is_its_live_books, what_is_found_is_what_the_script_makes};
pub use list_shelf::ListShelf;
pub use made::{Found, Made};
pub use planner::{LivePlanner, PlannerAnswer, planner_step};
pub use shelf::Shelf;
pub use stepping::live_core_step;
pub use workers::run_live;
