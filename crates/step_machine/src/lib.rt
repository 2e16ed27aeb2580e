//! The scheduler's core as a pure machine: its state, its four kinds of step, and their replay.
//!
//! `World::apply` is exactly the relation `Answers` of `specs/Answers.antt`, and every world keeps
//! what `StateInvariant` of `table_form/specs/Running/Invariant.antt` lists. So after every list of
//! steps the run keeps what `KeepsPromises` of `table_form/specs/Promises/Run.antt` says: all cores
//! use one plan in a round, no vCPU runs on two cores at one tick, each is offered its cost in each
//! of its periods and has no gap between offers that exceeds what its budgets leave out, no core
//! idles while somebody may run there whom it has seen runnable, and a capped vCPU runs at no more
//! ticks of a period than its cost. The entries and stints that the steps make are in their order, as
//! `IsTrace` of `specs/Traces.antt` says.
#![tactic(auto)]

mod answer;
mod core_log;
mod fault;
mod laws;
mod machine_state;
mod mark;
mod next;
mod premises;
mod replaying;
mod steps;
mod stints;
mod trace;
mod updates;
mod world;

pub use answer::{Answer, Phase};
pub use fault::ReplayFault;
pub use laws::{
    a_list_of_steps_has_one_run, a_step_has_one_answer, a_step_keeps, every_run_keeps_its_promises,
    next_stint_is_determined, the_opening_is_kept,
};
pub use replaying::replay;
pub use trace::{Made, Trace};
pub use world::World;
