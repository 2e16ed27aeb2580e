//! Scripts of events and lists of steps, and their readers by line.
//!
//! Which lines count is defined in `specs/Statements.antt`, which words are a step in `specs/Steps.antt`,
//! which are an event in `specs/Events.antt`, and which events are a script in `specs/Script.antt`. The
//! readers answer exactly so, and name the first line with a fault; a text has one meaning.
#![tactic(auto)]

mod event;
mod event_reader;
mod laws;
mod line;
mod refusal;
mod script;
mod script_fault;
mod script_reader;
mod step;
mod step_list;
mod step_reader;

pub use event::{Act, Edits, Event, MAX_WORK};
pub use laws::{
    a_script_has_no_fault, a_step_list_has_no_bad_line, a_text_has_one_bad_step,
    a_text_has_one_script_fault, a_text_states_one_script, a_text_states_one_step_list,
};
pub use line::is_skipped;
pub use refusal::{put_script_fault, put_steps_fault};
pub use script::Script;
pub use script_fault::ScriptFault;
pub use script_reader::read_script;
pub use step::Step;
pub use step_list::{LineNumbers, StepList, StepSequence};
pub use step_reader::{StepsFault, read_steps};
