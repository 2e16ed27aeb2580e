//! What `tableau` wrote, read again: the text of a plan, of a replay or of a trace, or a plan and a run
//! that a line `%%` parts.
//!
//! `specs/Lines.antt` has what a line says, `specs/Grammar.antt` which lines may follow which, and
//! `specs/Views.antt` what a text shows. `read_view` reads exactly that, and names the first bad line.
#![tactic(auto)]

mod items;
mod laws;
mod line;
mod name_table;
mod numbers;
mod place;
mod plain_line;
mod read;
mod read_fault;
mod reader;
mod statement;
mod uses;
mod view;
mod words;

pub use laws::{a_text_has_no_bad_line, a_text_says_one_thing};
pub use place::Place;
pub use read::read_view;
pub use read_fault::ReadView;
pub use view::{Entry, Stretch, Task, Use, View};
