//! The text of a plan.
//!
//! `specs/PlanLines.antt` has its grammar, as lines of words. `write_plan` writes exactly the
//! `plan_text` of `specs/PlanText.antt`: those lines, with each core's maximal segments. `read_plan`
//! reads what such lines stand for by `specs/Meaning.antt`, and names the first bad one by
//! `specs/FirstBad.antt`. A `RowReader` reads the same row by row, and keeps none: `specs/RowReading.antt`
//! says how far it has come.
#![tactic(auto)]

mod cores;
mod laws;
mod line_words;
mod lines_left;
mod old_homes;
mod plain_line;
mod read;
mod read_cores;
mod read_fault;
mod read_front;
mod read_old;
mod read_vcpus;
mod refusal;
mod row_reader;
mod rows;
mod vcpus;
mod write;

pub use laws::{a_text_has_one_meaning, a_written_plan_is_read_back};
pub use old_homes::read_old_homes;
pub use read::read_plan;
pub use read_fault::ReadPlan;
pub use refusal::put_plan_fault;
pub use row_reader::RowReader;
pub use write::write_plan;
