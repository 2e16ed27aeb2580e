//! The commands of `tableau-tools` about hosts: documents of sizes, which VMs fit where, lines for schedulers, the judge, and
//! files joined as sections.
//!
//! Each command is one call of what its words say. `sizes_doc` has the reader of sizes, and `size_fit`, `fleet_place`,
//! `view_schedulers` and `section_join` the texts. Of a trace `host_judge` has the reader, and `view_judge` the texts.
#![tactic(auto)]

mod documents;
mod earlier;
mod enough;
mod fits;
mod fleet;
mod hosts;
mod joins;
mod judgements;
mod lines;
mod map;
mod place;
mod promises;
mod remedy;
mod vms;

pub use fits::fit;
pub use hosts::{SizeWords, host};
pub use joins::sections;
pub use judgements::{JudgeWords, judge};
pub use lines::{LineForm, LineWords, export_lines};
pub use place::{PlaceWords, place_vms};
