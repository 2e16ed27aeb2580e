//! Files as the sections of one text: each with mended line ends, and a line `%%` between each two.
//!
//! `specs/Mended.antt` says what is written. The law is that cutting the joined text gives the files'
//! texts back, with mended ends.
#![tactic(auto)]

mod laws;
mod mend;

pub use laws::joined_texts_are_the_sections;
pub use mend::{first_cut, lacks_feed, returns_in, write_mended, write_separator};
