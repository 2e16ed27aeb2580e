//! The command line's words, and the small parts that texts are read and written by.
//!
//! Texts are lists of bytes. What their numbers, lines, words and sections are, and which words are
//! a command, is defined in `specs/`, without the code. `proofs/LineLemmas.antt` and
//! `proofs/WordLemmas.antt` have the equations by which a text is read line by line and word by word.
#![tactic(auto)]

mod command;
mod digits;
mod line;
mod line_block;
mod number;
mod section;
mod text;
mod word;

pub use command::{Command, RunMode, Usage, read_words};
pub use digits::push_number;
pub use line::Lines;
pub use line_block::{LineBlock, put_line};
pub use number::{read_core, read_number};
pub use section::{Sections, cut_sections};
pub use text::{TextPiece, put_number, put_numbered, put_pieces};
pub use word::Words;
