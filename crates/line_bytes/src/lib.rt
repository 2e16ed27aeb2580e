//! Lines of numbers and names, gathered in a block of bytes and written many at once.
//!
//! A line is put together after the bytes that are gathered: numbers by pairs of digits, short words, and
//! the names of vCPUs from tails that are made ready once. A word or a tail comes with what lies after its
//! end, and the next bytes are put over that. `specs/Tails.antt` says what a tail is, and
//! `specs/Room.antt` how room is made for one more line.
#![tactic(auto)]

mod block;
mod room;
mod tail;
mod tails;

pub use block::{BLOCK, Block, FULL, LINE, put_byte, put_number, put_short, put_six, put_tail};
pub use room::make_room;
pub use tail::Tail;
pub use tails::{tail_place, tails_of};
