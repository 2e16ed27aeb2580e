//! A lane as a part of a picture, in SVG: its label, its bars as boxes or as columns where they are many, and on
//! a vCPU's lane of a plan its longest wait, and right of it a key of who has bars there.
//!
//! What is written is a definition of `specs/`, begun in `specs/LanePictures.antt`. All numbers are whole.
#![tactic(auto)]

mod columns;
mod drawing;
mod gather;
mod holders;
mod joined;
mod keys;
mod labels;
mod lane;
mod lane_picture;
mod laws;
mod levels;
mod marks;
mod paths;
mod places;
mod waits;

pub use drawing::{Band, Palette, Vcpus};
pub use holders::holders_in;
pub use keys::{count_below, next_place};
pub use lane_picture::put_lane;
pub use laws::{
    a_bar_is_in_one_box, a_column_stays_in_its_lane, a_key_has_its_place, no_slot_vanishes,
};
pub use marks::{put_box, short_back, short_dots, short_front};
pub use places::{foot_of, height_of, pitch_of, top_of, x_at};
