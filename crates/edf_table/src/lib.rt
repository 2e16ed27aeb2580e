//! One core's row by earliest deadline first (EDF), and the test whether the core's pieces fit.
//!
//! Pieces fit exactly where no interval of the round is asked for more ticks than it has: the
//! processor-demand criterion, which `Fits` in table_form states. Their row is `edf_row` there,
//! and it gives each job its cost inside its window, as `specs/Windows.antt` there says.
#![tactic(auto)]

mod common;
mod fault;
mod fit;
mod laws;
mod light;
mod overload;
mod pending;
mod row;
mod simulation;
mod turn;

pub use fault::EdfFault;
pub use fit::find_overload;
pub use laws::{shorter_piece_fits, unsplit_pieces_fit};
pub use simulation::{build_row, simulate};
