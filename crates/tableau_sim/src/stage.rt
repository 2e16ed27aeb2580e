use core_workers::Gate;
use round_words::RoundBoard;
use std::alloc::Global;

/// What a run is made with: threads and memory, the board that its actors share, and the gate that they pass.
#[derive(Drop)]
pub(crate) struct Stage<'a, R, G: Gate> {
    pub(crate) rt: &'a R,
    pub(crate) alloc: Global,
    pub(crate) board: &'a RoundBoard,
    pub(crate) gate: &'a G,
}
