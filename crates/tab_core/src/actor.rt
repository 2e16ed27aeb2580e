use crate::number::CoreNo;

/// Who takes a step of a run: a core, or the controller that posts the script's events.
#[derive(Clone, Copy, Debug, PartialEq, Eq)]
pub enum Actor {
    Core(CoreNo),
    Controller,
}
