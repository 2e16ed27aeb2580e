use tab_core::CoreNo;

/// One step of the core machine.
#[derive(Clone, Copy, Debug, PartialEq, Eq)]
pub enum Step {
    /// The controller posts the next event.
    Post,
    /// The core loads the posted count.
    See(CoreNo),
    /// The core enters its clock's round, and decides the round's count where no core has yet.
    Decide(CoreNo),
    /// The core runs to the end of a stint.
    Run(CoreNo),
}
