use tab_core::Actor;

/// What a core, or the controller, has to do next, or why there is nothing to do.
#[derive(Clone, Copy, Debug, PartialEq, Eq)]
pub enum Phase {
    /// The core must see the posted count.
    See,
    /// The core must enter its clock's round.
    Decide,
    /// The core may run its next stint.
    Run,
    /// The core's clock is at the run's end.
    Finished,
    /// The controller has posted every event.
    AllPosted,
}

/// What became of a step.
#[derive(Clone, Copy, Debug, PartialEq, Eq)]
pub enum Answer {
    Done,
    /// The step is due, and waits: for a core, whose clock is at this tick, or for the controller,
    /// whose next event has this tick. The core is the lowest that is waited for.
    Behind { who: Actor, tick: u32 },
    /// The step isn't due.
    NotNow { phase: Phase },
}
