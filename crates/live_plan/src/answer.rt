use tab_core::{Actor, Stint};

/// What became of a live core's step.
#[derive(Clone, Copy, PartialEq, Eq)]
pub enum LiveAnswer {
    /// The core ran this stint.
    Ran(Stint),
    /// The core waits: for a core, whose clock is at this tick, or for the controller, whose next
    /// event has this tick.
    Behind { who: Actor, tick: u32 },
    /// The core needs this change for its round's plan, and a look at what is made of it missed.
    NotMade { change: u32 },
    /// Memory ran out for this change, which the core needs, or which comes next where it waits.
    Stopped { change: u32 },
    /// The core's clock is at the run's end.
    Finished,
}
