ghost use Rattle.std.specs.Prelude.{◌≡◌, ◌<◌, Some, length, slice_get};
ghost use Rattle.step_machine.specs.Inside.Logs.{cores_of_logs};
ghost use Rattle.step_machine.specs.Inside.Marks.{IsMarkThere, made_by as made_of};

use crate::core_log::CoreLog;
use crate::mark::Mark;
use std::marker::Model;
use tab_core::{CoreNo, Entry, Stint};

/// What a step made of a core.
#[derive(Clone, Copy)]
pub enum Made {
    /// The core entered a round.
    Entered { core: CoreNo, entry: Entry },
    /// The core ran a stint.
    Ran { core: CoreNo, stint: Stint },
}

/// What the steps of a run made, in their order, and how many events they posted. It no longer needs
/// the course.
#[derive(Drop)]
pub struct Trace {
    pub(crate) marks: Vec<Mark>,
    pub(crate) logs: Vec<CoreLog>,
    pub(crate) posted: u32,
}

impl Model for Trace {
    ghost use Rattle.step_machine.specs.Worlds.{TraceView};
    ghost use Rattle.step_machine.specs.Inside.Logs.{cores_of_logs};
    ghost use Rattle.step_machine.specs.Inside.Marks.{AllStand, all_made};

    ghost Value = { TraceView };

    ghost view = { λ t. record {
      made = all_made (cores_of_logs t.logs.items) t.marks.items;
      posted = t.posted;
    } };

    ghost invariant = { λ t. AllStand (cores_of_logs t.logs.items) t.marks.items };
}

impl Trace {
    /// How many events the steps posted.
    pub fn posted(&self) -> u32
        ensures { result ≡ self.now.posted }
    {
        self.posted
    }

    /// How many entries and stints the steps made.
    pub fn count(&self) -> usize
        ensures { result ≡ length self.now.made }
    {
        self.marks.len()
    }

    /// The entry or stint at this place, which is below the count, in the order of the steps.
    pub fn made(&self, place: usize) -> Made
        requires { place < length self.now.made }
        ensures { slice_get self.now.made place ≡ Some result }
    {
        let mark = self.marks[place];
        made_by(&self.logs, &mark)
    }
}

// What the mark refers to.
fn made_by(logs: &[CoreLog], mark: &Mark) -> Made
    requires { IsMarkThere (cores_of_logs logs.now) mark.now }
    ensures { result ≡ made_of (cores_of_logs logs.now) mark.now }
{
    match *mark {
        Mark::Entered { core, place } => {
            let entry = logs[core.index()].entries[place as usize];
            Made::Entered { core, entry }
        }
        Mark::Ran { core, place } => {
            let stint = logs[core.index()].stints[place as usize];
            Made::Ran { core, stint }
        }
    }
}
