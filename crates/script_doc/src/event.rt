ghost use Rattle.std.specs.Prelude.{◌≡◌};

use std::marker::Model;
use tab_core::{Edit, MAX_ROUNDS, ROUND, VcpuNo};

/// The greatest work of a burst, in ticks: those of the longest run.
pub const MAX_WORK: u32 = MAX_ROUNDS * ROUND;

/// The edits of one change, in the order in which they apply. Contracts see the list.
#[derive(Drop)]
pub struct Edits {
    items: Vec<Edit>,
}

impl Model for Edits {
    ghost use Rattle.std.specs.Prelude.{List};
    ghost use Rattle.tab_core.specs.declared.edit.Edit.{Edit};

    ghost Value = { List Edit };

    ghost view = { λ edits. edits.items.items };
}

impl Edits {
    /// The list of these edits.
    pub fn of(items: Vec<Edit>) -> Edits
        ensures { result ≡ items.items }
    {
        Edits { items }
    }

    /// The edits, in the order in which they apply.
    pub fn items(&self) -> &[Edit]
        ensures { result.now ≡ self.now }
    {
        &self.items
    }
}

/// What happens in an event.
#[derive(Drop)]
pub enum Act {
    /// The vCPU wants to run from now on.
    Wake(VcpuNo),
    /// The vCPU doesn't want to run from now on.
    Block(VcpuNo),
    /// The reservations change by these edits, of which a later one prevails.
    Change(Edits),
    /// Work arrives for the vCPU: so many ticks to run, from 1 to `MAX_WORK`, those of the longest run.
    Burst { vcpu: VcpuNo, work: u32 },
}

/// One event of a script.
#[derive(Drop)]
pub struct Event {
    /// When it happens, in ticks from the start of the run.
    pub tick: u32,
    pub act: Act,
}
