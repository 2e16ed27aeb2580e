ghost use Rattle.std.specs.Prelude.{◌≡◌, ◌≤◌, length};
ghost use Rattle.tab_core.specs.declared.TheConstants.{MAX_CHANGES, MAX_EVENTS};

use crate::event::Event;
use std::marker::Model;

/// The events of a run, whose ticks never fall: at most 65,535, of which at most 15 are changes of
/// reservations. Contracts see the list.
#[derive(Drop)]
pub struct Script {
    events: Vec<Event>,
}

impl Model for Script {
    ghost use Rattle.std.specs.Prelude.{◌≤◌, List, length};
    ghost use Rattle.tab_core.specs.declared.TheConstants.{MAX_CHANGES, MAX_EVENTS};
    ghost use Rattle.script_doc.specs.Script.{NeverFall, changes_in};
    ghost use Rattle.script_doc.specs.declared.event.Event.{Event};

    ghost Value = { List Event };

    ghost view = { λ script. script.events.items };

    ghost invariant = { λ script. NeverFall script.events.items
        × (length script.events.items ≤ MAX_EVENTS)
        × (changes_in script.events.items ≤ MAX_CHANGES) };
}

impl Script {
    ghost use Rattle.script_doc.specs.Script.{NeverFall, changes_in};

    /// The script of these events: at most 65,535, whose ticks never fall, and of which at most 15 are
    /// changes.
    pub fn of(events: Vec<Event>) -> Script
        requires order { NeverFall events.items }
        requires few { length events.items ≤ MAX_EVENTS }
        requires few_changes { changes_in events.items ≤ MAX_CHANGES }
        ensures { result ≡ events.items }
    {
        Script { events }
    }

    /// The events in their order: at most 65,535, whose ticks never fall.
    pub fn events(&self) -> &[Event]
        ensures same { result.now ≡ self.now }
        ensures order { NeverFall self.now }
        ensures few { length self.now ≤ MAX_EVENTS }
        ensures few_changes { changes_in self.now ≤ MAX_CHANGES }
    {
        &self.events
    }
}
