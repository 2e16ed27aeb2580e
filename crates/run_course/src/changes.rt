ghost use Rattle.std.specs.Prelude.{◌≡◌, IfOk};
ghost use Rattle.run_course.specs.Changes.{changes_of};

use plan_book::Outcome;
use script_doc::{Act, Event};
use std::alloc::Global;
use tab_core::NoMemory;

/// The changes among the events, each with its tick (of the run) and what became of it: there is an outcome
/// for each change, in their order. Fails only when memory runs out.
pub fn changes_of(
    alloc: Global,
    events: &[Event],
    outcomes: &[Outcome],
) -> Result<Vec<(u32, Outcome)>, NoMemory>
    ensures { IfOk result (λ changes. changes.items ≡ changes_of events.now outcomes.now) }
{
    let mut changes = Vec::with_capacity(alloc, outcomes.len())?;
    for k in 0..events.len() {
        let event = &events[k];
        if let Act::Change(_) = &event.act {
            if let Some(outcome) = outcomes.get(changes.len()) {
                changes.push((event.tick, *outcome))?;
            }
        }
    }
    Ok(changes)
}
