//! A run that is shown, made again step by step.
ghost use Rattle.std.specs.Prelude.{◌≡◌, ◌<◌};

use crate::running::Shown;
use step_machine::World;
use tab_core::{CoreNo, Entry, Stint};
use table_form::Course;

// Whether the machine's run is whole and shows the same of each core and round.
pub(crate) fn is_same(world: &World<'_>, course: &Course, shown: &Shown) -> bool
    requires { world.now.course ≡ course.now }
{
    if world.posted() != course.count() || world.next().is_some() {
        return false;
    }
    for core in 0..course.cores() {
        let at = core as usize;
        let (used, stints) = (shown.used.get(at), shown.stints.get(at));
        let (Some(used), Some(stints)) = (used, stints) else {
            return false;
        };
        let same = has_entries(world.entries(CoreNo(core)), used);
        if !same || world.stints(CoreNo(core)) != stints.as_slice() {
            return false;
        }
    }
    true
}

// Whether the entries are of the rounds with these used counts.
fn has_entries(entries: &[Entry], used: &[u32]) -> bool {
    for (round, entry) in entries.iter().enumerate() {
        if entry.round as usize != round || used.get(round) != Some(&entry.used) {
            return false;
        }
    }
    entries.len() == used.len()
}

// Whether one core and no other won the round.
pub(crate) fn is_won_once(world: &World<'_>, course: &Course, round: usize) -> bool
    requires { world.now.course ≡ course.now }
{
    let mut count: u32 = 0;
    for core in 0..course.cores() {
        if let Some(entry) = world.entries(CoreNo(core)).get(round) {
            count = count.saturating_add(u32::from(entry.won));
        }
    }
    count == 1
}
