ghost use Rattle.std.specs.Prelude.{◌≡◌, ◌<◌, ◌≤◌, length};
ghost use Rattle.tab_words.specs.Sections.{sections_of};
ghost use Rattle.tableau_sim.specs.declared.input.TheConstants.{INPUT_LIMIT};
ghost use Rattle.tableau_sim.specs.Hosts.{OfHost};
ghost use Rattle.tableau_sim.specs.Inside.Reply.{Makes};
ghost use Rattle.tableau_sim.specs.PlanWhole.{PlansWhole};
ghost use Rattle.tableau_sim.specs.Sections.{OfSections, host_section};

use crate::input::cut;
use crate::reply::{Reply, Text};
use crate::stops::{host_of, stop_of_whole};
use std::alloc::Global;
use std::marker::Brand;
use std::sync::ledger::{Blank, Ledger};
use tab_core::Steps;
use tab_words::Sections;
use wrap_table::plan_whole;

// The reply of `plan whole` to its input.
pub(crate) fn plan_whole_reply(alloc: Global, input: &[u8]) -> Reply
    requires { length input.now ≤ INPUT_LIMIT }
    ensures { Makes (OfSections 1 (OfHost PlansWhole) input.now) (host_section (sections_of input.now)) result }
{
    match cut(input, 1) {
        Ok(sections) => plan_whole_of::<Brand>(alloc, &sections, Blank::new(1)),
        Err(stop) => Err(stop),
    }
}

// The reply of `plan whole` to its sections, with a counter of steps that nobody reads.
fn plan_whole_of<L: Ledger>(alloc: Global, sections: &Sections, blank: Blank) -> Reply
    requires one { length sections.now ≡ 1 }
    requires name { blank.name ≡ L.name }
    requires parts { (blank.parts ≡ L.parts) × (0 < L.parts) }
    ensures { Makes (OfHost PlansWhole sections.now) (host_section sections.now) result }
{
    let host = match host_of(alloc, sections.part(0)) {
        Ok(host) => host,
        Err(stop) => return Err(stop),
    };
    let mut steps = Steps::<L>::new(blank);
    match plan_whole(alloc, &host, &mut steps) {
        Ok(plan) => Ok(Text::Plan { host, plan }),
        Err(fault) => Err(stop_of_whole(fault, host)),
    }
}
