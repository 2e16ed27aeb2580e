ghost use Rattle.std.specs.Prelude.{◌≡◌, ◌≤◌, length};
ghost use Rattle.tab_words.specs.Sections.{sections_of};
ghost use Rattle.tableau_sim.specs.declared.input.TheConstants.{INPUT_LIMIT};
ghost use Rattle.tableau_sim.specs.Hosts.{OfHost};
ghost use Rattle.tableau_sim.specs.Inside.Reply.{Makes};
ghost use Rattle.tableau_sim.specs.Plan.{Plans};
ghost use Rattle.tableau_sim.specs.Sections.{OfSections, host_section};

use crate::input::cut;
use crate::reply::{Reply, Text};
use crate::stops::{host_of, stop_of_plan};
use plan_make::plan;
use std::alloc::Global;
use tab_words::Sections;

// The reply of `plan` to its input.
pub(crate) fn plan_reply(alloc: Global, input: &[u8]) -> Reply
    requires { length input.now ≤ INPUT_LIMIT }
    ensures { Makes (OfSections 1 (OfHost Plans) input.now) (host_section (sections_of input.now)) result }
{
    match cut(input, 1) {
        Ok(sections) => plan_of(alloc, &sections),
        Err(stop) => Err(stop),
    }
}

fn plan_of(alloc: Global, sections: &Sections) -> Reply
    requires { length sections.now ≡ 1 }
    ensures { Makes (OfHost Plans sections.now) (host_section sections.now) result }
{
    let host = match host_of(alloc, sections.part(0)) {
        Ok(host) => host,
        Err(stop) => return Err(stop),
    };
    match plan(alloc, &host) {
        Ok(plan) => Ok(Text::Plan { host, plan }),
        Err(fault) => Err(stop_of_plan(fault, host)),
    }
}
