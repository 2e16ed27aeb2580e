ghost use Rattle.std.specs.Prelude.{◌≡◌, ◌<◌, ◌≤◌, ◌^◌, ℕ, [], IfErr, IfOk, false, length, slice_index_or, true};
ghost use Rattle.host_doc.specs.Document.{IsHostText};
ghost use Rattle.table_form.specs.Tables.Plans.{PlanView};
ghost use Rattle.tab_words.specs.Sections.{sections_of};
ghost use Rattle.tableau_sim.specs.declared.input.TheConstants.{INPUT_LIMIT};
ghost use Rattle.tableau_sim.specs.Hosts.{OfHost};
ghost use Rattle.tableau_sim.specs.Inside.Reply.{Makes};
ghost use Rattle.tableau_sim.specs.Plan.{HasPlan};
ghost use Rattle.tableau_sim.specs.PlanStay.{IsTextOf, IsTextOfNone, PlansAnew, PlansStaying};
ghost use Rattle.tableau_sim.specs.Sections.{OfSections, host_section};

use crate::input::cut;
use crate::reply::{Reply, Stop, Text, stopped};
use crate::status::Status;
use crate::stops::{host_of, stop_of_plan};
use period_choice::{TaskFault, tasks_of};
use plan_make::plan_staying;
use plan_text::{ReadPlan, read_old_homes, read_plan};
use std::alloc::Global;
use tab_core::Host;
use tab_words::Sections;
use table_check::{first_fault, serve_exactly};

// The reply of `plan stay` to its input.
pub(crate) fn plan_stay_reply(alloc: Global, input: &[u8]) -> Reply
    requires { length input.now ≤ INPUT_LIMIT }
    ensures { Makes (OfSections 2 (OfHost PlansStaying) input.now) (host_section (sections_of input.now)) result }
{
    match cut(input, 2) {
        Ok(sections) => plan_stay_of(alloc, &sections),
        Err(stop) => Err(stop),
    }
}

fn plan_stay_of(alloc: Global, sections: &Sections) -> Reply
    requires two { length sections.now ≡ 2 }
    requires short { (i : ℕ) → length (slice_index_or sections.now i []) < 2 ^ 32 }
    ensures { Makes (OfHost PlansStaying sections.now) (host_section sections.now) result }
{
    let host = match host_of(alloc, sections.part(0)) {
        Ok(host) => host,
        Err(stop) => return Err(stop),
    };
    match is_planned(alloc, sections, &host) {
        Ok(true) => match Vec::from_slice(alloc, sections.part(1)) {
            Ok(text) => Ok(Text::Same { text }),
            Err(_) => Err(Stop::NoMemory),
        },
        Ok(false) => plan_anew(alloc, sections, host),
        Err(stop) => Err(stop),
    }
}

// Whether the second section is the text of a plan of the host.
fn is_planned(alloc: Global, sections: &Sections, host: &Host) -> Result<bool, Stop>
    requires two { length sections.now ≡ 2 }
    requires short { (i : ℕ) → length (slice_index_or sections.now i []) < 2 ^ 32 }
    ensures yes { IfOk result (λ planned. planned ≡ true
        → (plan : PlanView) × HasPlan (IsTextOf sections.now) host.now plan) }
    ensures no { IfOk result (λ planned. planned ≡ false → IsTextOfNone sections.now host.now) }
    ensures cause { IfErr result (λ why. why ≡ Stop.NoMemory) }
{
    let tasks = match tasks_of(alloc, host) {
        Ok(tasks) => tasks,
        Err(TaskFault::NoPeriod { .. }) => return Ok(false),
        Err(TaskFault::NoMemory) => return Err(Stop::NoMemory),
    };
    let raw = match read_plan(alloc, sections.part(1), host, &tasks) {
        Ok(raw) => raw,
        Err(ReadPlan::BadLine { .. }) => return Ok(false),
        Err(ReadPlan::NoMemory) => return Err(Stop::NoMemory),
    };
    let Ok(fault) = first_fault(alloc, tasks.items(), raw.rows.items()) else {
        return Err(Stop::NoMemory);
    };
    if fault.is_some() {
        return Ok(false);
    }
    let capped = host.vcpus.capped();
    match serve_exactly(alloc, tasks.items(), &capped, raw.rows.items()) {
        Ok(exact) => Ok(exact),
        Err(_) => Err(Stop::NoMemory),
    }
}

// The reply of a host for which the second section has no plan: it gives old homes alone.
fn plan_anew(alloc: Global, sections: &Sections, host: Host) -> Reply
    requires two { length sections.now ≡ 2 }
    requires short { (i : ℕ) → length (slice_index_or sections.now i []) < 2 ^ 32 }
    requires is_host { IsHostText (host_section sections.now) host }
    ensures { Makes (PlansAnew host sections.now) (host_section sections.now) result }
{
    let homes = match read_old_homes(alloc, sections.part(1), &host) {
        Ok(homes) => homes,
        Err(ReadPlan::BadLine { line }) => return Err(stopped(Status::BadPlanLine { line })),
        Err(ReadPlan::NoMemory) => return Err(Stop::NoMemory),
    };
    match plan_staying(alloc, &host, &homes) {
        Ok(plan) => Ok(Text::Plan { host, plan }),
        Err(fault) => Err(stop_of_plan(fault, host)),
    }
}
