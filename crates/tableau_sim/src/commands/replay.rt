ghost use Rattle.std.specs.Prelude.{◌≡◌, ◌<◌, ◌≤◌, ◌^◌, ℕ, [], All, List, length, slice_index_or};
ghost use Rattle.script_doc.specs.Script.{AreInRun, AreWithin};
ghost use Rattle.script_doc.specs.Steps.{IsStepWithin};
ghost use Rattle.tab_words.specs.Commands.{IsRoundCount};
ghost use Rattle.tab_words.specs.Sections.{sections_of};
ghost use Rattle.host_doc.specs.Document.{IsHostText};
ghost use Rattle.tableau_sim.specs.Hosts.{OfHost};
ghost use Rattle.tableau_sim.specs.Inside.Reply.{Makes};
ghost use Rattle.tableau_sim.specs.Replay.{Replays, ReplaysSteps};
ghost use Rattle.tableau_sim.specs.Scripts.{OfScript};
ghost use Rattle.tableau_sim.specs.Sections.{OfSections, host_section};
ghost use Rattle.tableau_sim.specs.declared.input.TheConstants.{INPUT_LIMIT};

use crate::input::cut;
use crate::reply::{Reply, Stop, Text, stopped};
use crate::status::Status;
use crate::stops::{script_of, stop_of_plan};
use plan_book::make_book;
use script_doc::{Script, StepList, StepsFault, read_steps};
use std::alloc::Global;
use step_machine::{ReplayFault, replay};
use tab_core::Host;
use tab_words::Sections;

// The reply of `replay` to its input.
pub(crate) fn replay_reply(alloc: Global, rounds: u32, input: &[u8]) -> Reply
    requires within { length input.now ≤ INPUT_LIMIT }
    requires rounds { IsRoundCount rounds }
    ensures { Makes (OfSections 3 (OfHost (OfScript rounds (Replays rounds))) input.now)
        (host_section (sections_of input.now)) result }
{
    match cut(input, 3) {
        Ok(sections) => replay_of(alloc, rounds, &sections),
        Err(stop) => Err(stop),
    }
}

fn replay_of(alloc: Global, rounds: u32, sections: &Sections) -> Reply
    requires three { length sections.now ≡ 3 }
    requires short { (i : ℕ) → length (slice_index_or sections.now i []) < 2 ^ 32 }
    requires rounds { IsRoundCount rounds }
    ensures { Makes (OfHost (OfScript rounds (Replays rounds)) sections.now) (host_section sections.now) result }
{
    let (host, script) = match script_of(alloc, rounds, sections) {
        Ok(read) => read,
        Err(stop) => return Err(stop),
    };
    let list = match read_steps(alloc, sections.part(2), host.cores) {
        Ok(list) => list,
        Err(StepsFault::BadLine { line }) => return Err(stopped(Status::BadStep { line })),
        Err(StepsFault::NoMemory) => return Err(Stop::NoMemory),
    };
    replay_of_parts(alloc, rounds, host, script, list)
}

// The reply of `replay` to a host, a script and steps.
fn replay_of_parts(alloc: Global, rounds: u32, host: Host, script: Script, list: StepList) -> Reply
    requires rounds { IsRoundCount rounds }
    requires within { AreWithin (length host.vcpus) script }
    requires in_run { AreInRun rounds script }
    requires names { All (IsStepWithin host.cores) list.steps }
    ensures { (section : List ℕ) → IsHostText section host
        → Makes (ReplaysSteps rounds host script list.steps list.lines) section result }
{
    let book = match make_book(alloc, &host, &script) {
        Ok(book) => book,
        Err(fault) => return Err(stop_of_plan(fault, host)),
    };
    let StepList { steps, lines } = list;
    match replay(alloc, book.course(), rounds, steps.items()) {
        Ok(world) => {
            let trace = world.into_trace();
            Ok(Text::Replay { host, book, trace })
        }
        Err(ReplayFault::Refused { place, answer }) => {
            let line = lines.items()[place as usize];
            Err(stopped(Status::StepRefused { line, answer }))
        }
        Err(ReplayFault::NoMemory) => Err(Stop::NoMemory),
    }
}
