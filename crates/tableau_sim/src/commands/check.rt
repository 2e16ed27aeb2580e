ghost use Rattle.std.specs.Prelude.{◌≡◌, ◌<◌, ◌≤◌, ◌^◌, ℕ, [], length, slice_index_or, true};
ghost use Rattle.tab_words.specs.Sections.{sections_of};
ghost use Rattle.tableau_sim.specs.declared.input.TheConstants.{INPUT_LIMIT};
ghost use Rattle.tableau_sim.specs.Check.{Checks};
ghost use Rattle.tableau_sim.specs.Hosts.{OfHost};
ghost use Rattle.tableau_sim.specs.Inside.Passing.{IsGoodText};
ghost use Rattle.tableau_sim.specs.Inside.Reply.{Makes};
ghost use Rattle.tableau_sim.specs.Sections.{OfSections, host_section};

use crate::input::cut;
use crate::reply::{Reply, Stop, Text, stopped};
use crate::status::Status;
use crate::stops::{host_of, stop_of_check, stop_of_tasks};
use period_choice::tasks_of;
use plan_text::{ReadPlan, RowReader, read_plan};
use std::alloc::Global;
use tab_core::{Host, Tasks};
use tab_words::Sections;
use table_check::{RowChecks, first_fault};

// The reply of `check` to its input.
pub(crate) fn check_reply(alloc: Global, input: &[u8]) -> Reply
    requires { length input.now ≤ INPUT_LIMIT }
    ensures { Makes (OfSections 2 (OfHost Checks) input.now) (host_section (sections_of input.now)) result }
{
    match cut(input, 2) {
        Ok(sections) => check_of(alloc, &sections),
        Err(stop) => Err(stop),
    }
}

// From how many bytes on the rows of a plan text are checked as they are read, and aren't kept. Only
// memory and speed depend on this.
const LONG_TEXT: usize = 400_000;

fn check_of(alloc: Global, sections: &Sections) -> Reply
    requires two { length sections.now ≡ 2 }
    requires short { (i : ℕ) → length (slice_index_or sections.now i []) < 2 ^ 32 }
    ensures { Makes (OfHost Checks sections.now) (host_section sections.now) result }
{
    let host = match host_of(alloc, sections.part(0)) {
        Ok(host) => host,
        Err(stop) => return Err(stop),
    };
    let tasks = match tasks_of(alloc, &host) {
        Ok(tasks) => tasks,
        Err(fault) => return Err(stop_of_tasks(fault, host)),
    };
    let text = sections.part(1);
    if text.len() >= LONG_TEXT && passes(alloc, text, &host, &tasks) {
        return Ok(Text::Checked);
    }
    let raw = match read_plan(alloc, text, &host, &tasks) {
        Ok(raw) => raw,
        Err(ReadPlan::BadLine { line }) => return Err(stopped(Status::BadPlanLine { line })),
        Err(ReadPlan::NoMemory) => return Err(Stop::NoMemory),
    };
    let Ok(fault) = first_fault(alloc, tasks.items(), raw.rows.items()) else {
        return Err(Stop::NoMemory);
    };
    match fault {
        None => Ok(Text::Checked),
        Some(fault) => Err(stop_of_check(fault, host)),
    }
}

// Whether the text is seen to be that of good tables, row by row. Where it isn't, nothing is known.
fn passes(alloc: Global, text: &[u8], host: &Host, tasks: &Tasks) -> bool
    requires named { length tasks.now ≡ length host.now.vcpus }
    requires short { length text.now < 2 ^ 32 }
    ensures { result ≡ true → IsGoodText host.now tasks.now text.now }
{
    let Ok(mut reader) = RowReader::of(alloc, text, host, tasks) else {
        return false;
    };
    let Ok(mut checks) = RowChecks::of(alloc, tasks.items()) else {
        return false;
    };
    let mut row = Vec::new(alloc);
    for core in 0..host.cores {
        if reader.read_row(core, &mut row).is_err() || !checks.take_row(&row) {
            return false;
        }
    }
    if reader.read_end().is_err() {
        return false;
    }
    checks.are_good()
}
