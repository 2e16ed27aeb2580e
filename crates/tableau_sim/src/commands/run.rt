ghost use Rattle.std.specs.Prelude.{◌≡◌, ◌≤◌, ℕ, IfErr, IfOk, List, length};
ghost use Rattle.tab_core.specs.declared.TheConstants.{MAX_ROUNDS};
ghost use Rattle.tab_words.specs.Commands.{IsCommand};
ghost use Rattle.tab_words.specs.declared.command.Command.TheVariants as called;
ghost use Rattle.round_words.specs.declared.view.View.{View as ViewValue};
ghost use Rattle.round_words.specs.Seats.{view_of, IsSeatOf};
ghost use Rattle.round_words.specs.Views.{unstarted};
ghost use Rattle.tab_words.specs.Sections.{sections_of};
ghost use Rattle.tableau_sim.specs.Inside.Reply.{AnswersWith, IsReadyTo, IsReplyTo, Makes};
ghost use Rattle.tableau_sim.specs.Inside.Running.{IsReady, RunsSections};
ghost use Rattle.tableau_sim.specs.Seats.{LeavesSeat, OnSeat};
ghost use Rattle.tableau_sim.specs.Sections.{OfSections, host_section};
ghost use Rattle.tableau_sim.specs.declared.input.TheConstants.{INPUT_LIMIT};

use crate::call::Done;
use crate::commands::prepared::{Prepared, prepare, run_prepared};
use crate::commands::run_beside::run_beside;
use crate::input::{cut, read_input};
use crate::output::write_reply;
use crate::reply::Stop;
use crate::stage::Stage;
use crate::stops::script_of;
use core_workers::Gate;
use round_words::RoundSeat;
use script_doc::Script;
use std::alloc::Global;
use std::sync::Wait;
use std::thread::Threads;
use std::time::Clock;
use tab_core::Host;
use tab_io::{Sink, Source};
use tab_words::RunMode;

// What a run is made of: a run that was prepared, or a host and a script whose changes are planned beside it.
#[derive(Drop)]
pub(crate) enum Ready {
    Prepared(Prepared),
    Beside { host: Host, script: Script },
}

// Answers `run`: reads its input, runs the host's cores on a board that isn't started, and writes the text.
pub(crate) fn run<R: Threads + Wait + Clock + Sync, S: Source, K: Sink, G: Gate>(
    stage: &Stage<'_, R, G>,
    rounds: u32,
    mode: RunMode,
    input: &mut S,
    output: &mut K,
    seat: RoundSeat,
) -> Done
    requires some { 1 ≤ rounds }
    requires few { rounds ≤ MAX_ROUNDS }
    requires board { IsSeatOf stage.now.board.now seat }
    requires opening { view_of seat ≡ unstarted }
    ensures board { IsSeatOf stage.now.board.now result.seat }
    ensures answers { (words : List (List ℕ)) → IsCommand words (called.Run rounds mode)
        → AnswersWith (OnSeat (view_of seat) (view_of result.seat)) (LeavesSeat (view_of seat) (view_of result.seat)) words
        (S.state input.old) (S.state input.new) (K.state output.old) (K.state output.new) result.status result.host }
{
    match ready_to_run(stage.alloc, rounds, mode, input) {
        Ok(Ready::Prepared(prepared)) => {
            let (seat, reply) = run_prepared(stage, rounds, mode, &prepared, seat);
            let (status, host) = write_reply(output, reply);
            Done { status, seat, host }
        }
        Ok(Ready::Beside { host, script }) => {
            let (seat, reply) = run_beside(stage, rounds, host, script, seat);
            let (status, host) = write_reply(output, reply);
            Done { status, seat, host }
        }
        Err(stop) => {
            let (status, host) = write_reply(output, Err(stop));
            Done { status, seat, host }
        }
    }
}

// Reads the input of `run`, and makes ready for it.
fn ready_to_run<S: Source>(
    alloc: Global,
    rounds: u32,
    mode: RunMode,
    input: &mut S,
) -> Result<Ready, Stop>
    requires some { 1 ≤ rounds }
    requires few { rounds ≤ MAX_ROUNDS }
    ensures ok { IfOk result (IsReadyTo rounds mode (S.state input.old) (S.state input.new)) }
    ensures stop { IfErr result (λ stop. (words : List (List ℕ)) (view : ViewValue)
        → IsCommand words (called.Run rounds mode)
        → IsReplyTo (OnSeat view view) (LeavesSeat view view) words (S.state input.old) (S.state input.new)
        (Err stop)) }
{
    match read_input(alloc, input) {
        Ok(bytes) => {
            let ready = ready_for(alloc, rounds, mode, &bytes);
            input.take_back(bytes);
            ready
        }
        Err(stop) => Err(stop),
    }
}

// Makes ready for the input of `run`.
fn ready_for(alloc: Global, rounds: u32, mode: RunMode, input: &[u8]) -> Result<Ready, Stop>
    requires short { length input.now ≤ INPUT_LIMIT }
    requires some { 1 ≤ rounds }
    requires few { rounds ≤ MAX_ROUNDS }
    ensures ok { IfOk result (IsReady rounds mode input.now) }
    ensures stop { IfErr result (λ stop. (view : ViewValue)
        → Makes (OfSections 2 (RunsSections rounds mode view) input.now) (host_section (sections_of input.now)) (Err stop)) }
{
    let sections = match cut(input, 2) {
        Ok(sections) => sections,
        Err(stop) => return Err(stop),
    };
    let (host, script) = match script_of(alloc, rounds, &sections) {
        Ok(read) => read,
        Err(stop) => return Err(stop),
    };
    if mode == RunMode::Live {
        return Ok(Ready::Beside { host, script });
    }
    match prepare(alloc, rounds, host, script) {
        Ok(prepared) => Ok(Ready::Prepared(prepared)),
        Err(stop) => Err(stop),
    }
}
