ghost use Rattle.std.specs.Prelude.{◌≡◌, ℕ, IfOk, List};
ghost use Rattle.tab_io.specs.Sinks.{Writes};
ghost use Rattle.tab_io.specs.Views.{SourceView};
ghost use Rattle.tab_words.specs.Commands.{IsCommand};
ghost use Rattle.tab_words.specs.declared.command.Command.TheVariants as called;
ghost use Rattle.round_words.specs.Seats.{view_of, IsSeatOf};
ghost use Rattle.round_words.specs.Views.{unstarted};
ghost use Rattle.tableau_sim.specs.Inside.Reply.{AnswersWith};
ghost use Rattle.tableau_sim.specs.Inside.Running.{IsTest};
ghost use Rattle.tableau_sim.specs.Seats.{LeavesSeat, OnSeat};
ghost use Rattle.tableau_sim.specs.Selftest.{selftest_line};

use crate::call::Done;
use crate::commands::prepared::{Prepared, run_prepared};
use crate::output::write_reply;
use crate::reply::Stop;
use crate::stage::Stage;
use core_workers::Gate;
use host_gen::generate;
use plan_book::make_book;
use plan_make::PlanFault;
use round_words::RoundSeat;
use script_doc::Script;
use std::alloc::{AllocError, Global};
use std::thread::Threads;
use std::time::Clock;
use tab_core::NoMemory;
use tab_io::{Sink, WriteFault};
use tab_words::{RunMode, TextPiece, put_pieces};

// Answers `selftest`: runs the cores of the seed's host on a board that isn't started, and writes the text.
pub(crate) fn selftest<R: Threads + Clock + Sync, K: Sink, G: Gate>(
    stage: &Stage<'_, R, G>,
    seed: u64,
    output: &mut K,
    seat: RoundSeat,
) -> Done
    requires board { IsSeatOf stage.now.board.now seat }
    requires opening { view_of seat ≡ unstarted }
    ensures board { IsSeatOf stage.now.board.now result.seat }
    ensures answers { (words : List (List ℕ)) (source : SourceView) → IsCommand words (called.Selftest seed)
        → AnswersWith (OnSeat (view_of seat) (view_of result.seat)) (LeavesSeat (view_of seat) (view_of result.seat)) words
        source source (K.state output.old) (K.state output.new) result.status result.host }
{
    match prepare_test(stage.alloc, seed) {
        Ok(prepared) => {
            let (seat, reply) = run_prepared(stage, 4, RunMode::Report, &prepared, seat);
            let (status, host) = write_reply(output, reply);
            Done { status, seat, host }
        }
        Err(_) => {
            let (status, host) = write_reply(output, Err(Stop::NoMemory));
            Done { status, seat, host }
        }
    }
}

// Prepares a run of the seed's host of 8 cores and 64 vCPUs, without an event. No period and no room is
// missing for a generated host (`host_gen::a_generated_host_is_within_the_bound`).
fn prepare_test(alloc: Global, seed: u64) -> Result<Prepared, NoMemory>
    ensures { IfOk result (IsTest seed) }
{
    let host = generate(alloc, seed, 8, 64)?;
    let script = Script::of(Vec::new(alloc));
    match make_book(alloc, &host, &script) {
        Ok(book) => Ok(Prepared {
            seed: Some(seed),
            host,
            script,
            book,
            changes: Vec::new(alloc),
        }),
        Err(PlanFault::NoMemory) => Err(AllocError),
        Err(PlanFault::NoPeriod { .. }) => unreachable!(),
        Err(PlanFault::NoRoom { .. }) => unreachable!(),
    }
}

// The line of the seed.
#[tactic(auto, unfolding(crate::specs::Selftest::selftest_line))]
pub(crate) fn put_seed<K: Sink>(sink: &mut K, seed: u64) -> Result<(), WriteFault>
    ensures { Writes (K.state sink.old) (K.state sink.new) (selftest_line seed) result }
{
    put_pieces(
        sink,
        &[
            TextPiece::Text(b"selftest "),
            TextPiece::Wide(seed),
            TextPiece::Text(b"\n"),
        ],
    )
}
