ghost use Rattle.std.specs.Prelude.{◌≡◌, ◌≤◌, IfErr, IfOk, None, length};
ghost use Rattle.tab_core.specs.declared.TheConstants.{MAX_ROUNDS};
ghost use Rattle.script_doc.specs.Script.{AreInRun, AreWithin};
ghost use Rattle.round_words.specs.Seats.{view_of, IsSeatOf};
ghost use Rattle.round_words.specs.Views.{unstarted};
ghost use Rattle.round_words.specs.declared.view.View.{View};
ghost use Rattle.core_workers.specs.Crews.{IsNewView};
ghost use Rattle.live_plan.specs.Books.{IsLiveBookOf};
ghost use Rattle.live_plan.specs.Crews.{IsCrewOf, LiveCrewAgrees, actors_of, bare};
ghost use Rattle.run_live.specs.Inside.Readies.{HasRoomToTell, IsLiveReady, LiveActorsHaveRun, LiveCrewHasRun};
ghost use Rattle.run_live.specs.LiveRuns.{IsLiveRunOf, LeavesView};

use crate::telling::tell;
use core_workers::Gate;
use live_plan::{LiveActor, LiveBook, LiveCrew, run_live};
use plan_book::{BookFault, Outcome, PlanBook};
use plan_make::PlanFault;
use round_words::{RoundBoard, RoundSeat};
use run_course::changes_of;
use script_doc::Script;
use std::alloc::{AllocError, Global};
use std::marker::Model;
use std::sync::Wait;
use std::thread::Threads;
use std::time::Clock;
use tab_core::{Host, NoMemory};
use trace_report::Report;

/// A run that has been made: the script's book, what became of its changes, and the run's report.
#[derive(Drop)]
pub struct Ran {
    pub(crate) book: PlanBook,
    pub(crate) changes: Vec<(u32, Outcome)>,
    pub(crate) report: Report,
}

impl Model for Ran {
    ghost use Rattle.run_live.specs.LiveRuns.{LiveRanView, live_ran_view};

    ghost Value = { LiveRanView };

    ghost view = { λ r. live_ran_view r.book r.changes.items r.report };
}

/// Why there is no report of a run.
#[derive(Drop)]
pub enum LiveFault {
    /// The host has no plan, or memory ran out before the run began.
    NotBegun(BookFault),
    /// Memory ran out once the cores had started.
    Stopped,
}

/// Runs a script for a host for so many rounds, by threads, on a board that isn't started: the cores start with
/// the host's plan, and the plans of the changes are made beside them.
///
/// The script is one for the host's vCPUs, with all its events in the run. `NotBegun` has the fault that
/// `make_book` has of the host alone, or out of memory, and leaves the seat as it was. From the start on memory
/// may run out for a change or for what is reported of the run: with `Stopped` the view reads as a run so far, which
/// needn't be whole. Without a fault it reads as a whole run, and the report is the one of that run. Both hold
/// by the course that the script makes of the host, whatever the threads did.
///
/// It may wait for the threads that it has started, and at last for what is made of a change.
pub fn run_script<R: Threads + Wait + Clock + Sync, G: Gate>(
    rt: &R,
    alloc: Global,
    host: &Host,
    script: &Script,
    rounds: u32,
    board: &RoundBoard,
    mut seat: RoundSeat,
    gate: &G,
) -> Result<(RoundSeat, Ran), (RoundSeat, LiveFault)>
    requires within { AreWithin (length host.now.vcpus) script.now }
    requires in_run { AreInRun rounds script.now }
    requires some { 1 ≤ rounds }
    requires few { rounds ≤ MAX_ROUNDS }
    requires board { IsSeatOf board.now seat }
    requires opening { view_of seat ≡ unstarted }
    ensures board { IfOk result (λ r. IsSeatOf board.now r.0) }
    ensures ran { IfOk result (λ r. IsLiveRunOf rounds host.now script.now (view_of r.0) r.1) }
    ensures board_left { IfErr result (λ r. IsSeatOf board.now r.0) }
    ensures left { IfErr result (λ r. LeavesView rounds host.now script.now r.1 (view_of r.0)) }
{
    let live = match LiveBook::make(alloc, host, script) {
        Ok(live) => live,
        Err(fault) => return Err((seat, LiveFault::NotBegun(fault))),
    };
    let Ok(crew) = crew_for(alloc, host, script, rounds, &live) else {
        return Err((seat, LiveFault::NotBegun(PlanFault::NoMemory)));
    };
    let (seat, crew, stopped) = run_ready(rt, alloc, &live, crew, board, seat, gate);
    let Ok(actors) = whole_actors(alloc, crew, stopped) else {
        return Err((seat, LiveFault::Stopped));
    };
    match told(alloc, host, script, rounds, live, &actors, &seat) {
        Ok(ran) => Ok((seat, ran)),
        Err(_) => Err((seat, LiveFault::Stopped)),
    }
}

// Starts the board and runs what is ready. The third part is the change for which memory ran out, if it did.
fn run_ready<'a, R: Threads + Wait + Clock + Sync, G: Gate>(
    rt: &R,
    alloc: Global,
    live: &'a LiveBook,
    crew: LiveCrew<'a>,
    board: &RoundBoard,
    mut seat: RoundSeat,
    gate: &G,
) -> (RoundSeat, LiveCrew<'a>, Option<u32>)
    requires crew { IsCrewOf live.now crew }
    requires agree { (v : View) → IsNewView (bare live.now) v → LiveCrewAgrees live.now crew v }
    requires board { IsSeatOf board.now seat }
    requires opening { view_of seat ≡ unstarted }
    ensures board { IsSeatOf board.now result.0 }
    ensures ran { LiveCrewHasRun live.now crew.entry.rounds result.1 (view_of result.0) result.2 }
{
    let outline = live.outline();
    board.start(&mut seat, outline.lag(), outline.cores(), outline.count());
    run_live(rt, alloc, board, seat, crew, live, gate)
}

// The actors of a run that came to its end, which it does where memory runs out for no change.
fn whole_actors(
    alloc: Global,
    crew: LiveCrew<'_>,
    stopped: Option<u32>,
) -> Result<Vec<LiveActor>, NoMemory>
    ensures { IfOk result (λ actors. (stopped ≡ None) × (actors.items ≡ actors_of crew.entry)) }
{
    match stopped {
        None => crew.into_actors(alloc),
        Some(_) => Err(AllocError),
    }
}

// The run that was made, with what its actors tell of it.
fn told(
    alloc: Global,
    host: &Host,
    script: &Script,
    rounds: u32,
    live: LiveBook,
    actors: &[LiveActor],
    seat: &RoundSeat,
) -> Result<Ran, NoMemory>
    requires within { AreWithin (length host.now.vcpus) script.now }
    requires few { rounds ≤ MAX_ROUNDS }
    requires live { IsLiveBookOf host.now script.now live }
    requires ran { LiveActorsHaveRun live rounds actors.now (view_of seat.now) }
    ensures { IfOk result (IsLiveRunOf rounds host.now script.now (view_of seat.now)) }
{
    let (book, changes, mut report) = room_to_tell(alloc, live, host, script, rounds)?;
    seat.shown();
    let course = book.course();
    tell(course, course.cores(), actors, rounds, &mut report);
    Ok(Ran {
        book,
        changes,
        report,
    })
}

// The actors of a run that has not begun, by the live book of the host and the script.
fn crew_for<'a>(
    alloc: Global,
    host: &Host,
    script: &Script,
    rounds: u32,
    live: &'a LiveBook,
) -> Result<LiveCrew<'a>, NoMemory>
    requires live { IsLiveBookOf host.now script.now live.now }
    requires in_run { AreInRun rounds script.now }
    requires some { 1 ≤ rounds }
    requires few { rounds ≤ MAX_ROUNDS }
    ensures { IfOk result (IsLiveReady rounds live.now) }
{
    let _ = host;
    let _ = script;
    LiveCrew::make(alloc, live, rounds)
}

// The script's book, with the plans that the run made, what became of its changes, and room for the report of a run.
fn room_to_tell(
    alloc: Global,
    live: LiveBook,
    host: &Host,
    script: &Script,
    rounds: u32,
) -> Result<(PlanBook, Vec<(u32, Outcome)>, Report), NoMemory>
    requires live { IsLiveBookOf host.now script.now live }
    requires within { AreWithin (length host.now.vcpus) script.now }
    ensures { IfOk result (λ r. HasRoomToTell rounds host.now script.now r.0 r.1.items r.2) }
{
    let book = live.into_book(alloc, host, script)?;
    let changes = changes_of(alloc, script.events(), book.outcomes())?;
    let report = Report::room(alloc, book.course(), rounds)?;
    Ok((book, changes, report))
}
