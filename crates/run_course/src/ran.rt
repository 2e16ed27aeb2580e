ghost use Rattle.std.specs.Prelude.{◌≡◌, IfErr, IfOk};
ghost use Rattle.table_form.specs.Running.Courses.{FitsRounds};
ghost use Rattle.round_words.specs.Seats.{view_of, IsSeatOf};
ghost use Rattle.round_words.specs.Views.{unstarted};
ghost use Rattle.trace_report.specs.RunReports.{HasRoom};
ghost use Rattle.run_course.specs.Inside.Keeping.{IsReady, IsTraceWithinLimit, StopsRun};
ghost use Rattle.run_course.specs.Runs.{IsRunOf};

use crate::keeping::{RunFault, keep_of};
use crate::telling::tell;
use core_workers::{Crew, Gate, run_all};
use round_words::{RoundBoard, RoundSeat};
use run_limit::no_core_has_more_stints;
use std::alloc::Global;
use std::marker::Model;
use std::thread::Threads;
use std::time::Clock;
use tab_words::RunMode;
use table_form::Course;
use trace_report::Report;

/// A run that has been made: its actors, with the stints that they kept, and its report.
#[derive(Drop)]
pub struct Ran<'a> {
    pub(crate) crew: Crew<'a>,
    pub(crate) report: Report,
}

impl<'a> Model for Ran<'a> {
    ghost use Rattle.run_course.specs.Runs.{RanView, ran_view};

    ghost Value = { RanView };

    ghost view = { λ r. ran_view r.crew r.report };
}

impl<'a> Ran<'a> {
    /// The run's actors.
    pub fn crew(&self) -> &Crew<'a>
        ensures { result.now ≡ self.now.crew }
    {
        &self.crew
    }
}

/// Runs a course for so many rounds, by threads, on a board that isn't started.
///
/// All memory is taken before the board is started. Without a fault the view of the seat that comes back is
/// that of a whole run which keeps all promises, whatever the threads did, and the report and the kept
/// stints are those of that run. With a fault the board isn't started, and the seat is as it was.
///
/// `TraceTooLong` comes exactly where all stints are to be kept, which may be more than `TRACE_LIMIT`.
pub fn run_course<'a, R: Threads + Clock + Sync, G: Gate>(
    rt: &R,
    alloc: Global,
    course: &'a Course,
    rounds: u32,
    mode: RunMode,
    board: &RoundBoard,
    mut seat: RoundSeat,
    gate: &G,
) -> Result<(RoundSeat, Ran<'a>), (RoundSeat, RunFault)>
    requires board { IsSeatOf board.now seat }
    requires opening { view_of seat ≡ unstarted }
    requires fits { FitsRounds course.now rounds }
    ensures board { IfOk result (λ r. IsSeatOf board.now r.0) }
    ensures ran { IfOk result (λ r. IsRunOf course.now rounds mode (view_of r.0) r.1) }
    ensures short { IfOk result (λ _. IsTraceWithinLimit course.now rounds mode) }
    ensures board_still { IfErr result (λ r. IsSeatOf board.now r.0) }
    ensures still { IfErr result (λ r. view_of r.0 ≡ unstarted) }
    ensures cause { IfErr result (λ r. StopsRun course.now rounds mode r.1) }
{
    let (crew, mut report) = match ready(alloc, course, rounds, mode) {
        Ok(taken) => taken,
        Err(fault) => return Err((seat, fault)),
    };
    board.start(&mut seat, course.lag(), course.cores(), course.count());
    let (seat, crew) = run_all(rt, board, seat, crew, gate);
    seat.shown();
    crew.shown();
    no_core_has_more_stints();
    tell(&crew, rounds, &mut report);
    Ok((seat, Ran { crew, report }))
}

// All memory of a run: its actors, and room for its report.
fn ready<'a>(
    alloc: Global,
    course: &'a Course,
    rounds: u32,
    mode: RunMode,
) -> Result<(Crew<'a>, Report), RunFault>
    requires fits { FitsRounds course.now rounds }
    ensures ready { IfOk result (λ r. IsReady course.now rounds mode r.0 × HasRoom course.now rounds r.1) }
    ensures short { IfOk result (λ _. IsTraceWithinLimit course.now rounds mode) }
    ensures cause { IfErr result (StopsRun course.now rounds mode) }
{
    let keep = keep_of(course, rounds, mode)?;
    let cores = course.cores() as usize;
    let Ok(crew) = Crew::make(alloc, course, rounds, &keep[..cores]) else {
        return Err(RunFault::NoMemory);
    };
    let Ok(report) = Report::room(alloc, course, rounds) else {
        return Err(RunFault::NoMemory);
    };
    Ok((crew, report))
}
