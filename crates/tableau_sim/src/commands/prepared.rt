ghost use Rattle.std.specs.Prelude.{◌≡◌, ◌++◌, ◌≤◌, ℕ, IfErr, IfOk, List, None, length};
ghost use Rattle.tab_core.specs.declared.TheConstants.{MAX_ROUNDS};
ghost use Rattle.tab_io.specs.Sinks.{Writes};
ghost use Rattle.tab_words.specs.declared.command.RunMode.{RunMode as Mode};
ghost use Rattle.tab_words.specs.declared.command.RunMode.TheVariants.{Burst};
ghost use Rattle.script_doc.specs.Script.{AreInRun, AreWithin};
ghost use Rattle.table_form.specs.Running.State.{State as StateValue};
ghost use Rattle.burst_bound.specs.Reports.{AreBurstAnswers};
ghost use Rattle.burst_bound.specs.KeptRuns.{IsKeptRun};
ghost use Rattle.burst_bound.specs.ScriptBursts.{bursts_of};
ghost use Rattle.round_words.specs.declared.view.View.{View as ViewValue};
ghost use Rattle.round_words.specs.Seats.{view_of, IsSeatOf};
ghost use Rattle.round_words.specs.Views.{unstarted};
ghost use Rattle.table_form.specs.Running.Courses.{IsCourse};
ghost use Rattle.run_course.specs.Inside.Keeping.{IsTraceWithinLimit};
ghost use Rattle.run_course.specs.RunText.{run_text};
ghost use Rattle.run_course.specs.Runs.{IsRunWritable, kept_stints};
ghost use Rattle.tableau_sim.specs.Inside.Reply.{Makes, MakesOnSeat};
ghost use Rattle.tableau_sim.specs.Inside.Running.{HasBurstRoom, IsPrepared, RunsPrepared, RunsSections, head_of};
ghost use Rattle.tableau_sim.specs.Scripts.{HasScript};
ghost use Rattle.tableau_sim.specs.Sections.{host_section};

use crate::commands::selftest::put_seed;
use crate::reply::{RunReply, Stop, Text};
use crate::stage::Stage;
use crate::stops::{stop_of_plan, stop_of_run};
use burst_bound::{BurstAnswer, BurstReport, write_bursts};
use core_workers::{Crew, Gate};
use plan_book::{Outcome, PlanBook, make_book};
use round_words::RoundSeat;
use run_course::{Ran, TRACE_LIMIT, changes_of, run_course, write_run};
use run_limit::stint_bound;
use script_doc::Script;
use std::alloc::Global;
use std::thread::Threads;
use std::time::Clock;
use tab_core::{Host, NoMemory};
use tab_io::{Sink, WriteFault};
use tab_words::RunMode;
use table_form::Course;

// A run that hasn't begun: its book, what became of the changes, and the seed of a self test.
#[derive(Drop)]
pub(crate) struct Prepared {
    pub(crate) seed: Option<u64>,
    pub(crate) host: Host,
    pub(crate) script: Script,
    pub(crate) book: PlanBook,
    pub(crate) changes: Vec<(u32, Outcome)>,
}

// Prepares a run of a host and a script.
pub(crate) fn prepare(
    alloc: Global,
    rounds: u32,
    host: Host,
    script: Script,
) -> Result<Prepared, Stop>
    requires some { 1 ≤ rounds }
    requires few { rounds ≤ MAX_ROUNDS }
    requires within { AreWithin (length host.vcpus) script }
    requires in_run { AreInRun rounds script }
    ensures prepared { IfOk result (IsPrepared rounds) }
    ensures parts { IfOk result (λ run. (run.seed ≡ None) × (run.host ≡ host) × (run.script ≡ script)) }
    ensures stop { IfErr result (λ stop. (mode : Mode) (view : ViewValue) (sections : List (List ℕ))
        → HasScript rounds sections host script → Makes (RunsSections rounds mode view sections) (host_section sections) (Err stop)) }
{
    let book = match make_book(alloc, &host, &script) {
        Ok(book) => book,
        Err(fault) => return Err(stop_of_plan(fault, host)),
    };
    let Ok(changes) = changes_of(alloc, script.events(), book.outcomes()) else {
        return Err(Stop::NoMemory);
    };
    Ok(Prepared {
        seed: None,
        host,
        script,
        book,
        changes,
    })
}

// The reply of a run that was prepared, on a board that isn't started.
pub(crate) fn run_prepared<'a, R: Threads + Clock + Sync, G: Gate>(
    stage: &Stage<'_, R, G>,
    rounds: u32,
    mode: RunMode,
    prepared: &'a Prepared,
    seat: RoundSeat,
) -> (RoundSeat, RunReply<'a>)
    requires few { rounds ≤ MAX_ROUNDS }
    requires prepared { IsPrepared rounds prepared.now }
    requires board { IsSeatOf stage.now.board.now seat }
    requires opening { view_of seat ≡ unstarted }
    ensures board { IsSeatOf stage.now.board.now result.0 }
    ensures makes { MakesOnSeat (RunsPrepared rounds mode prepared.now.seed prepared.now.host prepared.now.script
        prepared.now.book (view_of result.0)) (view_of result.0 ≡ view_of seat) (view_of seat) (view_of result.0)
        result.1 }
{
    let course = prepared.book.course();
    let script = &prepared.script;
    let Ok(mut bursts) = burst_room(stage.alloc, course, rounds, mode, script) else {
        return (seat, Err(Stop::NoMemory));
    };
    match run_course(
        stage.rt,
        stage.alloc,
        course,
        rounds,
        mode,
        stage.board,
        seat,
        stage.gate,
    ) {
        Ok((seat, ran)) => {
            tell_bursts(mode, course, rounds, script, ran.crew(), &mut bursts);
            let text = Text::Run {
                rounds,
                mode,
                prepared,
                bursts,
                ran,
            };
            (seat, Ok(text))
        }
        Err((seat, fault)) => (seat, Err(stop_of_run(fault))),
    }
}

// Room for what is reported of a run's bursts, if they are asked for. A run that may have more stints than are
// kept isn't begun.
fn burst_room(
    alloc: Global,
    course: &Course,
    rounds: u32,
    mode: RunMode,
    script: &Script,
) -> Result<BurstReport, NoMemory>
    requires few { rounds ≤ MAX_ROUNDS }
    ensures { IfOk result (λ report. mode ≡ Burst → HasBurstRoom course.now rounds script.now report) }
{
    if mode != RunMode::Burst {
        return BurstReport::room(alloc, 0, 0, 0);
    }
    let stints = stint_bound(course, rounds).min(TRACE_LIMIT);
    let events = script.events().len();
    BurstReport::room(alloc, rounds, stints as u32, events as u32)
}

// Tells of the bursts of a run, if they are asked for. Takes no memory.
fn tell_bursts(
    mode: RunMode,
    course: &Course,
    rounds: u32,
    script: &Script,
    crew: &Crew<'_>,
    bursts: &mut BurstReport,
)
    requires few { rounds ≤ MAX_ROUNDS }
    requires course { IsCourse course.now }
    requires events { length script.now ≡ length course.now.ticks }
    requires room { mode ≡ Burst → HasBurstRoom course.now rounds script.now bursts.old }
    requires short { IsTraceWithinLimit course.now rounds mode }
    requires kept { mode ≡ Burst → (s : StateValue) × IsKeptRun course.now rounds crew.now s }
    ensures { mode ≡ Burst → (s : StateValue) → IsKeptRun course.now rounds crew.now s
        → AreBurstAnswers course.now rounds s script.now bursts.new.answers }
{
    match mode {
        RunMode::Report | RunMode::Trace | RunMode::Live => {}
        RunMode::Burst => bursts.fill(course, rounds, script, crew),
    }
}

// The lines before a run, and the run.
pub(crate) fn put_run<K: Sink>(
    sink: &mut K,
    rounds: u32,
    mode: RunMode,
    prepared: &Prepared,
    answers: &[BurstAnswer],
    ran: &Ran<'_>,
) -> Result<(), WriteFault>
    requires told { IsRunWritable mode prepared.now.host ran.now }
    requires answers { mode ≡ Burst → length answers.now ≡ length (bursts_of prepared.now.script) }
    ensures { Writes (K.state sink.old) (K.state sink.new) (
        head_of prepared.now.seed mode prepared.now.host prepared.now.script answers.now
        ++ run_text mode prepared.now.host prepared.now.changes.items ran.now.crew.course rounds
        (kept_stints ran.now) ran.now.report) result }
{
    put_head(sink, mode, prepared, answers)?;
    write_run(sink, mode, &prepared.host, &prepared.changes, rounds, ran)
}

// The line of the seed of a self test, or the lines of bursts, if they are asked for.
fn put_head<K: Sink>(
    sink: &mut K,
    mode: RunMode,
    prepared: &Prepared,
    answers: &[BurstAnswer],
) -> Result<(), WriteFault>
    requires { mode ≡ Burst → length answers.now ≡ length (bursts_of prepared.now.script) }
    ensures { Writes (K.state sink.old) (K.state sink.new)
        (head_of prepared.now.seed mode prepared.now.host prepared.now.script answers.now) result }
{
    if let Some(seed) = prepared.seed {
        return put_seed(sink, seed);
    }
    match mode {
        RunMode::Report | RunMode::Trace | RunMode::Live => Ok(()),
        RunMode::Burst => write_bursts(sink, &prepared.host, &prepared.script, answers),
    }
}
