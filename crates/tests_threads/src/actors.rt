//! Actors of a course that are stepped one by one in one thread, each with a seat of its own.
ghost use Rattle.std.specs.Prelude.{◌≡◌, ◌≢◌, ◌<◌, ℕ, All, IfOk, true};
ghost use Rattle.table_form.specs.Running.Courses.{FitsRounds};
ghost use Rattle.round_words.specs.Seats.{view_of, IsSeatOf};
ghost use Rattle.round_words.specs.Shown.{HoldsCore};
ghost use Rattle.round_words.specs.Views.{controller as the_controller, holds};
ghost use Rattle.plan_switch.specs.Controllers as controllers;
ghost use Rattle.core_workers.specs.Crews.{IsNewView};
ghost use Rattle.tests_threads.specs.Workers.{IsWorkerReady};

use dispatch_core::{CoreActor, CoreAnswer, core_step};
use host_doc::read_host;
use plan_book::{PlanBook, make_book};
use plan_switch::{ControlAnswer, Controller, control_step};
use round_words::{RoundBoard, RoundSeat};
use script_doc::read_script;
use std::alloc::Global;
use std::test::Fail;
use tab_core::{CoreNo, NoMemory};
use table_form::Course;

// A core's actor, and a seat that holds the core.
#[derive(Drop)]
struct Worker<'a> {
    seat: RoundSeat,
    actor: CoreActor<'a>,
}

// The core's actor, which has done nothing, with the core's part of the seat. It keeps one stint.
fn worker_of<'a>(
    alloc: Global,
    board: &RoundBoard,
    seat: &mut RoundSeat,
    course: &'a Course,
    rounds: u32,
    core: u32,
) -> Result<Worker<'a>, NoMemory>
    requires board { IsSeatOf board.now seat.old }
    requires fresh { IsNewView course.now (view_of seat.old) }
    requires core { HoldsCore (view_of seat.old) core }
    requires fits { FitsRounds course.now rounds }
    ensures ready { IfOk result (λ w. IsWorkerReady board.now w.seat w.actor) }
    ensures board { IsSeatOf board.now seat.new }
    ensures fresh { IsNewView course.now (view_of seat.new) }
    ensures others { (a : ℕ) → a ≢ core → holds (view_of seat.new) a ≡ holds (view_of seat.old) a }
{
    course.cores();
    let own = board.part(seat, 1 << core);
    let actor = CoreActor::make(alloc, course, CoreNo(core), rounds, 1)?;
    Ok(Worker { seat: own, actor })
}

// Those of all cores. The seat keeps the controller.
fn workers_of<'a>(
    alloc: Global,
    board: &RoundBoard,
    seat: &mut RoundSeat,
    course: &'a Course,
    rounds: u32,
) -> Result<Vec<Worker<'a>>, NoMemory>
    requires board { IsSeatOf board.now seat.old }
    requires fresh { IsNewView course.now (view_of seat.old) }
    requires cores { (c : ℕ) → c < course.now.cores → holds (view_of seat.old) c ≡ true }
    requires controller { holds (view_of seat.old) the_controller ≡ true }
    requires fits { FitsRounds course.now rounds }
    ensures ready { IfOk result (λ workers. All (λ w. IsWorkerReady board.now w.seat w.actor) workers.items) }
    ensures board { IsSeatOf board.now seat.new }
    ensures fresh { IsNewView course.now (view_of seat.new) }
    ensures controller { holds (view_of seat.new) the_controller ≡ true }
{
    let mut workers = Vec::new(alloc);
    for core in 0..course.cores() {
        workers.push(worker_of(alloc, board, seat, course, rounds, core)?)?;
    }
    Ok(workers)
}

fn step(board: &RoundBoard, worker: &mut Worker<'_>) -> CoreAnswer
    requires { IsWorkerReady board.now worker.old.seat worker.old.actor }
    ensures { IsWorkerReady board.now worker.new.seat worker.new.actor }
{
    core_step(board, &mut worker.seat, &mut worker.actor)
}

// A step of each core. Whether all have finished.
fn turn(board: &RoundBoard, workers: &mut Vec<Worker<'_>>) -> bool
    requires { All (λ w. IsWorkerReady board.now w.seat w.actor) workers.old.items }
    ensures { All (λ w. IsWorkerReady board.now w.seat w.actor) workers.new.items }
{
    let mut finished = true;
    for at in 0..workers.len() {
        if step(board, &mut workers[at]) != CoreAnswer::Finished {
            finished = false;
        }
    }
    finished
}

// Whether all cores finish within so many turns.
fn finish(board: &RoundBoard, workers: &mut Vec<Worker<'_>>, turns: u32) -> bool
    requires { All (λ w. IsWorkerReady board.now w.seat w.actor) workers.old.items }
    ensures { All (λ w. IsWorkerReady board.now w.seat w.actor) workers.new.items }
{
    for _turn in 0..turns {
        if turn(board, workers) {
            return true;
        }
    }
    false
}

// Whether the controller posts so many events one by one, and then has finished.
fn posts_all(
    board: &RoundBoard,
    seat: &mut RoundSeat,
    controller: &mut Controller<'_>,
    events: u32,
) -> bool
    requires board { IsSeatOf board.now seat.old }
    requires agrees { controllers.ControlAgreesWith controller.old.course controller.old.state (view_of seat.old) }
{
    for posted in 0..events {
        let answer = control_step(board, seat, controller);
        if answer != (ControlAnswer::Posted { count: posted + 1 }) {
            return false;
        }
    }
    control_step(board, seat, controller) == ControlAnswer::Finished
        && controller.posted() == events
}

// In how many ticks a core ran each of the first three vCPUs in its slots and as the second level's pick, and idled.
type Ticks = ([u64; 3], [u64; 3], u64);

fn first_three(ticks: &[u64; 256]) -> [u64; 3] {
    [ticks[0], ticks[1], ticks[2]]
}

// Whether the core ran so, used this count in each round and kept one stint.
fn ran_so(actor: &CoreActor<'_>, rounds: u32, used: u32, ticks: &Ticks) -> bool {
    let account = actor.account();
    let (slots, shared, idle) = ticks;
    first_three(&account.slots) == *slots
        && first_three(&account.shared) == *shared
        && account.idle == *idle
        && actor.used().len() == rounds as usize
        && actor.used().iter().all(|count| *count == used)
        && actor.stints().len() == 1
}

// Whether in a run of the course, whose events are posted after so many turns of the cores, each round's plan includes
// this count of events, and the cores run so.
fn runs_so(
    alloc: Global,
    course: &Course,
    rounds: u32,
    early: u32,
    used: u32,
    ticks: &[Ticks],
) -> Result<bool, NoMemory>
    requires { FitsRounds course.now rounds }
{
    let (board, mut seat) = RoundBoard::make(alloc)?;
    board.start(&mut seat, course.lag(), course.cores(), course.count());
    let mut workers = workers_of(alloc, &board, &mut seat, course, rounds)?;
    let mut controller = Controller::make(course);
    let soon = finish(&board, &mut workers, early);
    let posted = posts_all(&board, &mut seat, &mut controller, course.count());
    let finished = finish(&board, &mut workers, 1000);
    if soon || !posted || !finished || workers.len() != ticks.len() {
        return Ok(false);
    }
    for core in 0..workers.len() {
        if !ran_so(&workers[core].actor, rounds, used, &ticks[core]) {
            return Ok(false);
        }
    }
    Ok(true)
}

// Two cores, and three vCPUs of 60 percent, of which the third is split. On core 1 it shares with the second the last
// 20,520 ticks of a round, in stints of 1,000 ticks and one of 520.
const SPLIT: &[u8] = b"cores = 2
vcpu = [
    { name = \"a\", share_ppm = 600000, latency_ns = 100000000 },
    { name = \"b\", share_ppm = 600000, latency_ns = 100000000 },
    { name = \"c\", share_ppm = 600000, latency_ns = 100000000 },
]
";

const SPLIT_TICKS: [Ticks; 2] = [
    ([184_680, 0, 123_120], [0, 0, 0], 0),
    ([0, 184_680, 61_560], [0, 31_040, 30_520], 0),
];

// Half a core, with stints as long as a round, and a change to a quarter at the end of the first round.
const HALF: &[u8] = b"cores = 1
lag = 102600
quantum = 102600
vcpu = [ { name = \"a\", share_ppm = 500000, latency_ns = 102702600 } ]
";

const CHANGE: &[u8] = b"102600 change set a 250000 102702600";

// The document of a host, a script, how many rounds there are, how many turns the cores take before the events are posted,
// how many events each round's plan includes, and how each core ran.
type Row<'a> = (&'a [u8], &'a [u8], u32, u32, u32, &'a [Ticks]);

// The change is posted once the core has entered the second round, or before the first.
const ROWS: [Row<'static>; 3] = [
    (SPLIT, b"", 3, 0, 0, &SPLIT_TICKS),
    (
        HALF,
        CHANGE,
        2,
        3,
        0,
        &[([102_600, 0, 0], [102_600, 0, 0], 0)],
    ),
    (
        HALF,
        CHANGE,
        2,
        0,
        1,
        &[([51_300, 0, 0], [153_900, 0, 0], 0)],
    ),
];

// The book of a host and a script of these texts.
fn book_by(alloc: Global, host: &[u8], script: &[u8], rounds: u32) -> Result<PlanBook, Fail>
    ensures { IfOk result (λ book. FitsRounds book.course rounds) }
{
    if rounds == 0 || rounds > 10 || script.len() >= 1000 {
        return Err(Fail::from("a long run"));
    }
    let host = read_host(alloc, host)?;
    let script = read_script(alloc, script, &host, rounds)?;
    match make_book(alloc, &host, &script) {
        Ok(book) => Ok(book),
        Err(_) => Err(Fail::from("no book")),
    }
}

#[test]
fn actors_step_to_the_end(rt: HostRuntime) -> Result<(), Fail> {
    for (host, script, rounds, early, used, ticks) in ROWS {
        let book = book_by(rt.alloc(), host, script, rounds)?;
        assert!(rt; runs_so(rt.alloc(), book.course(), rounds, early, used, ticks)?);
    }
    Ok(())
}
