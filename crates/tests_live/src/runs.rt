//! Whole live runs by threads, of generated hosts and scripts.
ghost use Rattle.std.specs.Prelude.{◌≡◌, IfOk, length};

use crate::judging::{Broken, hold, is_same_plan, judge_account, judge_rounds};
use crate::scenes::{Row, Scene, scene_of};
use core_workers::FreeGate;
use live_plan::{CellShelf, Found, LiveBook, LiveCrew, Shelf, run_live};
use plan_book::Outcome;
use round_words::RoundBoard;
use std::alloc::{AllocError, Global};
use std::sync::Wait;
use std::test::Fail;
use std::thread::Threads;
use std::time::Clock;
use tab_core::{CoreNo, NoMemory};

const ROWS: [Row; 6] = [
    (1, 3, 102_600, 2, 12),
    (2, 5, 102_600, 2, 12),
    (2, 6, 20_000, 2, 15),
    (3, 9, 1000, 1, 12),
    (4, 12, 51_300, 2, 20),
    (8, 33, 102_600, 1, 9),
];

// What the runs have met, by how often: changes that are planned and that aren't, and cores that used several counts.
#[derive(Drop)]
struct Met {
    planned: u32,
    refused: u32,
    switches: u32,
}

#[test]
fn live_runs_follow_the_rules(rt: HostRuntime) -> Result<(), Fail> {
    let mut met = Met {
        planned: 0,
        refused: 0,
        switches: 0,
    };
    for (seed, row) in ROWS.iter().enumerate() {
        try_row(&rt, rt.alloc(), seed as u64, row, &mut met)?;
    }
    assert!(rt; met.planned > 0 && met.refused > 0 && met.switches > 0);
    Ok(())
}

fn try_row<R: Threads + Wait + Clock + Sync>(
    rt: &R,
    alloc: Global,
    seed: u64,
    row: &Row,
    met: &mut Met,
) -> Result<(), Fail> {
    let scene = scene_of(alloc, seed, row)?;
    note(met, &scene);
    try_run(rt, alloc, &scene, met)
}

// One run, which is judged.
fn try_run<R: Threads + Wait + Clock + Sync>(
    rt: &R,
    alloc: Global,
    scene: &Scene,
    met: &mut Met,
) -> Result<(), Fail> {
    let crew = run_crew(rt, alloc, scene)?;
    match judge_run(scene, &crew, met) {
        Ok(()) => Ok(()),
        Err(broken) => Err(Fail::from(broken)),
    }
}

// The crew ran by the rules, and what was made of each change is what planning anew makes of it.
fn judge_run(scene: &Scene, crew: &LiveCrew<'_>, met: &mut Met) -> Result<(), Broken>
    requires { length crew.now.members ≡ scene.now.live.outline.cores }
{
    judge_crew(scene, crew, met)?;
    judge_cells(scene)
}

// A run of the scene, in which memory lasted.
fn run_crew<'a, R: Threads + Wait + Clock + Sync>(
    rt: &R,
    alloc: Global,
    scene: &'a Scene,
) -> Result<LiveCrew<'a>, NoMemory>
    ensures { IfOk result (λ crew. length crew.members ≡ scene.now.live.outline.cores) }
{
    let book = &scene.live;
    let (board, mut seat) = RoundBoard::make(alloc)?;
    let crew = LiveCrew::make(alloc, book, scene.rounds)?;
    let outline = book.outline();
    board.start(&mut seat, outline.lag(), outline.cores(), outline.count());
    let (_, crew, stopped) = run_live(rt, alloc, &board, seat, crew, book, &FreeGate);
    match stopped {
        None => Ok(crew),
        Some(_) => Err(AllocError),
    }
}

// All cores used the same fresh counts, and their accounts are those of the plans.
fn judge_crew(scene: &Scene, crew: &LiveCrew<'_>, met: &mut Met) -> Result<(), Broken>
    requires { length crew.now.members ≡ scene.now.live.outline.cores }
{
    let course = scene.anew.course();
    for core in 0..scene.live.outline().cores() {
        let actor = crew.actor(CoreNo(core));
        let used = actor.used();
        judge_rounds(course, used)?;
        hold(used == crew.actor(CoreNo(0)).used(), Broken::Counts)?;
        judge_account(course, core, used, actor.account())?;
        let switches = used.first() != used.last();
        met.switches = met.switches.saturating_add(u32::from(switches));
    }
    Ok(())
}

// The event count after which so many changes have come.
fn count_with(book: &LiveBook, changes: u32) -> Option<u32> {
    for count in 0..book.outline().count() + 1 {
        if book.changes_before(count) == changes {
            return Some(count);
        }
    }
    None
}

// Whether what was found for a change is what planning anew gives after it.
fn is_as_anew(scene: &Scene, change: u32, found: &Found) -> bool {
    let Some(outcome) = scene.anew.outcomes().get(change as usize) else {
        return false;
    };
    let Some(count) = count_with(&scene.live, change.saturating_add(1)) else {
        return false;
    };
    let course = scene.anew.course();
    match found {
        Found::Planned { plan, .. } => {
            *outcome == Outcome::Planned
                && count <= course.count()
                && is_same_plan(plan, course.plan_after(count))
        }
        Found::Refused { outcome: refused } => outcome == refused,
        Found::NoMemory => false,
    }
}

// What the cells have for each change is what planning anew gives.
fn judge_cells(scene: &Scene) -> Result<(), Broken> {
    let book = &scene.live;
    let mut shelf = CellShelf::of(book);
    for change in 0..book.changes().len() as u32 {
        let made = shelf.look(book, change).ok_or(Broken::OtherPlan)?;
        hold(is_as_anew(scene, change, made.found()), Broken::OtherPlan)?;
    }
    Ok(())
}

fn note(met: &mut Met, scene: &Scene) {
    for outcome in scene.anew.outcomes() {
        let planned = *outcome == Outcome::Planned;
        met.planned = met.planned.saturating_add(u32::from(planned));
        met.refused = met.refused.saturating_add(u32::from(!planned));
    }
}
