//! Many short runs of generated hosts and scripts, by threads and by turns in one thread.
use crate::judging::judge;
use crate::ordering::order_of;
use crate::pictures::Setting;
use crate::replaying::{is_same, is_won_once};
use crate::running::{Shown, run_course};
use crate::scenes::{Row, Scene, scene_of};
use core_workers::{FreeGate, Gate};
use plan_book::Outcome;
use std::alloc::Global;
use std::process::Abort;
use std::test::Fail;
use std::thread::Threads;
use std::time::Clock;
use step_machine::replay;
use tab_core::{ROUND, Stint};
use tests_samples::{Stumbling, bit};

// Hosts that are run by threads twice, and in one thread.
const TWICE: [Row; 18] = [
    (1, 3, 102_600, 1000, 30, 3, 40),
    (2, 6, 102_600, 100, 0, 3, 40),
    (3, 5, 102_600, 102_600, 30, 3, 30),
    (4, 12, 102_600, 1000, 1000, 2, 40),
    (5, 20, 102_600, 7, 30, 2, 20),
    (6, 8, 102_600, 1000, 11, 2, 20),
    (7, 30, 102_600, 300, 30, 1, 20),
    (8, 33, 102_600, 1000, 30, 2, 20),
    (1, 5, 1000, 1000, 0, 3, 50),
    (2, 3, 1000, 1000, 30, 3, 60),
    (3, 9, 1000, 50, 30, 2, 40),
    (4, 6, 1000, 1000, 100, 2, 30),
    (5, 6, 1000, 102_600, 30, 1, 20),
    (6, 18, 1000, 1000, 30, 1, 20),
    (7, 14, 1000, 1000, 0, 1, 20),
    (8, 10, 1000, 200, 30, 1, 30),
    (1, 2, 7, 1000, 30, 2, 30),
    (1, 4, 1, 1000, 30, 2, 30),
];

// Hosts that are run by threads once, since cores of a small lag wait for each other at each few ticks.
const ONCE: [Row; 1] = [(2, 5, 7, 3, 30, 1, 30)];

// Hosts that are run in one thread alone.
const ALONE: [Row; 6] = [
    (3, 7, 7, 7, 0, 1, 20),
    (2, 3, 1, 1, 30, 1, 20),
    (4, 7, 7, 1000, 30, 2, 30),
    (8, 17, 7, 50, 30, 1, 20),
    (3, 5, 1, 1000, 30, 1, 20),
    (5, 9, 1, 10, 1000, 1, 20),
];

// What the cases have met, by how often: plans that split a vCPU, changes that are planned and that aren't,
// runs that use several plans, cores with shared and with idle ticks, and cores that idle where a capped vCPU is
// runnable at home.
#[derive(Clone, Copy, Debug)]
pub(crate) struct Met {
    splits: u32,
    planned: u32,
    unplanned: u32,
    switches: u32,
    shared: u32,
    idle: u32,
    capped: u32,
}

pub(crate) const NOTHING: Met = Met {
    splits: 0,
    planned: 0,
    unplanned: 0,
    switches: 0,
    shared: 0,
    idle: 0,
    capped: 0,
};

#[test]
fn short_runs_follow_the_rules(rt: HostRuntime) -> Result<(), Fail> {
    let mut met = NOTHING;
    for (seed, row) in TWICE.iter().enumerate() {
        try_row(&rt, rt.alloc(), seed as u64, row, 2, &mut met)?;
    }
    for (seed, row) in ONCE.iter().enumerate() {
        try_row(&rt, rt.alloc(), seed as u64, row, 1, &mut met)?;
    }
    for (seed, row) in ALONE.iter().enumerate() {
        try_row(&rt, rt.alloc(), seed as u64, row, 0, &mut met)?;
    }
    assert!(rt;
        met.splits > 0 && met.planned > 0 && met.unplanned > 0,
        "{met:?}"
    );
    assert!(rt;
        met.switches > 0 && met.shared > 0 && met.idle > 0 && met.capped > 0,
        "{met:?}"
    );
    Ok(())
}

// Runs of one host and script, as often by threads as is wanted, and by turns in this one.
fn try_row<R: Threads + Clock + Sync + Abort>(
    rt: &R,
    alloc: Global,
    seed: u64,
    row: &Row,
    by_threads: u32,
    met: &mut Met,
) -> Result<(), Fail> {
    let scene = scene_of(alloc, seed, row)?;
    note_plans(met, &scene.setting, scene.book.outcomes());
    if by_threads > 0 {
        try_run(rt, alloc, &scene, true, &FreeGate, met)?;
    }
    if by_threads > 1 {
        try_run(rt, alloc, &scene, true, &Stumbling::of(seed), met)?;
    }
    try_run(rt, alloc, &scene, false, &FreeGate, met)
}

// One run, which is judged by the rules and made again step by step.
pub(crate) fn try_run<R: Threads + Clock + Sync + Abort, G: Gate>(
    rt: &R,
    alloc: Global,
    scene: &Scene,
    threads: bool,
    gate: &G,
    met: &mut Met,
) -> Result<(), Fail> {
    let (case, course, setting) = (&scene.case, scene.book.course(), &scene.setting);
    let shown = run_course(rt, alloc, course, case.rounds, threads, gate)?;
    let ticks = case.rounds.saturating_mul(ROUND) as usize;
    let mut marks = vec![in alloc; 0; ticks]?;
    if let Err(broken) = judge(setting, &mut marks, &shown) {
        assert!(rt; false, "{broken:?} in {case:?}");
    }
    note_run(met, setting, &shown);
    let log = order_of(alloc, setting, course.cores(), &shown)?;
    assert_eq!(rt; log.cores(), course.cores());
    let world = replay(alloc, course, case.rounds, log.steps())?;
    assert!(rt;
        is_same(&world, course, &shown),
        "made again otherwise in {case:?}"
    );
    for round in 0..case.rounds {
        assert!(rt;
            is_won_once(&world, course, round as usize),
            "round {round} of {case:?}"
        );
    }
    Ok(())
}

fn note_plans(met: &mut Met, setting: &Setting, outcomes: &[Outcome]) {
    for picture in &setting.pictures {
        met.splits = met.splits.saturating_add(u32::from(picture.splits()));
    }
    for outcome in outcomes {
        let planned = *outcome == Outcome::Planned;
        met.planned = met.planned.saturating_add(u32::from(planned));
        met.unplanned = met.unplanned.saturating_add(u32::from(!planned));
    }
}

fn note_run(met: &mut Met, setting: &Setting, shown: &Shown) {
    if let Some(used) = shown.used.first() {
        let first = used
            .first()
            .and_then(|count| setting.numbers.get(*count as usize));
        let last = used
            .last()
            .and_then(|count| setting.numbers.get(*count as usize));
        met.switches = met.switches.saturating_add(u32::from(first != last));
    }
    for account in &shown.accounts {
        let shared = account.shared != [0; 256];
        met.shared = met.shared.saturating_add(u32::from(shared));
        met.idle = met.idle.saturating_add(u32::from(account.idle > 0));
    }
    for (core, stints) in shown.stints.iter().enumerate() {
        let held = stints.iter().any(|stint| is_held(setting, core, stint));
        met.capped = met.capped.saturating_add(u32::from(held));
    }
}

// Whether the core idles in the stint, though a capped vCPU that is runnable is at home there and not away.
fn is_held(setting: &Setting, core: usize, stint: &Stint) -> bool {
    let place = (stint.from % ROUND) as usize;
    let Some(picture) = setting.picture_after(stint.used) else {
        return false;
    };
    let (Some(look), Some(home)) = (picture.look(core, place), picture.homes.get(core)) else {
        return false;
    };
    let Some(runnable) = setting.runnable.get(stint.seen as usize) else {
        return false;
    };
    let held = *home & *runnable & setting.capped & !look.away & !bit(look.owner);
    stint.ran.is_none() && held != 0
}
