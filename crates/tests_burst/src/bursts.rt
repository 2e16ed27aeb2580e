//! Many bursts in runs of generated hosts and scripts.
use crate::judging::{Judged, Promise, judge};
use crate::running::{Shown, run_scene};
use crate::scenes::{Row, Scene, case_of, scene_of};
use crate::settings::{Setting, setting_of};
use core_workers::{FreeGate, Gate};
use std::alloc::Global;
use std::process::Abort;
use std::test::Fail;
use std::thread::Threads;
use std::time::Clock;
use tab_core::ROUND;
use tests_samples::{Case, Stumbling, bit};

const ROWS: [Row; 9] = [
    (1, 3, 1001, 1000, 1000, 3, 32),
    (2, 3, 1001, 102_600, 100, 4, 40),
    (5, 20, 500, 102_600, 102_600, 2, 32),
    (2, 3, 2002, 51_300, 1000, 4, 40),
    (1, 5, 1001, 20_000, 1000, 3, 32),
    (3, 4, 777, 102_600, 1000, 4, 40),
    (3, 9, 777, 20_000, 50, 2, 32),
    (1, 2, 2002, 7, 1000, 1, 24),
    (2, 8, 1500, 102_600, 300, 3, 40),
];

// What the runs have met, by how often.
#[derive(Clone, Copy, Debug)]
struct Met {
    // bursts that aren't seen, and those that are done and that aren't
    unseen: u32,
    done: u32,
    undone: u32,
    // what became of the bounds of those that are seen
    bound: u32,
    without: u32,
    beyond: u32,
    other: u32,
    blocked: u32,
    // bounds of capped vCPUs and of split ones, and those with a change of plans before
    capped: u32,
    split: u32,
    changed: u32,
}

#[test]
fn bursts_are_told_as_the_stints_show(rt: HostRuntime) -> Result<(), Fail> {
    let mut met = Met {
        unseen: 0,
        done: 0,
        undone: 0,
        bound: 0,
        without: 0,
        beyond: 0,
        other: 0,
        blocked: 0,
        capped: 0,
        split: 0,
        changed: 0,
    };
    for (seed, row) in ROWS.iter().enumerate() {
        try_row(&rt, rt.alloc(), seed as u64, row, &mut met)?;
    }
    assert!(rt; met.unseen > 0 && met.done > 0 && met.undone > 0, "{met:?}");
    assert!(rt;
        met.bound > 0 && met.without > 0 && met.beyond > 0,
        "{met:?}"
    );
    assert!(rt;
        met.other > 0 && met.blocked > 0 && met.changed > 0,
        "{met:?}"
    );
    assert!(rt; met.capped > 0 && met.split > 0, "{met:?}");
    Ok(())
}

// Runs of one host and script.
fn try_row<R: Threads + Clock + Sync + Abort>(
    rt: &R,
    alloc: Global,
    seed: u64,
    row: &Row,
    met: &mut Met,
) -> Result<(), Fail> {
    let case = case_of(seed, row);
    let scene = scene_of(alloc, &case)?;
    let events = scene.script.events();
    let setting = setting_of(
        alloc,
        scene.rounds,
        &scene.host,
        events,
        scene.book.course(),
    )?;
    try_run(rt, alloc, &case, &scene, &setting, &FreeGate, met)?;
    let gate = Stumbling::of(seed);
    try_run(rt, alloc, &case, &scene, &setting, &gate, met)
}

// One run, whose answers are judged.
fn try_run<R: Threads + Clock + Sync + Abort, G: Gate>(
    rt: &R,
    alloc: Global,
    case: &Case,
    scene: &Scene,
    setting: &Setting,
    gate: &G,
    met: &mut Met,
) -> Result<(), Fail> {
    let shown = run_scene(rt, alloc, scene, gate)?;
    let first = shown.alone.len().min(shown.answers.len());
    assert!(rt; shown.alone[..] == shown.answers[..first], "alone {case:?}");
    match judge(alloc, setting, scene.script.events(), &shown) {
        Err(broken) => {
            assert!(rt; false, "{broken:?} in {case:?}");
        }
        Ok(judged) => {
            for one in &judged {
                note(met, setting, &shown, one);
            }
        }
    }
    Ok(())
}

fn note(met: &mut Met, setting: &Setting, shown: &Shown, one: &Judged) {
    let Some(seen) = one.answer.seen else {
        met.unseen = met.unseen.saturating_add(1);
        return;
    };
    let done = one.answer.done.is_some();
    met.done = met.done.saturating_add(u32::from(done));
    met.undone = met.undone.saturating_add(u32::from(!done));
    match one.promise {
        None => {}
        Some(Promise::By { bound }) => note_bound(met, setting, shown, one, seen, bound),
        Some(Promise::NoBudget) => met.without = met.without.saturating_add(1),
        Some(Promise::Beyond) => met.beyond = met.beyond.saturating_add(1),
        Some(Promise::OtherBudget) => met.other = met.other.saturating_add(1),
        Some(Promise::Blocked) => met.blocked = met.blocked.saturating_add(1),
    }
}

fn note_bound(
    met: &mut Met,
    setting: &Setting,
    shown: &Shown,
    one: &Judged,
    seen: u32,
    bound: u32,
) {
    let own = bit(one.burst.vcpu.index() as u32);
    let first = setting.number_in(&shown.used, seen / ROUND);
    let last = setting.number_in(&shown.used, bound.saturating_sub(1) / ROUND);
    let split = match first.and_then(|number| setting.plans.get(number as usize)) {
        None => false,
        Some(plan) => plan.split & own != 0,
    };
    let capped = setting.capped & own != 0;
    met.bound = met.bound.saturating_add(1);
    met.capped = met.capped.saturating_add(u32::from(capped));
    met.split = met.split.saturating_add(u32::from(split));
    met.changed = met.changed.saturating_add(u32::from(first != last));
}
