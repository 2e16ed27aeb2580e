//! Runs that workers leave before the end, so that one thread does the rest. A gate holds one actor somewhere in the run until
//! the workers of the others have waited for it in vain and given up. From then on its own worker waits for them in vain.
use crate::scenes::{Row, scene_of};
use crate::stress::{Met, NOTHING, try_run};
use core_workers::Gate;
use std::alloc::Global;
use std::hint::spin_loop;
use std::process::Abort;
use std::sync::atomic::AtomicU64;
use std::sync::atomic::Ordering::SeqCst;
use std::test::Fail;
use std::thread::Threads;
use std::time::Clock;
use tab_core::ROUND;
use tests_samples::spread;

// The controller's number as an actor.
const CONTROLLER: u32 = 32;

// In so many looks in a row nobody else passes before the held actor goes on: some 15 ms, longer than a worker waits that has
// worked little.
const QUIET: u32 = 200_000;

// More looks than any run takes.
const LOOKS: u32 = 1_000_000_000;

// Hosts of few cores, since short waits are free only where each worker has a processor of its own. A run is longer than a
// round and two lags, so that nobody has finished when the others wait.
const LEFT: [Row; 6] = [
    (1, 3, 1000, 1000, 30, 2, 30),
    (2, 5, 1000, 1000, 0, 2, 40),
    (3, 7, 1000, 50, 30, 2, 40),
    (1, 4, 100, 1000, 100, 2, 20),
    (2, 4, 20_000, 1000, 30, 2, 40),
    (3, 9, 7000, 102_600, 30, 2, 30),
];

// Holds an actor once it has come to a place, until the others pass no more.
#[derive(Drop)]
struct Leaving {
    held: u32,
    place: u32,
    // 1 once the actor was held.
    was_held: AtomicU64,
    // How often the others have passed.
    passes: AtomicU64,
}

impl Leaving {
    fn of(held: u32, place: u32) -> Leaving {
        Leaving {
            held,
            place,
            was_held: AtomicU64::new(0),
            passes: AtomicU64::new(0),
        }
    }

    fn hold(&self) {
        let mut before = self.passes.load(SeqCst);
        let mut quiet: u32 = 0;
        for _ in 0..LOOKS {
            spin_loop();
            let passes = self.passes.load(SeqCst);
            quiet = if passes == before {
                quiet.saturating_add(1)
            } else {
                0
            };
            before = passes;
            if quiet >= QUIET {
                return;
            }
        }
    }
}

impl Gate for Leaving {
    fn pass(&self, _actor: u32, _step: u64) {}

    fn reached(&self, actor: u32, _step: u64, place: u32) {
        if actor != self.held {
            self.passes.fetch_add(1, SeqCst);
        } else if place >= self.place && self.was_held.load(SeqCst) == 0 {
            self.was_held.store(1, SeqCst);
            self.hold();
        }
    }
}

#[test]
fn runs_that_workers_leave_follow_the_rules(rt: HostRuntime) -> Result<(), Fail> {
    let mut met = NOTHING;
    for (seed, row) in LEFT.iter().enumerate() {
        leave_row(&rt, rt.alloc(), seed as u64, row, &mut met)?;
    }
    Ok(())
}

// Runs of a host and script, one for each actor that is held.
fn leave_row<R: Threads + Clock + Sync + Abort>(
    rt: &R,
    alloc: Global,
    seed: u64,
    row: &Row,
    met: &mut Met,
) -> Result<(), Fail> {
    let scene = scene_of(alloc, seed, row)?;
    let cores = scene.case.cores;
    for number in 0..cores.saturating_add(1) {
        let word = spread(
            seed.saturating_mul(4)
                .saturating_add(u64::from(number))
                .saturating_add(1),
        ) >> 32;
        let gate = if number < cores {
            Leaving::of(number, (word % u64::from(ROUND)) as u32)
        } else {
            Leaving::of(
                CONTROLLER,
                (word % u64::from(scene.case.events / 3 + 1)) as u32,
            )
        };
        try_run(rt, alloc, &scene, true, &gate, met)?;
        assert_eq!(rt; gate.was_held.load(SeqCst), 1);
    }
    Ok(())
}
