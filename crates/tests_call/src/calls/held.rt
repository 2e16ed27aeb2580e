// Runs in which a gate holds an actor until another has come to a step.
use super::{ROOM, SPLIT, call_with, comes_to};
use core_workers::Gate;
use std::alloc::Global;
use std::sync::Wait;
use std::sync::atomic::AtomicU64;
use std::sync::atomic::Ordering::SeqCst;
use std::test::Fail;
use std::thread::{Threads, yield_now};
use std::time::Clock;

// One vCPU of half a core, with stints as long as a round, and a change at the end of the first round.
const SWITCH: &str = "cores = 1
lag = 102600
quantum = 102600
[[vcpu]]
name = \"a\"
share_ppm = 500000
latency_ns = 102702600
%%
102600 change set a 250000 102702600
";

// Work for a vCPU at tick 0, where stints are as long as a round. The vCPU is capped in the second.
const BURST: &str = "cores = 1
lag = 102600
quantum = 102600
[[vcpu]]
name = \"a\"
share_ppm = 500000
latency_ns = 102702600
%%
0 burst a 60000
";

const CAPPED_BURST: &str = "cores = 1
lag = 102600
quantum = 102600
[[vcpu]]
name = \"a\"
share_ppm = 500000
latency_ns = 102702600
capped = true
%%
0 burst a 60000
";

// Half a core, and three changes, of which one is refused.
const THREE: &str = "cores = 1
[[vcpu]]
name = \"a\"
share_ppm = 500000
latency_ns = 102702600
%%
20000 change set a 250000 102702600
40000 change set a 1000 0
60000 change set a 1000000 0
";

const THREE_REPORT: &str = "run 2 rounds 1 cores 3 events
change 0 at 20000: planned
change 1 at 40000: no period for a
change 2 at 60000: planned
round 0 plan 0
round 1 plan 2
vcpu a offered 153900 slots 153900 shared 51300 gap 51300
core 0 slots 153900 shared 51300 idle 0
done
";

// Holds an actor at its first step until another comes to a step, for a million turns at most.
#[derive(Drop)]
struct Hold {
    held: u32,
    other: u32,
    step: u64,
    came: AtomicU64,
    late: AtomicU64,
}

impl Gate for Hold {
    fn pass(&self, actor: u32, step: u64) {
        if actor == self.other && step == self.step {
            self.came.store(1, SeqCst);
        }
        if actor != self.held || step > 0 {
            return;
        }
        for _ in 0..1_000_000u32 {
            if self.came.load(SeqCst) == 1 {
                return;
            }
            yield_now();
        }
        self.late.store(1, SeqCst);
    }
}

// Words, input, the actor that is held, the other with its step, and the text; the controller is actor 32.
type HeldRow<'a> = (&'a str, &'a str, (u32, u32, u64), &'a str);

const HELD: [HeldRow<'static>; 6] = [
    (
        "run 2",
        SWITCH,
        (32, 0, 3),
        "run 2 rounds 1 cores 1 events
change 0 at 102600: planned
round 0 plan 0
vcpu a offered 102600 slots 102600 shared 102600 gap 51300
core 0 slots 102600 shared 102600 idle 0
done
",
    ),
    (
        "run 2",
        SWITCH,
        (0, 32, 1),
        "run 2 rounds 1 cores 1 events
change 0 at 102600: planned
round 0 plan 1
vcpu a offered 51300 slots 51300 shared 153900 gap 38475
core 0 slots 51300 shared 153900 idle 0
done
",
    ),
    (
        "run 3 burst",
        BURST,
        (0, 32, 1),
        "burst 0 a at 0 work 60000 seen 0 bound 307800 done 60000
run 3 rounds 1 cores 1 events
round 0 plan 0
vcpu a offered 153900 slots 153900 shared 153900 gap 51300
core 0 slots 153900 shared 153900 idle 0
done
",
    ),
    (
        "run 3 burst",
        CAPPED_BURST,
        (0, 32, 1),
        "burst 0 a at 0 work 60000 seen 0 bound 307800 done 111300
run 3 rounds 1 cores 1 events
round 0 plan 0
vcpu a offered 153900 slots 153900 shared 0 gap 51300
core 0 slots 153900 shared 0 idle 153900
done
",
    ),
    (
        "run 1 burst",
        BURST,
        (0, 32, 1),
        "burst 0 a at 0 work 60000 seen 0 bound - done 60000
run 1 rounds 1 cores 1 events
round 0 plan 0
vcpu a offered 51300 slots 51300 shared 51300 gap 51300
core 0 slots 51300 shared 51300 idle 0
done
",
    ),
    (
        "run 1",
        "cores = 2\n%%\n",
        (1, 0, 5),
        "run 1 rounds 2 cores 0 events
round 0 plan 0
core 0 slots 0 shared 0 idle 102600
core 1 slots 0 shared 0 idle 102600
done
",
    ),
];

// Whether the call with a held actor has the row's text, and no actor was held for too long.
fn is_held_so<R: Threads + Wait + Clock + Sync>(
    rt: &R,
    alloc: Global,
    row: &HeldRow<'_>,
) -> Result<bool, Fail> {
    let (words, input, (held, other, step), text) = *row;
    let gate = Hold {
        held,
        other,
        step,
        came: AtomicU64::new(0),
        late: AtomicU64::new(0),
    };
    let called = call_with(rt, alloc, words, input, &[], ROOM, &gate)?;
    Ok(comes_to(&called, &(0, text.as_bytes(), true)) && gate.late.load(SeqCst) == 0)
}

#[test]
fn held_actors(rt: HostRuntime) -> Result<(), Fail> {
    for row in &HELD {
        assert!(rt; is_held_so(&rt, rt.alloc(), row)?, "{}", row.3);
    }
    Ok(())
}

// Holds each of the first cores at each of its first steps until all of them have come to that step, for a million
// turns at most.
#[derive(Drop)]
struct Together {
    cores: u32,
    steps: u64,
    // how often a core has come to one of these steps: nobody comes to a step before all have come to the one before
    came: AtomicU64,
    late: AtomicU64,
}

impl Together {
    fn of(cores: u32, steps: u64) -> Together {
        Together {
            cores,
            steps,
            came: AtomicU64::new(0),
            late: AtomicU64::new(0),
        }
    }
}

impl Gate for Together {
    fn pass(&self, actor: u32, step: u64) {
        if actor >= self.cores || step >= self.steps {
            return;
        }
        self.came.fetch_add(1, SeqCst);
        let all = u64::from(self.cores).saturating_mul(step.saturating_add(1));
        for _ in 0..1_000_000u32 {
            if self.came.load(SeqCst) >= all {
                return;
            }
            yield_now();
        }
        self.late.store(1, SeqCst);
    }
}

// Words, a host without a script, the cores that are held and at how many steps, and the text.
type TogetherRow<'a> = (&'a str, &'a str, (u32, u64), &'a str);

const TOGETHER: [TogetherRow<'static>; 6] = [
    (
        "run 3",
        SPLIT,
        (2, 1),
        "run 3 rounds 2 cores 0 events
round 0 plan 0
vcpu a offered 184680 slots 184680 shared 0 gap 41040
vcpu b offered 184680 slots 184680 shared 31040 gap 41040
vcpu c offered 184680 slots 184680 shared 30520 gap 20520
core 0 slots 307800 shared 0 idle 0
core 1 slots 246240 shared 61560 idle 0
done
",
    ),
    (
        "run 1",
        "cores = 3\n",
        (3, 1),
        "run 1 rounds 3 cores 0 events
round 0 plan 0
core 0 slots 0 shared 0 idle 102600
core 1 slots 0 shared 0 idle 102600
core 2 slots 0 shared 0 idle 102600
done
",
    ),
    (
        "run 1",
        "cores = 8\n",
        (8, 1),
        "run 1 rounds 8 cores 0 events
round 0 plan 0
core 0 slots 0 shared 0 idle 102600
core 1 slots 0 shared 0 idle 102600
core 2 slots 0 shared 0 idle 102600
core 3 slots 0 shared 0 idle 102600
core 4 slots 0 shared 0 idle 102600
core 5 slots 0 shared 0 idle 102600
core 6 slots 0 shared 0 idle 102600
core 7 slots 0 shared 0 idle 102600
done
",
    ),
    (
        "run 6",
        "cores = 3\nlag = 10260\nquantum = 10260\n",
        (3, 60),
        "run 6 rounds 3 cores 0 events
round 0 plan 0
core 0 slots 0 shared 0 idle 615600
core 1 slots 0 shared 0 idle 615600
core 2 slots 0 shared 0 idle 615600
done
",
    ),
    (
        "run 1",
        "cores = 32\n",
        (32, 1),
        "run 1 rounds 32 cores 0 events
round 0 plan 0
core 0 slots 0 shared 0 idle 102600
core 1 slots 0 shared 0 idle 102600
core 2 slots 0 shared 0 idle 102600
core 3 slots 0 shared 0 idle 102600
core 4 slots 0 shared 0 idle 102600
core 5 slots 0 shared 0 idle 102600
core 6 slots 0 shared 0 idle 102600
core 7 slots 0 shared 0 idle 102600
core 8 slots 0 shared 0 idle 102600
core 9 slots 0 shared 0 idle 102600
core 10 slots 0 shared 0 idle 102600
core 11 slots 0 shared 0 idle 102600
core 12 slots 0 shared 0 idle 102600
core 13 slots 0 shared 0 idle 102600
core 14 slots 0 shared 0 idle 102600
core 15 slots 0 shared 0 idle 102600
core 16 slots 0 shared 0 idle 102600
core 17 slots 0 shared 0 idle 102600
core 18 slots 0 shared 0 idle 102600
core 19 slots 0 shared 0 idle 102600
core 20 slots 0 shared 0 idle 102600
core 21 slots 0 shared 0 idle 102600
core 22 slots 0 shared 0 idle 102600
core 23 slots 0 shared 0 idle 102600
core 24 slots 0 shared 0 idle 102600
core 25 slots 0 shared 0 idle 102600
core 26 slots 0 shared 0 idle 102600
core 27 slots 0 shared 0 idle 102600
core 28 slots 0 shared 0 idle 102600
core 29 slots 0 shared 0 idle 102600
core 30 slots 0 shared 0 idle 102600
core 31 slots 0 shared 0 idle 102600
done
",
    ),
    (
        "run 2 live",
        "cores = 3\nlag = 10260\nquantum = 10260\n",
        (3, 20),
        "run 2 rounds 3 cores 0 events
round 0 plan 0
core 0 slots 0 shared 0 idle 205200
core 1 slots 0 shared 0 idle 205200
core 2 slots 0 shared 0 idle 205200
done
",
    ),
];

// Whether the call passes the gate and has the row's text.
fn is_passed<R: Threads + Wait + Clock + Sync>(
    rt: &R,
    alloc: Global,
    row: &TogetherRow<'_>,
) -> Result<bool, Fail> {
    let (words, host, (cores, steps), text) = *row;
    let gate = Together::of(cores, steps);
    let input = format!(in alloc; "{host}%%\n")?;
    let called = call_with(rt, alloc, words, input.as_str(), &[], ROOM, &gate)?;
    Ok(comes_to(&called, &(0, text.as_bytes(), true)) && gate.late.load(SeqCst) == 0)
}

// No order of steps in one thread passes these gates: each core has a worker of its own, and no worker has given up
// before the last of these steps. Where there are 60, all cores are beyond the first round at the last of them, since
// of three cores one runs a tenth of a round at least while each makes a step.
#[test]
fn workers_step_beside_each_other(rt: HostRuntime) -> Result<(), Fail> {
    for row in &TOGETHER {
        assert!(rt; is_passed(&rt, rt.alloc(), row)?, "{}", row.1);
    }
    Ok(())
}

// Holds core 0 at its sixth step until core 1 has made a thousand steps in a row without getting on, for a million turns at most.
#[derive(Drop)]
struct Lasting {
    place: AtomicU64,
    vain: AtomicU64,
    late: AtomicU64,
}

impl Gate for Lasting {
    fn pass(&self, actor: u32, step: u64) {
        if actor != 0 || step != 5 {
            return;
        }
        for _ in 0..1_000_000u32 {
            if self.vain.load(SeqCst) >= 1_000 {
                return;
            }
            yield_now();
        }
        self.late.store(1, SeqCst);
    }

    fn reached(&self, actor: u32, _step: u64, place: u32) {
        if actor != 1 {
            return;
        }
        if self.place.swap(u64::from(place), SeqCst) == u64::from(place) {
            self.vain.fetch_add(1, SeqCst);
        } else {
            self.vain.store(0, SeqCst);
        }
    }
}

// A worker that gave its core back before would leave core 0 held to the last of its turns.
#[test]
fn a_worker_outlasts_a_thousand_turns(rt: HostRuntime) -> Result<(), Fail> {
    let gate = Lasting {
        place: AtomicU64::new(0),
        vain: AtomicU64::new(0),
        late: AtomicU64::new(0),
    };
    let row = &HELD[5];
    let called = call_with(&rt, rt.alloc(), row.0, row.1, &[], ROOM, &gate)?;
    assert!(rt; comes_to(&called, &(0, row.3.as_bytes(), true)));
    assert_eq!(rt; gate.late.load(SeqCst), 0);
    Ok(())
}

// Holds the planner at its first step until core 0 comes to its second, for a million turns at most, and
// counts the planner's steps: of each of the first seven in a byte of its own, and of the others in the last.
#[derive(Drop)]
struct HeldPlanner {
    came: AtomicU64,
    late: AtomicU64,
    steps: AtomicU64,
}

impl Gate for HeldPlanner {
    fn pass(&self, actor: u32, step: u64) {
        if actor == 0 && step == 1 {
            self.came.store(1, SeqCst);
        }
        if actor != 33 {
            return;
        }
        self.steps.fetch_add(1 << (8 * step.min(7)), SeqCst);
        if step > 0 {
            return;
        }
        for _ in 0..1_000_000u32 {
            if self.came.load(SeqCst) == 1 {
                return;
            }
            yield_now();
        }
        self.late.store(1, SeqCst);
    }
}

#[test]
fn a_held_planner(rt: HostRuntime) -> Result<(), Fail> {
    let gate = HeldPlanner {
        came: AtomicU64::new(0),
        late: AtomicU64::new(0),
        steps: AtomicU64::new(0),
    };
    let called = call_with(&rt, rt.alloc(), "run 2 live", THREE, &[], ROOM, &gate)?;
    assert!(rt; comes_to(&called, &(0, THREE_REPORT.as_bytes(), true)));
    assert_eq!(rt; gate.late.load(SeqCst), 0);
    // one for each change, and one that finds that all are planned
    assert_eq!(rt; gate.steps.load(SeqCst), 0x0101_0101);
    Ok(())
}
