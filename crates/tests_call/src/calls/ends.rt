// Sources and sinks that fail, at each of the calls that are made of them.
use super::{Outcome, ROOM, call_with, comes_to};
use core_workers::FreeGate;
use std::alloc::Global;
use std::sync::Wait;
use std::test::Fail;
use std::thread::Threads;
use std::time::Clock;

const NO_VCPUS: &str = "plan cores 1 vcpus 0\ncore 0\n102600 -\nend\n";

const PAIR: &str = "cores = 2
[[vcpu]]
name = \"a\"
share_ppm = 600000
latency_ns = 100000000
[[vcpu]]
name = \"b\"
share_ppm = 600000
latency_ns = 100000000
[[vcpu]]
name = \"c\"
share_ppm = 200000
latency_ns = 100000000
";

const PAIR_PLAN: &str = "plan cores 2 vcpus 3
vcpu a period 102600 cost 61560 home 0
vcpu b period 102600 cost 61560 home 1
vcpu c period 51300 cost 10260 home 0
core 0
10260 c
71820 a
82080 c
102600 -
core 1
61560 b
102600 -
end
";

// A vCPU of half a core, and tables that have a tick less for it.
const SHORT_OF_HALF: &str = "cores = 1
[[vcpu]]
name = \"a\"
share_ppm = 500000
latency_ns = 102702600
%%
plan cores 1 vcpus 1
vcpu a period 102600 cost 51300 home 0
core 0
51299 a
102600 -
end
";

const HALF: &str = "cores = 1
[[vcpu]]
name = \"a\"
share_ppm = 500000
latency_ns = 102702600
%%
";

const HALF_REPORT: &str = "run 1 rounds 1 cores 0 events
round 0 plan 0
vcpu a offered 51300 slots 51300 shared 51300 gap 51300
core 0 slots 51300 shared 51300 idle 0
done
";

// One core without vCPUs, whose stint is as long as the round, and no event.
const IDLE: &str = "cores = 1\nlag = 102600\n%%\n";

const IDLE_TRACE: &str = "core 0 0 102600 used 0 seen 0 - idle
run 1 rounds 1 cores 0 events
round 0 plan 0
core 0 slots 0 shared 0 idle 102600
done
";

// A vCPU of half a core, and the steps of its first stint.
const REPLAY: &str = "cores = 1
[[vcpu]]
name = \"a\"
share_ppm = 500000
latency_ns = 102702600

%%

%%
see 0
decide 0
run 0";

const REPLAY_TEXT: &str = "core 0 round 0 count 0\ncore 0 0 1000 used 0 seen 0 a slot\nposted 0\n";

// Words, input, and what comes where neither of the two reads fails: the exit status, the text, and whether the board
// is started.
type Row<'a> = (&'a str, &'a str, u8, &'a str, bool);

const READS: [Row<'static>; 4] = [
    ("plan", "cores = 1\n", 0, NO_VCPUS, false),
    ("plan", PAIR, 0, PAIR_PLAN, false),
    ("run 1", HALF, 0, HALF_REPORT, true),
    (
        "check",
        SHORT_OF_HALF,
        7,
        "no: a has 51299 of 51300 ticks in period 0\n",
        false,
    ),
];

const READ_FAULT: Outcome<'static> = (4, b"refused: read fault\n", false);

// Whether the call ends so if its first or its second read fails, and as the row says if neither does.
fn ends_by_reads<R: Threads + Wait + Clock + Sync>(
    rt: &R,
    alloc: Global,
    row: &Row<'_>,
) -> Result<bool, Fail> {
    let (words, input, exit, text, started) = *row;
    for failing in 0..3 {
        let called = call_with(rt, alloc, words, input, &[failing], ROOM, &FreeGate)?;
        let whole = (exit, text.as_bytes(), started);
        let outcome = if failing < 2 { READ_FAULT } else { whole };
        if !comes_to(&called, &outcome) {
            return Ok(false);
        }
    }
    Ok(true)
}

#[test]
fn reads_that_fail(rt: HostRuntime) -> Result<(), Fail> {
    for row in &READS {
        assert!(rt; ends_by_reads(&rt, rt.alloc(), row)?, "{}", row.0);
    }
    Ok(())
}

const ROOMS: [Row<'static>; 6] = [
    ("plan", "cores = 1\n", 0, NO_VCPUS, false),
    ("plan", PAIR, 0, PAIR_PLAN, false),
    ("", "", 1, "refused: usage at word 0\n", false),
    ("replay 1", REPLAY, 0, REPLAY_TEXT, false),
    ("run 1 trace", IDLE, 0, IDLE_TRACE, true),
    ("run 1", HALF, 0, HALF_REPORT, true),
];

// Whether the text is cut where the room ends, for every room up to its length. Where there is room for all, the call
// ends with the row's status; its board is started as the row says.
fn ends_by_room<R: Threads + Wait + Clock + Sync>(
    rt: &R,
    alloc: Global,
    row: &Row<'_>,
) -> Result<bool, Fail> {
    let (words, input, whole, text, started) = *row;
    for room in 0..=text.len() {
        let called = call_with(rt, alloc, words, input, &[], room, &FreeGate)?;
        let exit = if room < text.len() { 5 } else { whole };
        if !comes_to(&called, &(exit, &text.as_bytes()[..room], started)) {
            return Ok(false);
        }
    }
    Ok(true)
}

#[test]
fn room_for_a_prefix_of_a_text(rt: HostRuntime) -> Result<(), Fail> {
    for row in &ROOMS {
        assert!(rt; ends_by_room(&rt, rt.alloc(), row)?, "{}", row.0);
    }
    Ok(())
}
