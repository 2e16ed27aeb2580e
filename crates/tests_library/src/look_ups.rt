ghost use Rattle.std.specs.Prelude.{◌≡◌, ◌<◌};

use host_doc::read_host;
use plan_make::plan;
use slice_table::SliceTable;
use std::alloc::Global;
use std::marker::Brand;
use std::sync::ledger::{Blank, Ledger};
use std::test::Fail;
use tab_core::{CoreNo, ROUND, Steps, VcpuNo, VcpuSet};
use table_form::Plan;

// Whether the set has these of the first four vCPUs, by number, and no other of them.
fn has_only(set: &VcpuSet, expected: &[u32]) -> bool {
    for vcpu in 0..4 {
        if set.has(VcpuNo(vcpu)) != expected.contains(&vcpu) {
            return false;
        }
    }
    true
}

fn number_of(vcpu: Option<VcpuNo>) -> Option<u32> {
    match vcpu {
        None => None,
        Some(vcpu) => Some(vcpu.0),
    }
}

// A core, a tick of the round, and there the owner, the vCPUs away, the sharers and the span's end.
type Shown<'a> = (usize, u32, Option<u32>, &'a [u32], &'a [u32], u32);

// Whether the tables of the plan's cores show this.
fn all_show<L: Ledger>(
    alloc: Global,
    plan: &Plan,
    expected: &[Shown],
    blank: Blank,
) -> Result<bool, Fail>
    requires name { blank.name ≡ L.name }
    requires parts { (blank.parts ≡ L.parts) × (0 < L.parts) }
{
    let mut steps = Steps::<L>::new(blank);
    let cores = plan.tables.rows.items().len();
    for (core, tick, owner, away, sharers, end) in expected {
        if *core >= cores || *tick >= ROUND {
            return Ok(false);
        }
        let table = SliceTable::build(alloc, plan, CoreNo(*core as u32))?;
        let spot = table.look_up(*tick, &mut steps);
        let span = table.span_at(*tick, &mut steps);
        if (number_of(spot.owner), spot.end) != (*owner, *end)
            || (number_of(span.owner), span.end) != (*owner, *end)
            || !has_only(&spot.away, away)
            || !has_only(span.sharers, sharers)
        {
            return Ok(false);
        }
    }
    Ok(true)
}

// A core, and of its table how many spans there are, the ticks of a slice, how many slices there are, and of some slices
// the number and that of the span that is kept for it.
type Cut<'a> = (usize, u32, u32, usize, &'a [(usize, u32)]);

// Whether the tables of the plan's cores are cut so.
fn all_are_cut(alloc: Global, plan: &Plan, expected: &[Cut]) -> Result<bool, Fail> {
    let cores = plan.tables.rows.items().len();
    for (core, spans, length, count, kept) in expected {
        if *core >= cores {
            return Ok(false);
        }
        let table = SliceTable::build(alloc, plan, CoreNo(*core as u32))?;
        let slices = table.slices();
        if (table.spans(), table.slice_length(), slices.len()) != (*spans, *length, *count) {
            return Ok(false);
        }
        for (slice, number) in *kept {
            if *slice >= slices.len() || slices.number(*slice) != *number {
                return Ok(false);
            }
        }
    }
    Ok(true)
}

// Two cores, and three vCPUs of 60 percent, of which the third is split.
const SPLIT_HOST: &[u8] = b"cores = 2
vcpu = [
    { name = \"a\", share_ppm = 600000, latency_ns = 100000000 },
    { name = \"b\", share_ppm = 600000, latency_ns = 100000000 },
    { name = \"c\", share_ppm = 600000, latency_ns = 100000000 },
]
";

// Core 1 has five slices of 20,520 ticks. Core 0 has three of 41,040, of which the last ends beyond the round.
const SPLIT_CUTS: [Cut<'static>; 2] = [
    (1, 4, 20_520, 5, &[(0, 0), (1, 0), (2, 1), (3, 2), (4, 3)]),
    (0, 2, 41_040, 3, &[(0, 0), (1, 1), (2, 1)]),
];

const SPLIT: [Shown<'static>; 9] = [
    (1, 0, Some(1), &[2], &[], 41_040),
    (1, 41_039, Some(1), &[2], &[], 41_040),
    (1, 41_040, Some(1), &[], &[2], 61_560),
    (1, 61_559, Some(1), &[], &[2], 61_560),
    (1, 61_560, Some(2), &[], &[1], 82_080),
    (1, 82_080, None, &[], &[1, 2], 102_600),
    (1, 102_599, None, &[], &[1, 2], 102_600),
    (0, 41_039, Some(2), &[], &[0], 41_040),
    (0, 41_040, Some(0), &[], &[], 102_600),
];

const USUAL_HOST: &[u8] = b"cores = 1
vcpu = [
    { name = \"web\", share_ppm = 250000, latency_ns = 20000000 },
    { name = \"db\", share_ppm = 500000, latency_ns = 40000000 },
    { name = \"batch\", share_ppm = 100000, latency_ns = 100000000 },
]
";

// There are 36 slices of 2,850 ticks. Slice 10, from 28,500 to 31,350, meets two spans, and the one from 25,650 to 30,780 is
// kept for it.
const USUAL_CUTS: [Cut<'static>; 1] = [(0, 20, 2850, 36, &[(8, 4), (9, 5), (10, 5), (11, 6)])];

const MEETING: [Shown<'static>; 6] = [
    (0, 25_649, Some(0), &[], &[1, 2], 25_650),
    (0, 28_500, Some(2), &[], &[0, 1], 30_780),
    (0, 30_779, Some(2), &[], &[0, 1], 30_780),
    (0, 30_780, None, &[], &[0, 1, 2], 34_200),
    (0, 31_349, None, &[], &[0, 1, 2], 34_200),
    (0, 102_599, None, &[], &[0, 1, 2], 102_600),
];

// A core without slots has one slice.
const IDLE_CUTS: [Cut<'static>; 1] = [(0, 1, 102_600, 1, &[(0, 0)])];

const IDLE: [Shown<'static>; 1] = [(0, 102_599, None, &[], &[], 102_600)];

#[test]
fn look_ups(rt: HostRuntime) -> Result<(), Fail> {
    for (text, cuts, expected) in [
        (SPLIT_HOST, &SPLIT_CUTS[..], &SPLIT[..]),
        (USUAL_HOST, &USUAL_CUTS[..], &MEETING[..]),
        (b"cores = 1", &IDLE_CUTS[..], &IDLE[..]),
    ] {
        let host = read_host(rt.alloc(), text)?;
        let made = plan(rt.alloc(), &host)?;
        assert!(rt; all_are_cut(rt.alloc(), &made, cuts)?);
        assert!(rt; all_show::<Brand>(rt.alloc(), &made, expected, Blank::new(1))?);
    }
    Ok(())
}
