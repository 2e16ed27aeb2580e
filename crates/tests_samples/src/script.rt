use crate::mix::{Edits, Kind, Mix};
use crate::sample::Case;
use rand_core::SeedableRng;
use rand_core::utils::NextWord;
use rand_xoshiro::SplitMix64;
use std::alloc::Global;
use tab_core::{NoMemory, ROUND};

// The text of a script for the case. Its events are at random ticks, the last ones maybe all at the run's last tick.
pub(crate) fn script_of(alloc: Global, case: &Case, mix: &Mix<'_>) -> Result<String, NoMemory> {
    let mut words = SplitMix64::from_seed(case.seed.to_le_bytes());
    let end = u64::from(case.rounds) * u64::from(ROUND);
    let step = 2 * end / u64::from(case.events.max(1));
    let vcpus = u64::from(case.vcpus);
    let mut tick: u64 = 0;
    let mut text = String::new(alloc);
    for event in 0..case.events {
        let line = match mix.kind_of(event) {
            Kind::Flag => flag_line(alloc, &mut words, tick, vcpus)?,
            Kind::Burst => burst_line(alloc, &mut words, tick, vcpus)?,
            Kind::Edit => edit_line(alloc, &mut words, case, &mix.edits, tick)?,
            Kind::Split => split_line(alloc, case, tick)?,
        };
        text.push_str(&line)?;
        tick = tick
            .saturating_add(number_below(&mut words, step))
            .min(end.saturating_sub(1));
    }
    Ok(text)
}

// A number below the bound, or 0 where that is 0.
fn number_below(words: &mut SplitMix64, bound: u64) -> u64 {
    if bound == 0 {
        0
    } else {
        words.next_word() % bound
    }
}

// One vCPU wakes or blocks.
fn flag_line(
    alloc: Global,
    words: &mut SplitMix64,
    tick: u64,
    vcpus: u64,
) -> Result<String, NoMemory> {
    let vcpu = number_below(words, vcpus);
    let act = if number_below(words, 2) == 0 {
        "wake"
    } else {
        "block"
    };
    format!(in alloc; "{tick} {act} v{vcpu}\n")
}

// Work arrives for one vCPU: mostly so little that it can be done in some periods.
fn burst_line(
    alloc: Global,
    words: &mut SplitMix64,
    tick: u64,
    vcpus: u64,
) -> Result<String, NoMemory> {
    let vcpu = number_below(words, vcpus);
    let most = match number_below(words, 8) {
        0 => 1_026_000_000,
        1 | 2 => 102_600,
        3 | 4 | 5 => 20_000,
        _ => 3000,
    };
    let work = number_below(words, most).saturating_add(1);
    format!(in alloc; "{tick} burst v{vcpu} {work}\n")
}

// One vCPU leaves, unless nobody does, and another one gets a reservation.
fn edit_line(
    alloc: Global,
    words: &mut SplitMix64,
    case: &Case,
    edits: &Edits,
    tick: u64,
) -> Result<String, NoMemory> {
    let first = number_below(words, u64::from(case.vcpus));
    let other = number_below(words, u64::from(case.vcpus));
    let (share, ticks) = share_and_latency(words, edits);
    let latency = u64::from(case.tick_ns).saturating_mul(ticks);
    if edits.alone && number_below(words, 2) == 0 {
        return format!(in alloc; "{tick} change set v{other} {share} {latency}\n");
    }
    format!(in alloc; "{tick} change leave v{first} set v{other} {share} {latency}\n")
}

// A share in ppm of a core, and a latency in ticks.
fn share_and_latency(words: &mut SplitMix64, edits: &Edits) -> (u64, u64) {
    if edits.short_slots && number_below(words, 2) == 0 {
        return (100_000, 180);
    }
    let percent = number_below(words, edits.most_percent).saturating_add(1);
    (percent.saturating_mul(10_000), edits.latency)
}

// The first vCPUs, one more than there are cores, get so much that one of them has to be split, and the others leave.
fn split_line(alloc: Global, case: &Case, tick: u64) -> Result<String, NoMemory> {
    let cores = u64::from(case.cores);
    let share = 1_000_000u64.saturating_mul(cores) / cores.saturating_add(1);
    let share = share.saturating_sub(50_000);
    let latency = u64::from(case.tick_ns).saturating_mul(u64::from(ROUND));
    let mut line = format!(in alloc; "{tick} change")?;
    for vcpu in 0..u64::from(case.vcpus) {
        let edit = if vcpu <= cores {
            format!(in alloc; " set v{vcpu} {share} {latency}")?
        } else {
            format!(in alloc; " leave v{vcpu}")?
        };
        line.push_str(&edit)?;
    }
    line.push_str("\n")?;
    Ok(line)
}
