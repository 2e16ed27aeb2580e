//! What is reported of bursts, judged tick by tick.
use crate::running::Shown;
use crate::settings::{Setting, bit_of};
use burst_bound::BurstAnswer;
use script_doc::{Act, Event};
use std::alloc::Global;
use tab_core::{NoMemory, Periodic, ROUND, Stint, VcpuNo};
use tests_samples::bit;

// What is broken.
#[derive(Clone, Copy, Debug, PartialEq, Eq, Drop)]
pub(crate) enum Broken {
    // the stints of a core don't fill the run
    Hole,
    // there isn't an answer for each burst
    Count,
    // it is seen at another tick, or isn't
    Seen { tick: Option<u32> },
    // it is done at another tick, or isn't
    Done { tick: Option<u32> },
    // it has another bound, or none
    Bound { promise: Promise },
    // it has a bound, and isn't done by then
    Late,
    // there is no memory
    Memory,
}

// What becomes of a burst's bound once it is seen.
#[derive(Clone, Copy, Debug, PartialEq, Eq, Drop)]
pub(crate) enum Promise {
    // it is done by this tick
    By { bound: u32 },
    // its vCPU has no budget
    NoBudget,
    // the end of the periods is beyond the run
    Beyond,
    // a round up to it has another budget
    OtherBudget,
    // its vCPU isn't runnable after some count of events that has the burst
    Blocked,
}

// A burst: work for a vCPU that arrives with the event of a number.
#[derive(Clone, Copy, Debug)]
pub(crate) struct Burst {
    pub(crate) event: u32,
    pub(crate) vcpu: VcpuNo,
    pub(crate) work: u32,
}

// A burst, what was reported of it, and what becomes of its bound, if it is seen.
#[derive(Clone, Copy, Debug)]
pub(crate) struct Judged {
    pub(crate) burst: Burst,
    pub(crate) answer: BurstAnswer,
    pub(crate) promise: Option<Promise>,
}

// A tick of a run: how many events every core has seen, at least, and who runs.
#[derive(Clone, Copy)]
struct Moment {
    seen: u32,
    running: u64,
}

fn hold(holds: bool, broken: Broken) -> Result<(), Broken> {
    if holds { Ok(()) } else { Err(broken) }
}

// Each tick of the run.
fn moments_of(alloc: Global, setting: &Setting, shown: &Shown) -> Result<Vec<Moment>, Broken> {
    let first = Moment {
        seen: u32::MAX,
        running: 0,
    };
    let Ok(mut moments) = all_alike(alloc, first, setting.end()) else {
        return Err(Broken::Memory);
    };
    for stints in &shown.stints {
        add_core(&mut moments, stints)?;
    }
    Ok(moments)
}

fn all_alike(alloc: Global, moment: Moment, count: u32) -> Result<Vec<Moment>, NoMemory> {
    Ok(vec![in alloc; moment; count as usize]?)
}

// A core's stints follow one another, and fill the ticks.
fn add_core(moments: &mut [Moment], stints: &[Stint]) -> Result<(), Broken> {
    let mut clock = 0;
    for stint in stints {
        hold(stint.from == clock && clock < stint.end, Broken::Hole)?;
        clock = stint.end;
        for tick in stint.from..stint.end {
            let moment = moments.get_mut(tick as usize).ok_or(Broken::Hole)?;
            moment.seen = moment.seen.min(stint.seen);
            moment.running |= bit_of(stint.ran);
        }
    }
    hold(clock as usize == moments.len(), Broken::Hole)
}

// The first tick from which on each core has seen the event, if it is before the run's end. The ticks are gone over
// from there.
fn seen_of(moments: &[Moment], end: u32, event: u32) -> Option<u32> {
    let mut tick = end;
    for moment in moments.iter().rev() {
        if moment.seen <= event {
            break;
        }
        tick = tick.saturating_sub(1);
    }
    if tick < end { Some(tick) } else { None }
}

// The end of the tick by which the vCPU has run, since the burst was seen, at as many ticks as it has work.
fn done_of(moments: &[Moment], burst: &Burst, seen: u32) -> Option<u32> {
    let own = bit(burst.vcpu.index() as u32);
    let mut tick = seen;
    let mut ran: u32 = 0;
    for moment in moments.get(seen as usize..)? {
        tick = tick.saturating_add(1);
        if moment.running & own != 0 {
            ran = ran.saturating_add(1);
        }
        if ran >= burst.work {
            return Some(tick);
        }
    }
    None
}

// The end of as many whole periods as the work needs, if it is in the run. The periods begin one after the other from
// tick 0 on, and the first that counts begins after the tick.
fn end_of(task: &Periodic, work: u32, seen: u32, end: u32) -> Option<u32> {
    let mut begin: u32 = 0;
    let mut left = work;
    for _ in 0..end {
        if begin > end {
            return None;
        }
        if begin > seen {
            if left == 0 {
                return Some(begin);
            }
            left = left.saturating_sub(task.cost);
        }
        begin = begin.saturating_add(task.period);
    }
    None
}

// Each round from that of the first tick on to that before the last one gives the vCPU this budget.
fn keeps_budget(
    setting: &Setting,
    used: &[u32],
    vcpu: VcpuNo,
    task: &Periodic,
    first: u32,
    last: u32,
) -> bool {
    for round in 0..setting.rounds {
        let from = round.saturating_mul(ROUND);
        let end = from.saturating_add(ROUND);
        let same = match setting.budget_in(used, round, vcpu) {
            None => false,
            Some(other) => other.cost == task.cost && other.period == task.period,
        };
        if first < end && from < last && !same {
            return false;
        }
    }
    true
}

// The vCPU is runnable after each count of events that has the burst.
fn stays_runnable(setting: &Setting, burst: &Burst) -> bool {
    let own = bit(burst.vcpu.index() as u32);
    for (count, runnable) in setting.runnable.iter().enumerate() {
        if count > burst.event as usize && *runnable & own == 0 {
            return false;
        }
    }
    true
}

// What becomes of the bound of a burst that is seen from this tick on.
fn promise_of(setting: &Setting, used: &[u32], burst: &Burst, seen: u32) -> Promise {
    let Some(task) = setting.budget_in(used, seen / ROUND, burst.vcpu) else {
        return Promise::NoBudget;
    };
    let Some(bound) = end_of(&task, burst.work, seen, setting.end()) else {
        return Promise::Beyond;
    };
    if !keeps_budget(setting, used, burst.vcpu, &task, seen, bound) {
        return Promise::OtherBudget;
    }
    if !stays_runnable(setting, burst) {
        return Promise::Blocked;
    }
    Promise::By { bound }
}

// Whether the answer has this bound, if one is promised, and is done no later.
fn judge_bound(answer: &BurstAnswer, promise: Promise) -> Result<(), Broken> {
    let Promise::By { bound } = promise else {
        return hold(answer.bound.is_none(), Broken::Bound { promise });
    };
    hold(
        answer.bound == Some(u64::from(bound)),
        Broken::Bound { promise },
    )?;
    match answer.done {
        None => Err(Broken::Late),
        Some(done) => hold(done <= bound, Broken::Late),
    }
}

// Whether the answer is that of the burst, and what becomes of its bound.
fn judge_burst(
    setting: &Setting,
    used: &[u32],
    moments: &[Moment],
    burst: &Burst,
    answer: &BurstAnswer,
) -> Result<Option<Promise>, Broken> {
    let tick = seen_of(moments, setting.end(), burst.event);
    hold(answer.seen == tick, Broken::Seen { tick })?;
    let Some(seen) = tick else {
        hold(answer.done.is_none(), Broken::Done { tick: None })?;
        hold(answer.bound.is_none(), Broken::Late)?;
        return Ok(None);
    };
    let tick = done_of(moments, burst, seen);
    hold(answer.done == tick, Broken::Done { tick })?;
    let promise = promise_of(setting, used, burst, seen);
    judge_bound(answer, promise)?;
    Ok(Some(promise))
}

// The answers of all bursts among the events, in their order.
pub(crate) fn judge(
    alloc: Global,
    setting: &Setting,
    events: &[Event],
    shown: &Shown,
) -> Result<Vec<Judged>, Broken> {
    let moments = moments_of(alloc, setting, shown)?;
    let mut judged = Vec::new(alloc);
    let mut number: u32 = 0;
    for event in events {
        if let Act::Burst { vcpu, work } = &event.act {
            let burst = Burst {
                event: number,
                vcpu: *vcpu,
                work: *work,
            };
            let answer = *shown.answers.get(judged.len()).ok_or(Broken::Count)?;
            let promise = judge_burst(setting, &shown.used, &moments, &burst, &answer)?;
            let one = Judged {
                burst,
                answer,
                promise,
            };
            if judged.push(one).is_err() {
                return Err(Broken::Memory);
            }
        }
        number = number.saturating_add(1);
    }
    hold(judged.len() == shown.answers.len(), Broken::Count)?;
    Ok(judged)
}
