//! An order of steps in which a run that is shown can have come about.
use crate::pictures::Setting;
use crate::running::Shown;
use crate::step_log::StepLog;
use script_doc::Step;
use std::alloc::Global;
use tab_core::{CoreNo, MAX_CORES, NoMemory, ROUND, Stint};

// How far the order has come with one core: how many of its stints are in it, the tick up to which they go,
// how many rounds it has entered, and what it has seen since its last stint.
#[derive(Clone, Copy)]
struct Walk {
    stints: usize,
    clock: u32,
    rounds: usize,
    sight: Option<u32>,
}

// How far it has come with all.
#[derive(Drop)]
struct Order {
    walks: Vec<Walk>,
    // the events that are posted, and the rounds that some core has entered
    posted: u32,
    entered: usize,
    steps: StepLog,
}

// Whether the clock of each core but this one is at least the tick less the lag.
fn are_near(walks: &[Walk], lag: u32, skip: Option<usize>, tick: u32) -> bool {
    for (core, walk) in walks.iter().enumerate() {
        if skip != Some(core) && u64::from(walk.clock) + u64::from(lag) < u64::from(tick) {
            return false;
        }
    }
    true
}

// Whether the core has to see the posted count now: its next stint shows it, or the core may be the one that
// gives it to the round.
fn has_to_see(order: &Order, walk: &Walk, stint: &Stint, count: u32) -> bool {
    let round = (stint.from / ROUND) as usize;
    let gives = order.entered == round && count == order.posted && order.posted < stint.seen;
    walk.sight != Some(order.posted) && (stint.seen == order.posted || gives)
}

// Whether the core, which hasn't entered its round, may do so with what it has seen: it takes the round's
// count or gives it.
fn may_enter(order: &Order, walk: &Walk, round: usize, count: u32) -> bool {
    match walk.sight {
        None => false,
        Some(seen) => round < order.entered || seen == count,
    }
}

// The steps of a core that may be next, up to the end of this stint. The answer is whether there is one.
fn take_steps(
    setting: &Setting,
    order: &mut Order,
    core: CoreNo,
    walk: &mut Walk,
    stint: &Stint,
    count: u32,
) -> Result<bool, NoMemory> {
    let round = (stint.from / ROUND) as usize;
    let mut moved = false;
    if has_to_see(order, walk, stint, count) {
        order.steps.push(Step::See(core))?;
        walk.sight = Some(order.posted);
        moved = true;
    }
    if walk.rounds == round && may_enter(order, walk, round, count) {
        order.steps.push(Step::Decide(core))?;
        walk.rounds = walk.rounds.saturating_add(1);
        order.entered = order.entered.max(walk.rounds);
        moved = true;
    }
    let ready = walk.rounds > round && walk.sight == Some(stint.seen);
    if ready && are_near(&order.walks, setting.lag, Some(core.index()), stint.end) {
        order.steps.push(Step::Run(core))?;
        walk.stints = walk.stints.saturating_add(1);
        walk.clock = stint.end;
        walk.sight = None;
        moved = true;
    }
    Ok(moved)
}

// The steps of a core that may be next. The answer is whether there is one.
fn step_core(
    setting: &Setting,
    order: &mut Order,
    core: CoreNo,
    used: &[u32],
    stints: &[Stint],
) -> Result<bool, NoMemory> {
    let Some(walk) = order.walks.get(core.index()) else {
        return Ok(false);
    };
    let mut walk = *walk;
    let Some(stint) = stints.get(walk.stints) else {
        return Ok(false);
    };
    let Some(count) = used.get((stint.from / ROUND) as usize) else {
        return Ok(false);
    };
    let moved = take_steps(setting, order, core, &mut walk, stint, *count)?;
    if let Some(place) = order.walks.get_mut(core.index()) {
        *place = walk;
    }
    Ok(moved)
}

// Posts the next event, if no core's clock is too low for it.
fn step_controller(setting: &Setting, order: &mut Order) -> Result<bool, NoMemory> {
    let Some(tick) = setting.ticks.get(order.posted as usize) else {
        return Ok(false);
    };
    if !are_near(&order.walks, setting.lag, None, *tick) {
        return Ok(false);
    }
    order.steps.push(Step::Post)?;
    order.posted = order.posted.saturating_add(1);
    Ok(true)
}

// One turn of all cores. The answer is whether one of them got on.
fn step_cores(setting: &Setting, order: &mut Order, shown: &Shown) -> Result<bool, NoMemory> {
    let mut moved = false;
    for core in 0..MAX_CORES {
        let used = shown.used.get(core as usize);
        let stints = shown.stints.get(core as usize);
        let (Some(used), Some(stints)) = (used, stints) else {
            break;
        };
        moved |= step_core(setting, order, CoreNo(core), used, stints)?;
    }
    Ok(moved)
}

// The steps by which a run that is shown can have come about. An event is posted only once no core gets on
// without it: a core that has run further holds nobody up, but no core can see the count before again.
pub(crate) fn order_of(
    alloc: Global,
    setting: &Setting,
    cores: u32,
    shown: &Shown,
) -> Result<StepLog, NoMemory> {
    let mut walks = Vec::new(alloc);
    for _ in &shown.stints {
        walks.push(Walk {
            stints: 0,
            clock: 0,
            rounds: 0,
            sight: None,
        })?;
    }
    let mut order = Order {
        walks,
        posted: 0,
        entered: 0,
        steps: StepLog::new(alloc, cores),
    };
    for _ in 0..100_000_000u32 {
        if !step_cores(setting, &mut order, shown)? && !step_controller(setting, &mut order)? {
            return Ok(order.steps);
        }
    }
    Ok(order.steps)
}
