//! The rules of running, as plain tests of what a run shows.
use crate::pictures::{Look, NOBODY, Picture, Setting, number_of};
use crate::running::Shown;
use run_counts::CoreAccount;
use tab_core::{Periodic, ROUND, Stint};
use tests_samples::bit;

// What is broken.
#[derive(Clone, Copy, Debug, PartialEq, Eq, Drop)]
pub(crate) enum Broken {
    // the cores don't have one count for each round
    Counts,
    // a round's count leaves out an event that is due, or has one that is too early
    StaleCount,
    // counts fall from round to round
    CountFalls,
    // a stint doesn't begin where the one before ends, or the stints don't fill the run
    Hole,
    // a stint has no tick, or goes beyond its round
    Reach,
    // a stint's plan isn't that of its round
    OtherPlan,
    // what was seen falls, or is less than an earlier round's count
    SightFalls,
    // what was seen leaves out an event that is due, or has one that is too early
    StaleSight,
    // another vCPU is due, or the core idles where somebody may run
    OtherVcpu,
    // a stint goes beyond its span, its lag or its quantum
    TooLong,
    // a stint ends before its span, its lag and its quantum
    TooShort,
    // a vCPU runs on two cores at one tick
    TwoCores,
    // a capped vCPU runs at more ticks of a period than its cost
    OverCap,
    // a core's account isn't the sum of its stints
    Account,
    // there is no such number
    Number,
}

fn hold(holds: bool, broken: Broken) -> Result<(), Broken> {
    if holds { Ok(()) } else { Err(broken) }
}

// Whether the count has each event of tick at most x less the lag, and none of tick above x and the lag.
fn is_fresh(setting: &Setting, count: u32, x: u32) -> bool {
    let lag = u64::from(setting.lag);
    let now = u64::from(x);
    for (event, tick) in setting.ticks.iter().enumerate() {
        let tick = u64::from(*tick);
        let has = event < count as usize;
        if !has && tick + lag <= now {
            return false;
        }
        if has && tick > now + lag {
            return false;
        }
    }
    count as usize <= setting.ticks.len()
}

// Each round's count is fresh at its start, and they never fall.
fn judge_rounds(setting: &Setting, used: &[u32]) -> Result<(), Broken> {
    let mut before = 0;
    let mut start: u32 = 0;
    for count in used {
        hold(before <= *count, Broken::CountFalls)?;
        hold(is_fresh(setting, *count, start), Broken::StaleCount)?;
        before = *count;
        start = start.saturating_add(ROUND);
    }
    Ok(())
}

// All cores use one count in a round, which is fresh at its start and never falls.
fn judge_counts(setting: &Setting, shown: &Shown) -> Result<(), Broken> {
    let first = shown.used.first().ok_or(Broken::Counts)?;
    hold(first.len() == setting.rounds as usize, Broken::Counts)?;
    for used in &shown.used {
        hold(used == first, Broken::Counts)?;
    }
    judge_rounds(setting, first)
}

// What the stints of a core up to one of them leave to the next: the tick, what was seen, and the last
// shared pick.
#[derive(Clone, Copy)]
struct Left {
    clock: u32,
    seen: u32,
    last: Option<u32>,
}

// Whom the rules choose, and whether it is one who shares the core.
#[derive(Clone, Copy)]
struct Due {
    vcpu: u32,
    shared: bool,
}

// The least member from a number on.
fn least_from(set: u64, from: u32) -> Option<u32> {
    for vcpu in from..NOBODY {
        if set & bit(vcpu) != 0 {
            return Some(vcpu);
        }
    }
    None
}

// The cell's vCPU if it is runnable, otherwise the next in turn of those that share the core, are runnable and
// aren't away.
fn due_at(look: &Look, sharers: u64, runnable: u64, last: Option<u32>) -> Due {
    if runnable & bit(look.owner) != 0 {
        return Due {
            vcpu: look.owner,
            shared: false,
        };
    }
    let eligible = sharers & runnable & !look.away & !bit(look.owner);
    let next = match last {
        None => None,
        Some(last) => least_from(eligible, last.saturating_add(1)),
    };
    match next.or(least_from(eligible, 0)) {
        Some(vcpu) => Due { vcpu, shared: true },
        None => Due {
            vcpu: NOBODY,
            shared: false,
        },
    }
}

// The stint's ticks are alike, and it ends where they end, or with the lag or the quantum.
fn judge_end(
    setting: &Setting,
    picture: &Picture,
    core: usize,
    stint: &Stint,
    shared: bool,
) -> Result<(), Broken> {
    let from = (stint.from % ROUND) as usize;
    let ticks = stint.end.saturating_sub(stint.from);
    let end = from.saturating_add(ticks as usize);
    let look = picture.look(core, from).ok_or(Broken::Number)?;
    for place in from..end {
        hold(picture.look(core, place) == Some(look), Broken::TooLong)?;
    }
    hold(ticks <= setting.lag, Broken::TooLong)?;
    hold(!shared || ticks <= setting.quantum, Broken::TooLong)?;
    let full = ticks == setting.lag || shared && ticks == setting.quantum;
    let last = end == ROUND as usize || picture.look(core, end) != Some(look);
    hold(full || last, Broken::TooShort)
}

// The stint runs whom the rules choose as long as they say.
fn judge_choice(setting: &Setting, core: usize, left: &Left, stint: &Stint) -> Result<Due, Broken> {
    let picture = setting.picture_after(stint.used).ok_or(Broken::Number)?;
    let runnable = *setting
        .runnable
        .get(stint.seen as usize)
        .ok_or(Broken::Number)?;
    let home = *picture.homes.get(core).ok_or(Broken::Number)?;
    let look = picture
        .look(core, (stint.from % ROUND) as usize)
        .ok_or(Broken::Number)?;
    let due = due_at(&look, home & !setting.capped, runnable, left.last);
    hold(number_of(stint.ran) == due.vcpu, Broken::OtherVcpu)?;
    judge_end(setting, picture, core, stint, due.shared)?;
    Ok(due)
}

// The stint follows on what is left, in one round, by its round's count and what was seen.
fn judge_place(setting: &Setting, used: &[u32], left: &Left, stint: &Stint) -> Result<(), Broken> {
    let round = (stint.from / ROUND) as usize;
    hold(stint.from == left.clock, Broken::Hole)?;
    hold(stint.from < stint.end, Broken::Reach)?;
    hold(
        stint.end.saturating_sub(1) / ROUND == stint.from / ROUND,
        Broken::Reach,
    )?;
    hold(used.get(round) == Some(&stint.used), Broken::OtherPlan)?;
    hold(left.seen <= stint.seen, Broken::SightFalls)?;
    if round > 0 {
        let before = used.get(round - 1).ok_or(Broken::Number)?;
        hold(*before <= stint.seen, Broken::SightFalls)?;
    }
    hold(
        is_fresh(setting, stint.seen, stint.from),
        Broken::StaleSight,
    )
}

// The stint follows the rules, and its ticks are added to the account.
fn judge_stint(
    setting: &Setting,
    core: usize,
    used: &[u32],
    left: &Left,
    stint: &Stint,
    account: &mut CoreAccount,
) -> Result<Left, Broken> {
    judge_place(setting, used, left, stint)?;
    let due = judge_choice(setting, core, left, stint)?;
    add_ticks(account, &due, stint.end.saturating_sub(stint.from));
    Ok(Left {
        clock: stint.end,
        seen: stint.seen,
        last: if due.shared {
            Some(due.vcpu)
        } else {
            left.last
        },
    })
}

fn add_ticks(account: &mut CoreAccount, due: &Due, ticks: u32) {
    if due.vcpu == NOBODY {
        account.idle = account.idle.saturating_add(u64::from(ticks));
        return;
    }
    let sums = if due.shared {
        &mut account.shared
    } else {
        &mut account.slots
    };
    if let Some(sum) = sums.get_mut(due.vcpu as usize) {
        *sum = sum.saturating_add(u64::from(ticks));
    }
}

// Each of a core's stints follows the rules, they fill the run, and the account is their sum.
fn judge_core(
    setting: &Setting,
    core: usize,
    used: &[u32],
    stints: &[Stint],
    account: &CoreAccount,
) -> Result<(), Broken> {
    let mut left = Left {
        clock: 0,
        seen: 0,
        last: None,
    };
    let mut sums = CoreAccount {
        slots: [0; 256],
        shared: [0; 256],
        idle: 0,
    };
    for stint in stints {
        left = judge_stint(setting, core, used, &left, stint, &mut sums)?;
    }
    let end = u64::from(setting.rounds) * u64::from(ROUND);
    hold(u64::from(left.clock) == end, Broken::Hole)?;
    let same = sums.slots == account.slots && sums.shared == account.shared;
    hold(same && sums.idle == account.idle, Broken::Account)
}

// Marks each tick of a core's stints with whom it runs, where no other core runs it.
fn mark_core(marks: &mut [u64], stints: &[Stint]) -> Result<(), Broken> {
    for stint in stints {
        let own = bit(number_of(stint.ran));
        for tick in stint.from..stint.end {
            let mark = marks.get_mut(tick as usize).ok_or(Broken::Number)?;
            hold(*mark & own == 0, Broken::TwoCores)?;
            *mark |= own;
        }
    }
    Ok(())
}

// Whether the vCPU of the bit runs at no more ticks of each of its periods than its cost. The marks of the round say
// who runs at each of its ticks.
fn is_within(marks: &[u64], own: u64, task: &Periodic) -> bool {
    let mut ran: u32 = 0;
    let mut left = task.period;
    for mark in marks {
        if left == 0 {
            ran = 0;
            left = task.period;
        }
        left = left.saturating_sub(1);
        if *mark & own != 0 {
            ran = ran.saturating_add(1);
        }
        if ran > task.cost {
            return false;
        }
    }
    true
}

// In each round each capped vCPU that the plan has keeps to its cost.
fn judge_caps(setting: &Setting, marks: &[u64], used: &[u32]) -> Result<(), Broken> {
    for (round, count) in used.iter().enumerate() {
        let picture = setting.picture_after(*count).ok_or(Broken::Number)?;
        let from = round.saturating_mul(ROUND as usize);
        let end = from.saturating_add(ROUND as usize);
        let marks = marks.get(from..end).ok_or(Broken::Number)?;
        let mut vcpu: u32 = 0;
        for task in &picture.tasks {
            let own = setting.capped & bit(vcpu);
            if let Some(task) = task {
                hold(own == 0 || is_within(marks, own, task), Broken::OverCap)?;
            }
            vcpu = vcpu.saturating_add(1);
        }
    }
    Ok(())
}

// The rules of all cores, that no two of them run one vCPU at one tick, and that the capped ones keep to their
// costs. The marks are one for each tick.
pub(crate) fn judge(setting: &Setting, marks: &mut [u64], shown: &Shown) -> Result<(), Broken> {
    judge_counts(setting, shown)?;
    for (core, stints) in shown.stints.iter().enumerate() {
        let used = shown.used.get(core).ok_or(Broken::Counts)?;
        let account = shown.accounts.get(core).ok_or(Broken::Account)?;
        judge_core(setting, core, used, stints, account)?;
        mark_core(marks, stints)?;
    }
    let used = shown.used.first().ok_or(Broken::Counts)?;
    judge_caps(setting, marks, used)
}
