//! The rules of a run whose plans were made late, as plain tests of what it shows. Each plan is looked up in the course
//! that planning anew gives.
use run_counts::CoreAccount;
use tab_core::ROUND;
use table_form::{Course, Plan};

// What is broken.
#[derive(Clone, Copy, Debug, Drop)]
pub(crate) enum Broken {
    // two cores use different counts
    Counts,
    // counts fall
    Falls,
    // a count leaves out an event that is due, or has one that is too early
    Stale,
    // the ticks of a core's account don't fill the run, or a vCPU ran longer in slots than the plans give it
    Account,
    // what was made of a change isn't what planning anew makes of it
    OtherPlan,
}

pub(crate) fn hold(holds: bool, broken: Broken) -> Result<(), Broken> {
    if holds { Ok(()) } else { Err(broken) }
}

// The count has each event of tick at most x less the lag, and none of tick above x and the lag.
fn judge_fresh(course: &Course, count: u32, x: u32) -> Result<(), Broken> {
    let lag = u64::from(course.lag());
    let now = u64::from(x);
    for event in 0..course.count() {
        let tick = u64::from(course.tick_of(event));
        hold(event < count || tick + lag > now, Broken::Stale)?;
        hold(event >= count || tick <= now + lag, Broken::Stale)?;
    }
    hold(count <= course.count(), Broken::Stale)
}

// A core's counts never fall, and each is fresh at its round's start.
pub(crate) fn judge_rounds(course: &Course, used: &[u32]) -> Result<(), Broken> {
    let mut before = 0;
    let mut start: u32 = 0;
    for count in used {
        hold(before <= *count, Broken::Falls)?;
        judge_fresh(course, *count, start)?;
        before = *count;
        start = start.saturating_add(ROUND);
    }
    Ok(())
}

// In how many ticks of a round the vCPU owns the core's slots, by the plan after so many events.
fn slots_of(course: &Course, core: u32, count: u32, vcpu: usize) -> u64 {
    if count > course.count() {
        return 0;
    }
    let rows = course.plan_after(count).tables.rows.items();
    let Some(row) = rows.get(core as usize) else {
        return 0;
    };
    let mut sum: u64 = 0;
    let mut from = 0;
    for segment in row.segments() {
        if let Some(owner) = segment.owner.vcpu() {
            if owner.index() == vcpu {
                sum = sum.saturating_add(u64::from(segment.end.saturating_sub(from)));
            }
        }
        from = segment.end;
    }
    sum
}

// The ticks of a core's account fill its rounds, and no vCPU ran longer in slots than it has.
pub(crate) fn judge_account(
    course: &Course,
    core: u32,
    used: &[u32],
    account: &CoreAccount,
) -> Result<(), Broken> {
    let mut sum = account.idle;
    for (vcpu, slots) in account.slots.iter().enumerate() {
        let mut most: u64 = 0;
        for count in used {
            most = most.saturating_add(slots_of(course, core, *count, vcpu));
        }
        hold(*slots <= most, Broken::Account)?;
        sum = sum.saturating_add(*slots);
    }
    for shared in &account.shared {
        sum = sum.saturating_add(*shared);
    }
    let rounds = used.len() as u64;
    hold(
        sum == rounds.saturating_mul(u64::from(ROUND)),
        Broken::Account,
    )
}

// Whether two plans have the same tasks, homes and rows.
pub(crate) fn is_same_plan(plan: &Plan, other: &Plan) -> bool {
    let rows = plan.tables.rows.items();
    let others = other.tables.rows.items();
    for (row, other) in rows.iter().zip(others.iter()) {
        if row.segments() != other.segments() {
            return false;
        }
    }
    rows.len() == others.len()
        && plan.tasks.items() == other.tasks.items()
        && plan.tables.homes.items() == other.tables.homes.items()
}
