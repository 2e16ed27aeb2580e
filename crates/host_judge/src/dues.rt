ghost use Rattle.std.specs.Prelude.{◌≡◌, ◌⊎◌, ◌<◌, ◌≤◌, IfOk, MatchOption, length};
ghost use Rattle.tab_core.specs.declared.TheConstants.{MAX_TICK_NS};
ghost use Rattle.host_judge.specs.Owed.{AreOwedByShares, IsHidden, IsOwedByShare, IsPlanOwed, IsShareOwed, due, whole_periods};

use crate::owed::{Owed, PlanOwed, ShareOwed};
use reservation::cost_of;
use std::alloc::Global;
use tab_core::{NoMemory, PERIODS, Reservation, Vcpu, WHOLE_PPM};

/// What each vCPU of a host is owed where no plan is known, with ticks of so many ns: `owed_by_share` of its reservation, and
/// nothing where it has none.
pub fn owed_by_shares(
    alloc: Global,
    vcpus: &[Vcpu],
    tick_ns: u32,
) -> Result<Vec<Option<Owed>>, NoMemory>
    requires { tick_ns ≤ MAX_TICK_NS }
    ensures many { IfOk result (λ owed. length owed.items ≡ length vcpus.now) }
    ensures each { IfOk result (λ owed. AreOwedByShares vcpus.now tick_ns owed.items) }
{
    let mut owed = Vec::with_capacity(alloc, vcpus.len())?;
    for number in 0..vcpus.len() {
        let vcpu = &vcpus[number];
        owed.push(owed_of(&vcpu.reservation, tick_ns))?;
    }
    Ok(owed)
}

fn owed_of(reservation: &Option<Reservation>, tick_ns: u32) -> Option<Owed>
    requires { tick_ns ≤ MAX_TICK_NS }
    ensures { IsOwedByShare reservation.now tick_ns result }
{
    match reservation {
        Some(r) => Some(Owed::Share(owed_by_share(r, tick_ns))),
        None => None,
    }
}

/// What a plan owes that gives so many ticks of each period, with ticks of so many ns. None where the period is none or
/// is shorter.
pub fn owed_by_plan(cost: u32, period: u32, tick_ns: u32) -> Option<PlanOwed>
    requires { 0 < tick_ns }
    ensures { MatchOption result ((period ≡ 0) ⊎ (period < cost)) (IsPlanOwed cost period tick_ns) }
{
    if period == 0 {
        return None;
    }
    if period < cost {
        return None;
    }
    Some(PlanOwed {
        cost_ns: u64::from(cost) * u64::from(tick_ns),
        period_ns: u64::from(period) * u64::from(tick_ns),
    })
}

/// What a reservation is owed where no plan is known, with ticks of so many ns: its share, less what the two ends of a
/// window may hide by the largest period that is admissible for it. Where none is, they hide nothing.
pub fn owed_by_share(r: &Reservation, tick_ns: u32) -> ShareOwed
    requires { tick_ns ≤ MAX_TICK_NS }
    ensures { IsShareOwed r.now tick_ns result }
{
    ShareOwed {
        share_ppm: r.share_ppm,
        hidden_ns: hidden_by(r, tick_ns),
    }
}

// Twice what the largest admissible period doesn't give, in ns.
fn hidden_by(r: &Reservation, tick_ns: u32) -> u64
    requires { tick_ns ≤ MAX_TICK_NS }
    ensures { IsHidden r.now tick_ns result }
{
    for i in 0..PERIODS.len() {
        let period = PERIODS[PERIODS.len() - 1 - i];
        let cost = cost_of(r.share_ppm, period);
        let ns = 2 * u64::from(period - cost) * u64::from(tick_ns);
        if ns <= r.latency_ns {
            return ns;
        }
    }
    0
}

// The ns that are owed of a window of so many.
pub(crate) fn due_of(owed: &Owed, window_ns: u64) -> u64
    ensures value { result ≡ due owed.now window_ns }
    ensures within { result ≤ window_ns }
{
    match owed {
        Owed::Share(by) => {
            let counted = u128::from(window_ns.saturating_sub(by.hidden_ns));
            (u128::from(by.share_ppm) * counted).div_ceil(u128::from(WHOLE_PPM)) as u64
        }
        Owed::Plan(by) => by.cost_ns * whole_in(window_ns, by.period_ns),
    }
}

// How many whole periods a window holds wherever it begins.
fn whole_in(window_ns: u64, period_ns: u64) -> u64
    requires { 0 < period_ns }
    ensures { result ≡ whole_periods window_ns period_ns }
{
    window_ns.saturating_sub(period_ns - 1) / period_ns
}
