ghost use Rattle.std.specs.Prelude.{◌≡◌, ◌<◌, ◌≤◌, IfNone, IfSome, IsSomeAnd, true};
ghost use Rattle.period_choice.specs.Choice.{HasPeriod, IsChosen, MeetsLatency, demand_at};
ghost use Rattle.reservation.specs.Cost.{cost, demand};
ghost use Rattle.tab_core.specs.declared.TheConstants.{MAX_TICK_NS, MIN_TICK_NS};
ghost use Rattle.tab_core.specs.declared.periodic.Periodic.{Periodic};
ghost use Rattle.tab_core.specs.Period.{IsPeriod};

use reservation::{cost_of, demand_of};
use tab_core::{PERIODS, Periodic, ROUND, Reservation};

/// The admissible period of least demand, and of those the largest, with its cost.
///
/// A tick has `tick_ns` nanoseconds, 500 to 2002. A period is admissible if twice the ticks that it
/// doesn't give are within the latency. The result is none exactly where no period is admissible.
///
/// Source of the latency rule: I. Shin and I. Lee, RTSS 2003.
pub fn choose(r: &Reservation, tick_ns: u32) -> Option<Periodic>
    requires at_least { MIN_TICK_NS ≤ tick_ns }
    requires at_most { tick_ns ≤ MAX_TICK_NS }
    ensures chosen { IfSome result (IsChosen r.now tick_ns) }
    ensures only { IfSome result (λ task. (other : Periodic) → IsChosen r.now tick_ns other → other ≡ task) }
    ensures none { IfNone result (¬ (HasPeriod r.now tick_ns)) }
{
    let least = cost_of(r.share_ppm, ROUND);
    let mut best: Option<Periodic> = None;
    for i in 0..PERIODS.len() {
        best = better_of(r, tick_ns, best, PERIODS[PERIODS.len() - 1 - i]);
        // from the largest on: no period takes less of a round than the share of the round itself
        if takes_just(&best, least) {
            return best;
        }
    }
    best
}

// Whether there is a budget, and it takes so many ticks of a round.
fn takes_just(best: &Option<Periodic>, ticks: u32) -> bool
    ensures { result ≡ true → IsSomeAnd best.now (λ b. demand b.cost b.period ≡ ticks) }
{
    match best {
        Some(task) => demand_of(task) == ticks,
        None => false,
    }
}

// The best budget so far, or that of this period where it meets the latency and takes less.
#[tactic(auto, using(tab_core::proofs::Periods::period_at_least))]
fn better_of(r: &Reservation, tick_ns: u32, best: Option<Periodic>, period: u32) -> Option<Periodic>
    requires listed { IsPeriod period }
    requires at_most { tick_ns ≤ MAX_TICK_NS }
    ensures late { ¬ (MeetsLatency r.now tick_ns period) → result ≡ best }
    ensures kept { IsSomeAnd best (λ b. demand b.cost b.period ≤ demand_at r.now period) → result ≡ best }
    ensures taken { MeetsLatency r.now tick_ns period
        → IfSome best (λ b. demand_at r.now period < demand b.cost b.period)
        → IsSomeAnd result (λ task. (task.period ≡ period) × (task.cost ≡ cost r.now.share_ppm period)) }
{
    let cost = cost_of(r.share_ppm, period);
    if 2 * u64::from(period - cost) * u64::from(tick_ns) > r.latency_ns {
        return best;
    }
    let task = Periodic { cost, period };
    match best {
        None => Some(task),
        Some(so_far) => {
            if demand_of(&so_far) <= demand_of(&task) {
                Some(so_far)
            } else {
                Some(task)
            }
        }
    }
}
