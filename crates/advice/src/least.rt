ghost use Rattle.std.specs.Prelude.{◌+◌, ◌-◌, ◌<◌, ◌≤◌, IfSome, MatchBool, MatchOption};
ghost use Rattle.period_choice.specs.Choice.{HasPeriod};
ghost use Rattle.tab_core.specs.declared.TheConstants.{MAX_TICK_NS, MIN_TICK_NS};
ghost use Rattle.advice.specs.Least.{IsLeastLatency, IsLeastShare};
ghost use Rattle.advice.specs.Inside.Between.{IsLatencyBetween, IsShareBetween};

use period_choice::choose;
use tab_core::{Reservation, WHOLE_PPM};

/// The least latency, in nanoseconds, with which the reservation's share has a period, or none where the
/// reservation has one.
#[tactic(auto, using(crate::proofs::LeastLemmas::latency_found))]
pub fn least_latency(r: &Reservation, tick_ns: u32) -> Option<u64>
    requires at_least { MIN_TICK_NS ≤ tick_ns }
    requires at_most { tick_ns ≤ MAX_TICK_NS }
    ensures found { MatchOption result (HasPeriod r.now tick_ns) (IsLeastLatency r.now tick_ns) }
    ensures lacks { IfSome result (λ _. ¬ (HasPeriod r.now tick_ns)) }
{
    if has_period(r, tick_ns) {
        return None;
    }
    // With a period of 100 ticks no wait is longer than 200.
    let mut low = r.latency_ns;
    let mut high = 200 * u64::from(tick_ns);
    while high > low + 1 {
        let nearer = nearer_latency(r, tick_ns, low, high);
        low = nearer.0;
        high = nearer.1;
    }
    Some(high)
}

// Two latencies nearer to one another, of which still the greater alone has a period.
fn nearer_latency(r: &Reservation, tick_ns: u32, low: u64, high: u64) -> (u64, u64)
    requires at_least { MIN_TICK_NS ≤ tick_ns }
    requires at_most { tick_ns ≤ MAX_TICK_NS }
    requires between { IsLatencyBetween r.now tick_ns low high }
    requires apart { low + 1 < high }
    ensures between { IsLatencyBetween r.now tick_ns result.0 result.1 }
    ensures nearer { result.1 - result.0 < high - low }
{
    let middle = low + (high - low) / 2;
    let tried = Reservation {
        share_ppm: r.share_ppm,
        latency_ns: middle,
    };
    if has_period(&tried, tick_ns) {
        (low, middle)
    } else {
        (middle, high)
    }
}

/// The least share, in parts per million, which has a period with the reservation's latency, or none where
/// the reservation has one.
#[tactic(auto, using(crate::proofs::LeastLemmas::share_found))]
pub fn least_share(r: &Reservation, tick_ns: u32) -> Option<u32>
    requires at_least { MIN_TICK_NS ≤ tick_ns }
    requires at_most { tick_ns ≤ MAX_TICK_NS }
    ensures found { MatchOption result (HasPeriod r.now tick_ns) (IsLeastShare r.now tick_ns) }
    ensures lacks { IfSome result (λ _. ¬ (HasPeriod r.now tick_ns)) }
{
    if has_period(r, tick_ns) {
        return None;
    }
    let mut low = r.share_ppm;
    let mut high = WHOLE_PPM;
    while high > low + 1 {
        let nearer = nearer_share(r, tick_ns, low, high);
        low = nearer.0;
        high = nearer.1;
    }
    Some(high)
}

// Two shares nearer to one another, of which still the greater alone has a period.
fn nearer_share(r: &Reservation, tick_ns: u32, low: u32, high: u32) -> (u32, u32)
    requires at_least { MIN_TICK_NS ≤ tick_ns }
    requires at_most { tick_ns ≤ MAX_TICK_NS }
    requires between { IsShareBetween r.now tick_ns low high }
    requires apart { low + 1 < high }
    ensures between { IsShareBetween r.now tick_ns result.0 result.1 }
    ensures nearer { result.1 - result.0 < high - low }
{
    let middle = low + (high - low) / 2;
    let tried = Reservation {
        share_ppm: middle,
        latency_ns: r.latency_ns,
    };
    if has_period(&tried, tick_ns) {
        (low, middle)
    } else {
        (middle, high)
    }
}

fn has_period(r: &Reservation, tick_ns: u32) -> bool
    requires at_least { MIN_TICK_NS ≤ tick_ns }
    requires at_most { tick_ns ≤ MAX_TICK_NS }
    ensures { MatchBool result (HasPeriod r.now tick_ns) (¬ (HasPeriod r.now tick_ns)) }
{
    match choose(r, tick_ns) {
        Some(_) => true,
        None => false,
    }
}
