ghost use Rattle.std.specs.Prelude.{ℕ, ◌+◌, ◌*◌, ◌≤◌, max};
ghost use Rattle.tab_core.specs.Budgets.{slack_of};
ghost use Rattle.tab_core.specs.Period.{IsPeriod};
ghost use Rattle.tab_core.specs.declared.periodic.Periodic.{Periodic};
ghost use Rattle.tab_core.specs.declared.reservation.Reservation.{Reservation};
ghost use Rattle.period_choice.specs.Choice.{IsChosen};
ghost use Rattle.period_choice.specs.Periods.{IsLongDivisor};

/// A wait of no more ticks than the budgets of two reservations leave out of a period each lies
/// within the greater of their latencies, in ticks of so many nanoseconds.
pub fn a_gap_is_within_the_latency()
    ensures { (r t : Reservation) (tick_ns : ℕ) (first last : Periodic) (ticks : ℕ)
        → IsChosen r tick_ns first → IsChosen t tick_ns last
        → ticks ≤ slack_of first + slack_of last → tick_ns * ticks ≤ max r.latency_ns t.latency_ns }
{}

/// The periods are the divisors of a round's 102,600 ticks that are at least 100 ticks, and all of them.
pub fn the_periods_are_the_long_divisors()
    ensures listed { (ticks : ℕ) → IsPeriod ticks → IsLongDivisor ticks }
    ensures all { (ticks : ℕ) → IsLongDivisor ticks → IsPeriod ticks }
{}
