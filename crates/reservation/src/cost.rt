ghost use Rattle.std.specs.Prelude.{◌≡◌, ◌≤◌};
ghost use Rattle.reservation.specs.Cost.{IsLeastCost, cost, demand};
ghost use Rattle.tab_core.specs.declared.TheConstants.{ROUND, WHOLE_PPM};

use tab_core::{Periodic, ROUND, WHOLE_PPM};

/// The least number of ticks that gives the share in each period.
///
/// The share is in parts per million and at most a whole one. The period is in ticks.
pub fn cost_of(share_ppm: u32, period: u32) -> u32
    requires { share_ppm ≤ WHOLE_PPM }
    ensures value { result ≡ cost share_ppm period }
    ensures least { IsLeastCost share_ppm period result }
    ensures within { result ≤ period }
    ensures some { 1 ≤ share_ppm → 1 ≤ period → 1 ≤ result }
{
    (u64::from(share_ppm) * u64::from(period)).div_ceil(u64::from(WHOLE_PPM)) as u32
}

/// The ticks of a round that the budget takes: its cost, once for each of the round's periods.
pub fn demand_of(task: &Periodic) -> u32
    ensures value { result ≡ demand task.now.cost task.now.period }
    ensures some { 1 ≤ result }
    ensures within { result ≤ ROUND }
{
    task.cost * (ROUND / task.period)
}
