ghost use Rattle.std.specs.Prelude.{◌≡◌, ◌<◌, ◌≤◌, ◌*◌, ◌+◌, ◌^◌, IsTrue};
ghost use Rattle.view_schedulers.specs.Budgets.{budget_on, fits_period, has_budget, is_task, is_within, part_of, period_on, periods_of, rounded_cost, rounded_period, unit_of, weight_of};
ghost use Rattle.view_schedulers.specs.declared.TheConstants.{PARTS};

use crate::PARTS;
use crate::scheduler::Scheduler;
use tab_core::ROUND;
use view_doc::Task;

// Whether the task is one of a plan: it costs a tick at least, its period, or less, and that is a round or less.
pub(crate) fn is_task(task: &Task) -> bool
    ensures { result ≡ is_task task.now }
{
    1 <= task.cost && task.cost <= task.period && task.period <= ROUND
}

// The task's period in the scheduler's unit, rounded down, with a tick of so many nanoseconds.
fn rounded_period(scheduler: Scheduler, tick_ns: u32, task: &Task) -> u64
    ensures value { result ≡ rounded_period scheduler tick_ns task.now }
    ensures small { unit_of scheduler * result < 2 ^ 64 }
{
    u64::from(task.period) * u64::from(tick_ns) / scheduler.unit_ns()
}

// The task's cost in the scheduler's unit, rounded up.
fn rounded_cost(scheduler: Scheduler, tick_ns: u32, task: &Task) -> u64
    ensures value { result ≡ rounded_cost scheduler tick_ns task.now }
    ensures small { unit_of scheduler * result < 2 ^ 64 + unit_of scheduler }
{
    (u64::from(task.cost) * u64::from(tick_ns)).div_ceil(scheduler.unit_ns())
}

// How many of a plan's periods are one there.
#[tactic(auto, using(crate::proofs::PeriodLemmas::few_periods, crate::proofs::PeriodLemmas::few_costs))]
fn periods_of(scheduler: Scheduler, cost: u64) -> u64
    ensures value { result ≡ periods_of scheduler cost }
    ensures few { result ≤ unit_of scheduler }
    ensures near { result * cost < cost + unit_of scheduler }
{
    match scheduler {
        Scheduler::Rtds | Scheduler::Deadline | Scheduler::FullDeadline => 1,
        Scheduler::Quota if cost == 0 => 1,
        Scheduler::Quota => 1000u64.div_ceil(cost),
    }
}

// The task's period there, in the scheduler's unit, with a tick of so many nanoseconds.
pub(crate) fn period_in(scheduler: Scheduler, tick_ns: u32, task: &Task) -> u64
    ensures { result ≡ period_on scheduler tick_ns task.now }
{
    let cost = rounded_cost(scheduler, tick_ns, task);
    periods_of(scheduler, cost) * rounded_period(scheduler, tick_ns, task)
}

// Its budget there.
pub(crate) fn budget_in(scheduler: Scheduler, tick_ns: u32, task: &Task) -> u64
    ensures { result ≡ budget_on scheduler tick_ns task.now }
{
    let cost = rounded_cost(scheduler, tick_ns, task);
    periods_of(scheduler, cost) * cost
}

// Whether the scheduler takes the period and the budget.
pub(crate) fn is_within(scheduler: Scheduler, period: u64, budget: u64) -> bool
    ensures value { result ≡ is_within scheduler period budget }
    ensures some { IsTrue result → 1 ≤ period }
    ensures small { IsTrue result → period < 2 ^ 32 }
{
    scheduler.least_period() <= period
        && period <= scheduler.most_period()
        && scheduler.least_budget() <= budget
}

// Whether it does, and the budget is no longer than the period.
pub(crate) fn fits_period(scheduler: Scheduler, period: u64, budget: u64) -> bool
    ensures value { result ≡ fits_period scheduler period budget }
    ensures some { IsTrue result → 1 ≤ period }
    ensures small { IsTrue result → period < 2 ^ 32 }
    ensures within { IsTrue result → budget ≤ period }
{
    is_within(scheduler, period, budget) && budget <= period
}

// The budget in each period as parts of a core, rounded up.
pub(crate) fn part_of(period: u64, budget: u64) -> u64
    requires some { 1 ≤ period }
    requires small { period < 2 ^ 32 }
    requires within { budget ≤ period }
    ensures value { result ≡ part_of period budget }
    ensures whole { result ≤ PARTS }
{
    (budget * PARTS).div_ceil(period)
}

// The task's part of a core in ten-thousandths, rounded up.
pub(crate) fn weight_of(task: &Task) -> u64
    ensures { result ≡ weight_of task.now }
{
    if task.period == 0 {
        return 1;
    }
    (u64::from(task.cost) * 10_000).div_ceil(u64::from(task.period))
}
