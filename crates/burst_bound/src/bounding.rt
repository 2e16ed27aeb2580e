ghost use Rattle.std.specs.Prelude.{◌≡◌, ◌*◌, ◌<◌, ◌≤◌, ℕ, MatchOption, false, length, slice_get, true};
ghost use Rattle.tab_core.specs.declared.TheConstants.{MAX_ROUNDS, ROUND};
ghost use Rattle.table_form.specs.Promises.Offered.{task_by};
ghost use Rattle.burst_bound.specs.Answers.{IsOneIfAny};
ghost use Rattle.burst_bound.specs.Bursts.{IsBudget, IsBurstBound, end_of_periods};
ghost use Rattle.burst_bound.specs.Inside.Bounding.{IsEndSince, KeepsBudget, LosesBudget, StaysReady, StopsReady};

use tab_core::{Periodic, ROUND, VcpuNo};
use table_form::Course;

// The bound of a burst that is seen from this tick on, if there is one. `used` has the count of each round.
pub(crate) fn bound_since(
    course: &Course,
    rounds: u32,
    used: &[u32],
    event: u32,
    vcpu: VcpuNo,
    work: u32,
    seen: u32,
) -> Option<u64>
    requires event { event < length course.now.ticks }
    requires in_run { seen < rounds * ROUND }
    requires few { rounds ≤ MAX_ROUNDS }
    requires each_round { length used.now ≡ rounds }
    requires counts { (r count : ℕ) → slice_get used.now r ≡ Some count → count ≤ length course.now.ticks }
    ensures { IsOneIfAny (IsBurstBound course.now rounds used.now event vcpu work seen) result }
{
    let found = end_since(course, rounds, used, vcpu, work, seen)?;
    let end = found.end.div_ceil(ROUND);
    if keeps_budget(course, used, vcpu, &found.task, seen / ROUND, end)
        && stays_ready(course, event, vcpu)
    {
        return Some(u64::from(found.end));
    }
    None
}

// A budget, and the end of as many whole periods of it as some work needs.
#[derive(Clone, Copy)]
pub(crate) struct BudgetEnd {
    pub(crate) task: Periodic,
    pub(crate) end: u32,
}

// The vCPU's budget in the round of the tick, and the end of as many whole periods as the work needs from the
// first one on that begins after the tick. None where there is no budget, or where that end is beyond the run.
pub(crate) fn end_since(
    course: &Course,
    rounds: u32,
    used: &[u32],
    vcpu: VcpuNo,
    work: u32,
    seen: u32,
) -> Option<BudgetEnd>
    requires in_run { seen < rounds * ROUND }
    requires few { rounds ≤ MAX_ROUNDS }
    requires each_round { length used.now ≡ rounds }
    requires counts { (r count : ℕ) → slice_get used.now r ≡ Some count → count ≤ length course.now.ticks }
    ensures { MatchOption result
        ((event bound : ℕ) → ¬ (IsBurstBound course.now rounds used.now event vcpu work seen bound))
        (IsEndSince course.now rounds used.now vcpu work seen) }
{
    let task = budget_after(course, used[(seen / ROUND) as usize], vcpu)?;
    let end = end_of_periods(seen, work, &task);
    if end > u64::from(rounds) * u64::from(ROUND) {
        return None;
    }
    Some(BudgetEnd {
        task,
        end: end as u32,
    })
}

// The vCPU's budget in the plan after so many events, if it has one.
pub(crate) fn budget_after(course: &Course, count: u32, vcpu: VcpuNo) -> Option<Periodic>
    requires { count ≤ length course.now.ticks }
    ensures { result ≡ task_by course.now (Some count) vcpu }
{
    match course.plan_after(count).tasks.items().get(vcpu.index()) {
        Some(task) => *task,
        None => None,
    }
}

// The end of as many whole periods as the work needs, from the first one on that begins after the tick.
pub(crate) fn end_of_periods(seen: u32, work: u32, task: &Periodic) -> u64
    ensures { result ≡ end_of_periods seen work task.now.cost task.now.period }
{
    let begun = u64::from(seen / task.period) + 1;
    (begun + u64::from(work.div_ceil(task.cost))) * u64::from(task.period)
}

// Each of these rounds gives the vCPU this budget.
fn keeps_budget(
    course: &Course,
    used: &[u32],
    vcpu: VcpuNo,
    task: &Periodic,
    first: u32,
    end: u32,
) -> bool
    requires in_run { end ≤ length used.now }
    requires counts { (r count : ℕ) → slice_get used.now r ≡ Some count → count ≤ length course.now.ticks }
    ensures yes { result ≡ true → KeepsBudget course.now used.now vcpu task.now first end }
    ensures no { result ≡ false → LosesBudget course.now used.now vcpu task.now first end }
{
    for round in first..end {
        if !is_budget(course, used[round as usize], vcpu, task) {
            return false;
        }
    }
    true
}

// The plan after so many events gives the vCPU this budget.
pub(crate) fn is_budget(course: &Course, count: u32, vcpu: VcpuNo, task: &Periodic) -> bool
    requires { count ≤ length course.now.ticks }
    ensures yes { result ≡ true → IsBudget (task_by course.now (Some count) vcpu) task.now.cost task.now.period }
    ensures no { result ≡ false
        → ¬ (IsBudget (task_by course.now (Some count) vcpu) task.now.cost task.now.period) }
{
    match budget_after(course, count, vcpu) {
        Some(other) => other.cost == task.cost && other.period == task.period,
        None => false,
    }
}

// The vCPU is runnable after each count of first events that has the event.
fn stays_ready(course: &Course, event: u32, vcpu: VcpuNo) -> bool
    requires { event < length course.now.ticks }
    ensures yes { result ≡ true → StaysReady course.now event vcpu }
    ensures no { result ≡ false → StopsReady course.now event vcpu }
{
    let events = course.count();
    for count in event + 1..events + 1 {
        if !course.runnable_after(count).has(vcpu) {
            return false;
        }
    }
    true
}
