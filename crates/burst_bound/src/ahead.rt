ghost use Rattle.std.specs.Prelude.{◌≡◌, ◌*◌, ◌<◌, ◌≤◌, ℕ, IfOk, Some, false, length, replicate, slice_get, slice_index, true, vec_capacity, if◌then◌else◌};
ghost use Rattle.tab_core.specs.VcpuSets.{has_vcpu};
ghost use Rattle.tab_core.specs.declared.TheConstants.{MAX_ROUNDS, MAX_VCPUS, ROUND};
ghost use Rattle.burst_bound.specs.Answers.{IsOneIfAny};
ghost use Rattle.burst_bound.specs.Bursts.{IsBurstBound};
ghost use Rattle.burst_bound.specs.Inside.Bounding.{AreReady, AreSince, IsSince, KeepsBudget, LosesBudget};

use crate::bounding::{end_since, is_budget};
use std::alloc::Global;
use tab_core::{MAX_VCPUS, NoMemory, Periodic, ROUND, VcpuNo, VcpuSet};
use table_form::Course;

// For each round the first one from which on the rounds up to it have its plan, and for each vCPU the least count
// of first events from which on it is runnable.
#[derive(Drop)]
pub(crate) struct Ahead {
    pub(crate) since: Vec<u32>,
    pub(crate) ready: Vec<u32>,
}

impl Ahead {
    // Nothing yet, with room for so many rounds.
    pub(crate) fn room(alloc: Global, rounds: u32) -> Result<Ahead, NoMemory>
        ensures since { IfOk result (λ ahead. rounds ≤ vec_capacity ahead.since) }
        ensures ready { IfOk result (λ ahead. length ahead.ready.items ≡ MAX_VCPUS) }
    {
        Ok(Ahead {
            since: Vec::with_capacity(alloc, rounds as usize)?,
            ready: vec![in alloc; 0; MAX_VCPUS as usize]?,
        })
    }

    // What the course and the used counts of its rounds say. Takes no memory.
    pub(crate) fn fill(&mut self, course: &Course, used: &[u32])
        requires since { length used.now ≤ vec_capacity self.old.since }
        requires ready { length self.old.ready.items ≡ MAX_VCPUS }
        requires few { length used.now ≤ MAX_ROUNDS }
        requires counts { (r count : ℕ) → slice_get used.now r ≡ Some count → count ≤ length course.now.ticks }
        ensures since { AreSince course.now used.now self.new.since.items }
        ensures ready { AreReady course.now self.new.ready.items }
        ensures since_room { vec_capacity self.new.since ≡ vec_capacity self.old.since }
        ensures ready_size { length self.new.ready.items ≡ MAX_VCPUS }
    {
        fill_since(course, used, &mut self.since);
        fill_ready(course, &mut self.ready);
    }
}

// An event that brings so many ticks of work for the vCPU.
#[derive(Clone, Copy)]
pub(crate) struct Burst {
    pub(crate) event: u32,
    pub(crate) vcpu: VcpuNo,
    pub(crate) work: u32,
}

// The bound of the burst, which is seen from this tick on, as `bound_since` has it, out of `since` and `ready`.
pub(crate) fn bound_ahead(
    course: &Course,
    rounds: u32,
    used: &[u32],
    since: &[u32],
    ready: &[u32],
    burst: Burst,
    seen: u32,
) -> Option<u64>
    requires event { burst.event < length course.now.ticks }
    requires in_run { seen < rounds * ROUND }
    requires few { rounds ≤ MAX_ROUNDS }
    requires each_round { length used.now ≡ rounds }
    requires counts { (r count : ℕ) → slice_get used.now r ≡ Some count → count ≤ length course.now.ticks }
    requires since { AreSince course.now used.now since.now }
    requires ready { AreReady course.now ready.now }
    ensures { IsOneIfAny (IsBurstBound course.now rounds used.now burst.event burst.vcpu burst.work seen) result }
{
    let Burst { event, vcpu, work } = burst;
    let found = end_since(course, rounds, used, vcpu, work, seen)?;
    let end = found.end.div_ceil(ROUND);
    if u64::from(ready[vcpu.index()]) > u64::from(event) + 1 {
        return None;
    }
    if keeps_budget(course, used, since, vcpu, &found.task, seen / ROUND, end) {
        return Some(u64::from(found.end));
    }
    None
}

// Each of these rounds gives the vCPU this budget. Of rounds that have one plan the last one is looked at.
fn keeps_budget(
    course: &Course,
    used: &[u32],
    since: &[u32],
    vcpu: VcpuNo,
    task: &Periodic,
    first: u32,
    end: u32,
) -> bool
    requires in_run { end ≤ length used.now }
    requires counts { (r count : ℕ) → slice_get used.now r ≡ Some count → count ≤ length course.now.ticks }
    requires since { AreSince course.now used.now since.now }
    ensures yes { result ≡ true → KeepsBudget course.now used.now vcpu task.now first end }
    ensures no { result ≡ false → LosesBudget course.now used.now vcpu task.now first end }
{
    let mut next = end;
    while first < next {
        let round = next - 1;
        if !is_budget(course, used[round as usize], vcpu, task) {
            return false;
        }
        next = since[round as usize];
    }
    true
}

// For each round the first one from which on the rounds up to it have its plan.
fn fill_since(course: &Course, used: &[u32], since: &mut Vec<u32>)
    requires room { length used.now ≤ vec_capacity since.old }
    requires few { length used.now ≤ MAX_ROUNDS }
    requires counts { (r count : ℕ) → slice_get used.now r ≡ Some count → count ≤ length course.now.ticks }
    ensures since { AreSince course.now used.now since.new.items }
    ensures room { vec_capacity since.new ≡ vec_capacity since.old }
{
    since.clear();
    for round in 0..used.len() {
        let first = first_alike(course, used, since, round);
        since.push_reserved(first);
    }
}

// The first round from which on the rounds up to this one have its plan, by those of the rounds before.
fn first_alike(course: &Course, used: &[u32], since: &[u32], round: usize) -> u32
    requires within { round < length used.now }
    requires few { length used.now ≤ MAX_ROUNDS }
    requires size { length since.now ≡ round }
    requires counts { (r count : ℕ) → slice_get used.now r ≡ Some count → count ≤ length course.now.ticks }
    requires since { (r : ℕ) → r < round → IsSince course.now used.now r (slice_index since.now r) }
    ensures { IsSince course.now used.now round result }
{
    if round == 0 {
        return 0;
    }
    if course.plan_number(used[round - 1]) != course.plan_number(used[round]) {
        return round as u32;
    }
    since[round - 1]
}

// For each vCPU the least count of first events from which on it is runnable. The counts are gone over once for
// all of them, from the last one down.
fn fill_ready(course: &Course, ready: &mut [u32])
    requires size { length ready.old ≡ MAX_VCPUS }
    ensures size { length ready.new ≡ MAX_VCPUS }
    ensures ready { AreReady course.now ready.new }
{
    let mut first = course.count();
    // those that are runnable after each count from `first` on
    let mut steady = course.runnable_after(first).copy();
    give_all(first + 1, ready);
    while first > 0 {
        let gone = steady.without(course.runnable_after(first - 1));
        give(&gone, first, ready);
        steady = steady.without(&gone);
        first -= 1;
    }
    give(&steady, 0, ready);
}

// This count for each member of the set.
fn give(set: &VcpuSet, count: u32, ready: &mut [u32])
    requires size { length ready.old ≡ MAX_VCPUS }
    ensures size { length ready.new ≡ MAX_VCPUS }
    ensures given { (v : ℕ) → v < MAX_VCPUS → slice_index ready.new v
        ≡ (if has_vcpu set.now v then count else slice_index ready.old v) }
{
    let mut from = 0;
    while let Some(vcpu) = set.first_common(set, from) {
        let place = vcpu.index();
        ready[place] = count;
        from = place as u32 + 1;
    }
}

// This count for each vCPU.
fn give_all(count: u32, ready: &mut [u32])
    ensures { ready.new ≡ replicate (length ready.old) count }
{
    ready.fill(count);
}
