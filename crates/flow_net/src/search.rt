ghost use Rattle.std.specs.Prelude.{ℕ, ◌≡◌, ◌+◌, ◌-◌, ◌*◌, ◌<◌, ◌≤◌, IfNone, IfSome, IsSome, IsTrue, false, length, slice_index};
ghost use Rattle.flow_net.specs.Load.{job, jobs};
ghost use Rattle.flow_net.specs.Rows.{row_at, ticks_at, with_ticks};
ghost use Rattle.flow_net.specs.Inside.Demanded.{IsFlowOf, load};
ghost use Rattle.flow_net.specs.Flows.{all_lacks};
ghost use Rattle.flow_net.specs.Counts.{admitted, edges, job_count, jobs_due};
ghost use Rattle.flow_net.specs.Inside.Reach.{IsJobwise, scanned};
ghost use Rattle.flow_net.specs.Inside.Reaching.{HasPlaces, IsRootedOf, IsSearchOf, link_at, reached_of};

use crate::demands::Demands;
use crate::flow::{Flow, give, shift, take_room};
use crate::reach::{Reach, begin, interval_at, link_of, read_back, read_job};
use crate::ticks::{Ticks, read, row_len};
use std::sync::ledger::Ledger;
use tab_core::Steps;

// The first job of a vCPU that still needs ticks.
fn first_in<L: Ledger>(lacks: &Vec<Ticks>, v: usize, steps: &mut Steps<L>) -> Option<usize>
    requires { v < length lacks.now.items }
    ensures within { IfSome result (λ k. k < length (row_at lacks.now.items v)) }
    ensures lacks { IfSome result (λ k. 0 < ticks_at lacks.now.items v k) }
    ensures none { IfNone result ((k : ℕ) → k < length (row_at lacks.now.items v)
        → ticks_at lacks.now.items v k ≡ 0) }
    ensures cost { steps.new ≤ steps.old + length (row_at lacks.now.items v) }
{
    for k in 0..row_len(lacks, v) {
        steps.tell();
        if read(lacks, v, k) > 0 {
            return Some(k);
        }
    }
    None
}

// The first job of a vCPU that still needs ticks, if the vCPU is admitted.
fn first_of<L: Ledger>(
    demands: &Demands,
    flow: &Flow,
    v: usize,
    steps: &mut Steps<L>,
) -> Option<usize>
    requires net { IsFlowOf demands.now flow.now (load demands.now).count }
    requires vcpu { v < (load demands.now).width }
    ensures job { IfSome result (λ k. k < jobs (load demands.now) v) }
    ensures lacks { IfSome result (λ k. 0 < ticks_at flow.now.lacks.items v k) }
    ensures none { IfNone result ((k : ℕ) → k < jobs (load demands.now) v
        → ticks_at flow.now.lacks.items v k ≡ 0) }
    ensures cost { steps.new ≤ steps.old + jobs_due (load demands.now) v }
{
    if demands.costs[v] == 0 {
        return None;
    }
    first_in(&flow.lacks, v, steps)
}

// The first job that still needs ticks, by vCPU and number.
fn first_lacking<L: Ledger>(
    demands: &Demands,
    flow: &Flow,
    steps: &mut Steps<L>,
) -> Option<(usize, usize)>
    requires net { IsFlowOf demands.now flow.now (load demands.now).count }
    ensures vcpu { IfSome result (λ at. at.0 < (load demands.now).width) }
    ensures job { IfSome result (λ at. at.1 < jobs (load demands.now) at.0) }
    ensures lacks { IfSome result (λ at. 0 < ticks_at flow.now.lacks.items at.0 at.1) }
    ensures none { IfNone result ((v k : ℕ) → v < (load demands.now).width → k < jobs (load demands.now) v
        → ticks_at flow.now.lacks.items v k ≡ 0) }
    ensures cost { steps.new ≤ steps.old + job_count (load demands.now) }
{
    for v in 0..demands.costs.len() {
        if let Some(k) = first_of(demands, flow, v, steps) {
            return Some((v, k));
        }
    }
    None
}

// The first link to an interval with room. There is one, as the root's job still needs ticks.
fn find_room<L: Ledger>(
    demands: &Demands,
    flow: &Flow,
    reach: &mut Reach,
    steps: &mut Steps<L>,
) -> Option<usize>
    requires net { IsFlowOf demands.now flow.now (load demands.now).count }
    requires places { HasPlaces (load demands.now) reach.old }
    requires search { IsSearchOf demands.now flow.now reach.old }
    requires jobwise { IsJobwise (load demands.now) (reached_of reach.old) }
    requires rooted { IsRootedOf demands.now flow.now reach.old }
    ensures found { IsSome result }
    ensures link { IfSome result (λ x. x < reach.new.tail) }
    ensures room { IfSome result (λ x. 0 < slice_index flow.now.room.items
        (link_at reach.new.queue.items x).interval) }
    ensures places { HasPlaces (load demands.now) reach.new }
    ensures search { IsSearchOf demands.now flow.now reach.new }
    ensures cost { steps.new + scanned (load demands.now) (reached_of reach.old)
        ≤ steps.old + scanned (load demands.now) (reached_of reach.new)
        + (load demands.now).count * (admitted (load demands.now) + 1) }
    ensures root_vcpu { reach.new.root_vcpu ≡ reach.old.root_vcpu }
    ensures root_job { reach.new.root_job ≡ reach.old.root_job }
{
    let mut head = 0;
    while head < reach.tail {
        steps.tell();
        let i = interval_at(&reach.queue, head);
        if flow.room[i] > 0 {
            return Some(head);
        }
        read_back(demands, flow, reach, head, steps);
        head += 1;
    }
    None
}

// Moves one tick along the links from an interval with room back to the root's job.
fn move_along(demands: &Demands, flow: &mut Flow, reach: &Reach, end: usize)
    requires net { IsFlowOf demands.now flow.old (load demands.now).count }
    requires places { HasPlaces (load demands.now) reach.now }
    requires search { IsSearchOf demands.now flow.old reach.now }
    requires root { reach.now.root_vcpu < (load demands.now).width }
    requires job { reach.now.root_job < jobs (load demands.now) reach.now.root_vcpu }
    requires link { end < reach.now.tail }
    requires room { 0 < slice_index flow.old.room.items (link_at reach.now.queue.items end).interval }
    requires lacks { 0 < ticks_at flow.old.lacks.items reach.now.root_vcpu reach.now.root_job }
    ensures net { IsFlowOf demands.now flow.new (load demands.now).count }
    ensures lacks { flow.new.lacks.items
        ≡ with_ticks flow.old.lacks.items reach.now.root_vcpu reach.now.root_job
        (ticks_at flow.old.lacks.items reach.now.root_vcpu reach.now.root_job - 1) }
{
    let mut x = end;
    let mut link = link_of(&reach.queue, x);
    take_room(demands, flow, link.interval);
    while link.back > 0 {
        x = link.back - 1;
        let before = link_of(&reach.queue, x);
        shift(demands, flow, link.vcpu, link.interval, before.interval);
        link = before;
    }
    give(
        demands,
        flow,
        reach.root_vcpu,
        reach.root_job,
        link.interval,
    );
}

// Raises the flow by one tick, if a job still needs ticks.
pub(crate) fn search_once<L: Ledger>(
    demands: &Demands,
    flow: &mut Flow,
    reach: &mut Reach,
    steps: &mut Steps<L>,
) -> bool
    requires net { IsFlowOf demands.now flow.old (load demands.now).count }
    requires places { HasPlaces (load demands.now) reach.old }
    ensures net { IsFlowOf demands.now flow.new (load demands.now).count }
    ensures places { HasPlaces (load demands.now) reach.new }
    ensures raised { IsTrue result
        → all_lacks (load demands.now) flow.new.lacks.items + 1
        ≡ all_lacks (load demands.now) flow.old.lacks.items }
    ensures done { result ≡ false → all_lacks (load demands.now) flow.old.lacks.items ≡ 0 }
    ensures kept { result ≡ false → flow.new ≡ flow.old }
    ensures cost { steps.new ≤ steps.old + 2 * edges (load demands.now) }
    ensures last { result ≡ false → steps.new ≤ steps.old + job_count (load demands.now) }
{
    let (u, k) = match first_lacking(demands, flow, steps) {
        None => return false,
        Some(at) => at,
    };
    begin(demands, flow, reach, u, k);
    read_job(demands, flow, reach, u, k, 0, steps);
    match find_room(demands, flow, reach, steps) {
        None => false,
        Some(end) => {
            move_along(demands, flow, reach, end);
            true
        }
    }
}
