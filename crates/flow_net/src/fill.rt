ghost use Rattle.std.specs.Prelude.{◌≡◌, ◌+◌, ◌*◌, ◌<◌, ◌≤◌, length};
ghost use Rattle.flow_net.specs.Load.{job};
ghost use Rattle.flow_net.specs.Flows.{all_lacks};
ghost use Rattle.flow_net.specs.Inside.Demanded.{IsFlowOf, load};
ghost use Rattle.flow_net.specs.Inside.Filling.{AreVcpus, listed_at};
ghost use Rattle.flow_net.specs.Counts.{admitted, is_due};

use crate::demands::Demands;
use crate::flow::{Flow, give, take_room};
use crate::ticks::{read, row_of};
use std::alloc::Global;
use std::sync::ledger::Ledger;
use tab_core::{NoMemory, Steps};

// How many classes of urgency there are. The last one is of those that get nothing.
const NOT_YET: usize = 64;

// Gives a tick of an interval to a vCPU, if its job still needs one and there is room.
fn hand_out(demands: &Demands, flow: &mut Flow, i: usize, v: usize)
    requires net { IsFlowOf demands.now flow.old (load demands.now).count }
    requires interval { i < (load demands.now).count }
    requires vcpu { v < (load demands.now).width }
    ensures net { IsFlowOf demands.now flow.new (load demands.now).count }
    ensures lacks { all_lacks (load demands.now) flow.new.lacks.items
        ≤ all_lacks (load demands.now) flow.old.lacks.items }
{
    let k = demands.job(v, i);
    let lack = read(&flow.lacks, v, k);
    let ticks = read(&flow.rows, i, v);
    let length = demands.length(i);
    let room = flow.room[i];
    if lack == 0 || ticks >= length || room == 0 {
        return;
    }
    take_room(demands, flow, i);
    give(demands, flow, v, k, i);
}

// What is kept of a vCPU from interval to interval: where its job ends, what that job still needs,
// and how late it is against the fluid schedule, times its period, and above that by one period.
#[derive(Clone, Copy)]
struct Watch {
    end: u32,
    lack: u32,
    owed: u32,
}

// A vCPU that wants a tick of an interval, and how urgently.
#[derive(Clone, Copy)]
struct Wanting {
    class: usize,
    vcpu: usize,
}

// An interval, with its first tick and its length.
#[derive(Clone, Copy)]
struct Interval {
    number: usize,
    mark: u32,
    length: u32,
}

// What is kept of a vCPU at an interval, where its next job may begin.
fn watch_at(demands: &Demands, flow: &Flow, at: Interval, v: usize, watch: Watch) -> Watch
    requires net { IsFlowOf demands.now flow.now (load demands.now).count }
    requires interval { at.number < (load demands.now).count }
    requires vcpu { v < (load demands.now).width }
{
    if at.mark != watch.end {
        return watch;
    }
    let period = demands.periods[v];
    let job = demands.job(v, at.number);
    Watch {
        end: at.mark.wrapping_add(period),
        lack: read(&flow.lacks, v, job),
        owed: period,
    }
}

// How urgently a vCPU wants a tick of an interval beyond the opening flow: the ticks until the fluid
// schedule has given it the next one, or none where it isn't late against that.
fn urgency<L: Ledger>(
    demands: &Demands,
    flow: &Flow,
    at: Interval,
    v: usize,
    ticks: u32,
    watches: &mut Vec<Watch>,
    steps: &mut Steps<L>,
) -> usize
    requires net { IsFlowOf demands.now flow.now (load demands.now).count }
    requires interval { at.number < (load demands.now).count }
    requires vcpu { v < (load demands.now).width }
    requires watches { length watches.old.items ≡ (load demands.now).width }
    ensures small { result ≤ 64 }
    ensures watches { length watches.new.items ≡ (load demands.now).width }
    ensures cost { steps.new ≤ steps.old + 2 * is_due (load demands.now) v }
{
    let cost = demands.costs[v];
    if cost == 0 {
        return NOT_YET;
    }
    steps.tell();
    steps.tell();
    let period = demands.periods[v];
    let watch = watch_at(demands, flow, at, v, watches[v]);
    let share = cost
        .wrapping_mul(at.length)
        .wrapping_sub(period.wrapping_mul(ticks));
    let owed = watch.owed.wrapping_add(share);
    watches[v] = Watch { owed, ..watch };
    if owed <= period || watch.lack == 0 || ticks >= at.length {
        return NOT_YET;
    }
    let wait = period.wrapping_add(period).saturating_sub(owed) / cost;
    (wait as usize).min(NOT_YET - 1)
}

// Lists the vCPUs that want a tick of an interval, and counts how many are of each class.
fn rate_all<L: Ledger>(
    demands: &Demands,
    flow: &Flow,
    i: usize,
    watches: &mut Vec<Watch>,
    wanting: &mut Vec<Wanting>,
    counts: &mut [u32; 65],
    steps: &mut Steps<L>,
) -> usize
    requires net { IsFlowOf demands.now flow.now (load demands.now).count }
    requires interval { i < (load demands.now).count }
    requires watches { length watches.old.items ≡ (load demands.now).width }
    requires wanting { length wanting.old.items ≡ (load demands.now).width }
    ensures watches { length watches.new.items ≡ (load demands.now).width }
    ensures wanting { length wanting.new.items ≡ (load demands.now).width }
    ensures most { result ≤ (load demands.now).width }
    ensures listed { AreVcpus (load demands.now).width wanting.new.items result }
    ensures cost { steps.new ≤ steps.old + 2 * admitted (load demands.now) }
{
    let at = Interval {
        number: i,
        mark: demands.marks[i],
        length: demands.length(i),
    };
    let row = row_of(&flow.rows, i);
    let mut tail = 0;
    for v in 0..demands.costs.len() {
        let class = urgency(demands, flow, at, v, row[v], watches, steps);
        wanting[tail] = Wanting { class, vcpu: v };
        tail += usize::from(class < NOT_YET);
        counts[class] = counts[class].wrapping_add(1);
    }
    tail
}

// Gives a tick of an interval to a vCPU that was chosen.
fn hand_to(
    demands: &Demands,
    flow: &mut Flow,
    i: usize,
    v: usize,
    chosen: bool,
    watches: &mut Vec<Watch>,
)
    requires net { IsFlowOf demands.now flow.old (load demands.now).count }
    requires interval { i < (load demands.now).count }
    requires vcpu { v < (load demands.now).width }
    requires watches { length watches.old.items ≡ (load demands.now).width }
    ensures net { IsFlowOf demands.now flow.new (load demands.now).count }
    ensures lacks { all_lacks (load demands.now) flow.new.lacks.items
        ≤ all_lacks (load demands.now) flow.old.lacks.items }
    ensures watches { length watches.new.items ≡ (load demands.now).width }
{
    if !chosen {
        return;
    }
    hand_out(demands, flow, i, v);
    let watch = watches[v];
    watches[v] = Watch {
        end: watch.end,
        lack: watch.lack.saturating_sub(1),
        owed: watch.owed.wrapping_sub(demands.periods[v]),
    };
}

// How many of the first classes there is room for, and the room that is left then.
fn whole_classes(counts: &[u32; 65], room: u32) -> (usize, u32) {
    let mut left = room;
    for class in 0..NOT_YET {
        if counts[class] > left {
            return (class, left);
        }
        left -= counts[class];
    }
    (NOT_YET, left)
}

// The vCPU at a place of the list.
fn wanting_at(wanting: &Vec<Wanting>, n: usize) -> Wanting
    requires { n < length wanting.now.items }
    ensures { result ≡ listed_at wanting.now.items n }
{
    wanting[n]
}

// Hands the room of an interval to the most urgent vCPUs: all of the first classes, and of the next
// one as many as there is room for.
fn hand_all(
    demands: &Demands,
    flow: &mut Flow,
    i: usize,
    wanting: &Vec<Wanting>,
    tail: usize,
    counts: &[u32; 65],
    watches: &mut Vec<Watch>,
)
    requires net { IsFlowOf demands.now flow.old (load demands.now).count }
    requires interval { i < (load demands.now).count }
    requires tail { tail ≤ length wanting.now.items }
    requires listed { AreVcpus (load demands.now).width wanting.now.items tail }
    requires watches { length watches.old.items ≡ (load demands.now).width }
    ensures net { IsFlowOf demands.now flow.new (load demands.now).count }
    ensures lacks { all_lacks (load demands.now) flow.new.lacks.items
        ≤ all_lacks (load demands.now) flow.old.lacks.items }
    ensures watches { length watches.new.items ≡ (load demands.now).width }
{
    let (whole, mut left) = whole_classes(counts, flow.room[i]);
    for n in 0..tail {
        let next = wanting_at(wanting, n);
        let some_left = next.class == whole && left > 0;
        hand_to(
            demands,
            flow,
            i,
            next.vcpu,
            next.class < whole || some_left,
            watches,
        );
        left = left.saturating_sub(u32::from(some_left));
    }
}

// Hands out the room of each interval, in order of time, to the jobs that the fluid schedule would
// give their next tick first. This saturates nearly all jobs.
pub(crate) fn fill<L: Ledger>(
    alloc: Global,
    demands: &Demands,
    flow: &mut Flow,
    steps: &mut Steps<L>,
) -> Result<(), NoMemory>
    requires net { IsFlowOf demands.now flow.old (load demands.now).count }
    ensures net { IsFlowOf demands.now flow.new (load demands.now).count }
    ensures lacks { all_lacks (load demands.now) flow.new.lacks.items
        ≤ all_lacks (load demands.now) flow.old.lacks.items }
    ensures cost { steps.new ≤ steps.old + (load demands.now).count * (2 * admitted (load demands.now) + 1) }
{
    let width = demands.costs.len();
    let mut watches = vec![in alloc; Watch {
        end: 0,
        lack: 0,
        owed: 0
    }; width]?;
    let mut wanting = vec![in alloc; Wanting { class: 0, vcpu: 0 }; width]?;
    for i in 0..demands.marks.len() - 1 {
        steps.tell();
        let mut counts = [0; 65];
        let tail = rate_all(
            demands,
            flow,
            i,
            &mut watches,
            &mut wanting,
            &mut counts,
            steps,
        );
        hand_all(demands, flow, i, &wanting, tail, &counts, &mut watches);
    }
    Ok(())
}
