ghost use Rattle.std.specs.Prelude.{ℕ, ◌≡◌, ◌+◌, ◌<◌, false, length, slice_index_or};
ghost use Rattle.flow_net.specs.Load.{job, jobs};
ghost use Rattle.flow_net.specs.Rows.{ticks_at, with_ticks};
ghost use Rattle.flow_net.specs.Inside.Demanded.{IsFlowOf, load};
ghost use Rattle.flow_net.specs.Counts.{admitted, is_due};
ghost use Rattle.flow_net.specs.Inside.Reach.{IsJobwise, IsMore, ReadsMore, scanned};
ghost use Rattle.flow_net.specs.Inside.Reaching.{CanReachOf, HasPlaces, IsSearchOf, link_at, reached_of};

use crate::demands::Demands;
use crate::flow::Flow;
use crate::ticks::{Ticks, clear_rows, raise_at, read};
use std::sync::ledger::Ledger;
use tab_core::Steps;

// An interval that was reached: a tick of this vCPU may move there, from the interval of the link
// before number `back`, or as one that its job still needs where `back` is 0.
#[derive(Clone, Copy)]
pub(crate) struct Link {
    pub(crate) interval: usize,
    pub(crate) vcpu: usize,
    pub(crate) back: usize,
}

// What a search from a job that still needs ticks has reached: the intervals, how often each edge
// from a job to an interval was read, and the links in the order in which they were found.
#[derive(Drop)]
pub(crate) struct Reach {
    pub(crate) near: Vec<bool>,
    pub(crate) scans: Vec<Ticks>,
    pub(crate) queue: Vec<Link>,
    pub(crate) tail: usize,
    pub(crate) root_vcpu: usize,
    pub(crate) root_job: usize,
}

// Whether an interval was reached.
fn is_near(near: &Vec<bool>, j: usize) -> bool
    requires { j < length near.now.items }
    ensures { result ≡ slice_index_or near.now.items j false }
{
    near[j]
}

// A link.
pub(crate) fn link_of(queue: &Vec<Link>, x: usize) -> Link
    requires { x < length queue.now.items }
    ensures { result ≡ link_at queue.now.items x }
{
    queue[x]
}

// The interval of a link.
pub(crate) fn interval_at(queue: &Vec<Link>, x: usize) -> usize
    requires { x < length queue.now.items }
    ensures { result ≡ (link_at queue.now.items x).interval }
{
    queue[x].interval
}

// Reads the edge from a vCPU's job to an interval, and reaches the interval where it has room for
// the vCPU.
pub(crate) fn read_edge(
    demands: &Demands,
    flow: &Flow,
    reach: &mut Reach,
    u: usize,
    j: usize,
    back: usize,
)
    requires net { IsFlowOf demands.now flow.now (load demands.now).count }
    requires places { HasPlaces (load demands.now) reach.old }
    requires search { IsSearchOf demands.now flow.now reach.old }
    requires can { CanReachOf demands.now flow.now reach.old u (job (load demands.now) u j) back }
    requires interval { j < (load demands.now).count }
    requires unread { ticks_at reach.old.scans.items j u ≡ 0 }
    ensures places { HasPlaces (load demands.now) reach.new }
    ensures search { IsSearchOf demands.now flow.now reach.new }
    ensures can { CanReachOf demands.now flow.now reach.new u (job (load demands.now) u j) back }
    ensures more { IsMore (reached_of reach.old) (reached_of reach.new) }
    ensures scans { reach.new.scans.items
        ≡ with_ticks reach.old.scans.items j u (ticks_at reach.old.scans.items j u + 1) }
    ensures root_vcpu { reach.new.root_vcpu ≡ reach.old.root_vcpu }
    ensures root_job { reach.new.root_job ≡ reach.old.root_job }
{
    raise_at(&mut reach.scans, j, u);
    let near = is_near(&reach.near, j);
    if near {
        return;
    }
    let length = demands.length(j);
    if read(&flow.rows, j, u) >= length {
        return;
    }
    let tail = reach.tail;
    reach.near[j] = true;
    reach.queue[tail] = Link {
        interval: j,
        vcpu: u,
        back,
    };
    reach.tail = tail + 1;
}

// Reads all edges of a job from which none was read before.
pub(crate) fn read_job<L: Ledger>(
    demands: &Demands,
    flow: &Flow,
    reach: &mut Reach,
    u: usize,
    k: usize,
    back: usize,
    steps: &mut Steps<L>,
)
    requires net { IsFlowOf demands.now flow.now (load demands.now).count }
    requires places { HasPlaces (load demands.now) reach.old }
    requires search { IsSearchOf demands.now flow.now reach.old }
    requires jobwise { IsJobwise (load demands.now) (reached_of reach.old) }
    requires can { CanReachOf demands.now flow.now reach.old u k back }
    requires job { k < jobs (load demands.now) u }
    requires unread { (i : ℕ) → i < (load demands.now).count → job (load demands.now) u i ≡ k
        → ticks_at reach.old.scans.items i u ≡ 0 }
    ensures places { HasPlaces (load demands.now) reach.new }
    ensures search { IsSearchOf demands.now flow.now reach.new }
    ensures jobwise { IsJobwise (load demands.now) (reached_of reach.new) }
    ensures links { IsMore (reached_of reach.old) (reached_of reach.new) }
    ensures reads { ReadsMore (load demands.now) (reached_of reach.old) (reached_of reach.new) }
    ensures all { (i : ℕ) → i < (load demands.now).count → job (load demands.now) u i ≡ k
        → 0 < ticks_at reach.new.scans.items i u }
    ensures cost { steps.new + scanned (load demands.now) (reached_of reach.old)
        ≡ steps.old + scanned (load demands.now) (reached_of reach.new) }
    ensures root_vcpu { reach.new.root_vcpu ≡ reach.old.root_vcpu }
    ensures root_job { reach.new.root_job ≡ reach.old.root_job }
{
    let (from, until) = demands.window(u, k);
    for j in from..until {
        steps.tell();
        read_edge(demands, flow, reach, u, j, back);
    }
}

// Reads on from a vCPU that has ticks in a reached interval: these may move.
fn follow_back<L: Ledger>(
    demands: &Demands,
    flow: &Flow,
    reach: &mut Reach,
    head: usize,
    v: usize,
    steps: &mut Steps<L>,
)
    requires net { IsFlowOf demands.now flow.now (load demands.now).count }
    requires places { HasPlaces (load demands.now) reach.old }
    requires search { IsSearchOf demands.now flow.now reach.old }
    requires jobwise { IsJobwise (load demands.now) (reached_of reach.old) }
    requires link { head < reach.old.tail }
    requires vcpu { v < (load demands.now).width }
    ensures places { HasPlaces (load demands.now) reach.new }
    ensures search { IsSearchOf demands.now flow.now reach.new }
    ensures jobwise { IsJobwise (load demands.now) (reached_of reach.new) }
    ensures links { IsMore (reached_of reach.old) (reached_of reach.new) }
    ensures reads { ReadsMore (load demands.now) (reached_of reach.old) (reached_of reach.new) }
    ensures root_vcpu { reach.new.root_vcpu ≡ reach.old.root_vcpu }
    ensures root_job { reach.new.root_job ≡ reach.old.root_job }
    ensures followed { let i = (link_at reach.old.queue.items head).interval in
        0 < ticks_at flow.now.rows.items i v → 0 < ticks_at reach.new.scans.items i v }
    ensures cost { steps.new + scanned (load demands.now) (reached_of reach.old)
        ≡ steps.old + scanned (load demands.now) (reached_of reach.new) + is_due (load demands.now) v }
{
    if demands.costs[v] == 0 {
        return;
    }
    steps.tell();
    let i = interval_at(&reach.queue, head);
    let ticks = read(&flow.rows, i, v);
    let reads = read(&reach.scans, i, v);
    if ticks == 0 || reads > 0 {
        return;
    }
    let k = demands.job(v, i);
    read_job(demands, flow, reach, v, k, head + 1, steps);
}

// Reads the edges that lead back from a reached interval.
pub(crate) fn read_back<L: Ledger>(
    demands: &Demands,
    flow: &Flow,
    reach: &mut Reach,
    head: usize,
    steps: &mut Steps<L>,
)
    requires net { IsFlowOf demands.now flow.now (load demands.now).count }
    requires places { HasPlaces (load demands.now) reach.old }
    requires search { IsSearchOf demands.now flow.now reach.old }
    requires jobwise { IsJobwise (load demands.now) (reached_of reach.old) }
    requires link { head < reach.old.tail }
    ensures places { HasPlaces (load demands.now) reach.new }
    ensures search { IsSearchOf demands.now flow.now reach.new }
    ensures jobwise { IsJobwise (load demands.now) (reached_of reach.new) }
    ensures links { IsMore (reached_of reach.old) (reached_of reach.new) }
    ensures reads { ReadsMore (load demands.now) (reached_of reach.old) (reached_of reach.new) }
    ensures root_vcpu { reach.new.root_vcpu ≡ reach.old.root_vcpu }
    ensures root_job { reach.new.root_job ≡ reach.old.root_job }
    ensures followed { (v : ℕ) → v < (load demands.now).width
        → (let i = (link_at reach.old.queue.items head).interval in
        0 < ticks_at flow.now.rows.items i v → 0 < ticks_at reach.new.scans.items i v) }
    ensures cost { steps.new + scanned (load demands.now) (reached_of reach.old)
        ≡ steps.old + scanned (load demands.now) (reached_of reach.new) + admitted (load demands.now) }
{
    for v in 0..demands.costs.len() {
        follow_back(demands, flow, reach, head, v, steps);
    }
}

// Takes back that intervals were reached.
fn forget(near: &mut Vec<bool>)
    ensures same_len { length near.new.items ≡ length near.old.items }
    ensures none { (i : ℕ) → slice_index_or near.new.items i false ≡ false }
{
    for i in 0..near.len() {
        near[i] = false;
    }
}

// Begins a search at a vCPU's job that still needs ticks: nothing is reached.
pub(crate) fn begin(demands: &Demands, flow: &Flow, reach: &mut Reach, u: usize, k: usize)
    requires places { HasPlaces (load demands.now) reach.old }
    requires vcpu { u < (load demands.now).width }
    requires due { is_due (load demands.now) u ≡ 1 }
    ensures places { HasPlaces (load demands.now) reach.new }
    ensures search { IsSearchOf demands.now flow.now reach.new }
    ensures jobwise { IsJobwise (load demands.now) (reached_of reach.new) }
    ensures can { CanReachOf demands.now flow.now reach.new u k 0 }
    ensures none { (i v : ℕ) → ticks_at reach.new.scans.items i v ≡ 0 }
    ensures root_vcpu { reach.new.root_vcpu ≡ u }
    ensures root_job { reach.new.root_job ≡ k }
{
    forget(&mut reach.near);
    clear_rows(&mut reach.scans);
    reach.tail = 0;
    reach.root_vcpu = u;
    reach.root_job = k;
}
