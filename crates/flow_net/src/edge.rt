ghost use Rattle.std.specs.Prelude.{◌≡◌, ◌+◌, ◌*◌, ◌<◌};
ghost use Rattle.flow_net.specs.Load.{jobs};
ghost use Rattle.flow_net.specs.Inside.Demanded.{IsFlowOf, load, net_view};
ghost use Rattle.flow_net.specs.Inside.Edges.{IsEdge, left_at};
ghost use Rattle.flow_net.specs.Networks.{left_to_interval, left_to_job, left_to_sink};
ghost use Rattle.flow_net.specs.Counts.{admitted, admitted_below, edges, is_due, job_count, jobs_due};
ghost use Rattle.flow_net.specs.declared.edge.Edge.{Edge};

use crate::demands::Demands;
use crate::flow::Flow;
use crate::ticks::read;
use tab_core::ROUND;

// An edge: from the source to a vCPU's job, from the vCPU's job at an interval to that interval, or
// from an interval to the sink.
#[derive(Clone, Copy)]
pub(crate) enum Edge {
    ToJob { vcpu: usize, job: usize },
    ToInterval { vcpu: usize, interval: usize },
    ToSink { interval: usize },
}

// How many jobs a vCPU has, if it is admitted.
fn jobs_of(demands: &Demands, v: usize) -> usize
    requires { v < (load demands.now).width }
    ensures { result ≡ jobs_due (load demands.now) v }
{
    if demands.costs[v] == 0 {
        return 0;
    }
    (ROUND / demands.periods[v]) as usize
}

// How many vCPUs are admitted.
fn count_admitted(demands: &Demands) -> usize
    ensures { result ≡ admitted (load demands.now) }
{
    let mut count = 0;
    for v in 0..demands.costs.len() {
        if demands.costs[v] > 0 {
            count += 1;
        }
    }
    count
}

// The admitted vCPU before which there are so many.
fn nth_admitted(demands: &Demands, rank: usize) -> usize
    requires { rank < admitted (load demands.now) }
    ensures vcpu { result < (load demands.now).width }
    ensures due { is_due (load demands.now) result ≡ 1 }
    ensures rank { admitted_below (load demands.now) result ≡ rank }
{
    let mut before = 0;
    for v in 0..demands.costs.len() {
        if demands.costs[v] > 0 {
            if before == rank {
                return v;
            }
            before += 1;
        }
    }
    unreachable!()
}

// The edge before which there are so many others beside those to jobs.
fn edge_behind_jobs(demands: &Demands, number: usize) -> Edge
    requires { number < (load demands.now).count * admitted (load demands.now) + (load demands.now).count }
    ensures { IsEdge (load demands.now) (job_count (load demands.now) + number) result }
{
    let admitted = count_admitted(demands);
    let pairs = (demands.marks.len() - 1) * admitted;
    if number < pairs {
        return Edge::ToInterval {
            vcpu: nth_admitted(demands, number % admitted),
            interval: number / admitted,
        };
    }
    Edge::ToSink {
        interval: number - pairs,
    }
}

// The edge of a number.
fn edge_at(demands: &Demands, number: usize) -> Edge
    requires { number < edges (load demands.now) }
    ensures { IsEdge (load demands.now) number result }
{
    let mut left = number;
    for vcpu in 0..demands.costs.len() {
        let jobs = jobs_of(demands, vcpu);
        if left < jobs {
            return Edge::ToJob { vcpu, job: left };
        }
        left -= jobs;
    }
    edge_behind_jobs(demands, left)
}

// What an edge to a job can still take.
fn left_for_job(demands: &Demands, flow: &Flow, v: usize, k: usize, back: bool) -> u32
    requires net { IsFlowOf demands.now flow.now (load demands.now).count }
    requires vcpu { v < (load demands.now).width }
    requires job { k < jobs (load demands.now) v }
    ensures { result ≡ left_to_job (net_view demands.now flow.now) v k back }
{
    let lack = read(&flow.lacks, v, k);
    if back { demands.costs[v] - lack } else { lack }
}

// What an edge to an interval can still take.
fn left_for_interval(demands: &Demands, flow: &Flow, v: usize, i: usize, back: bool) -> u32
    requires net { IsFlowOf demands.now flow.now (load demands.now).count }
    requires vcpu { v < (load demands.now).width }
    requires interval { i < (load demands.now).count }
    ensures { result ≡ left_to_interval (net_view demands.now flow.now) v i back }
{
    let ticks = read(&flow.rows, i, v);
    let length = demands.length(i);
    if back { ticks } else { length - ticks }
}

// What an edge to the sink can still take.
fn left_for_sink(demands: &Demands, flow: &Flow, i: usize, back: bool) -> u32
    requires net { IsFlowOf demands.now flow.now (load demands.now).count }
    requires interval { i < (load demands.now).count }
    ensures { result ≡ left_to_sink (net_view demands.now flow.now) i back }
{
    let offered = demands.cores * demands.length(i);
    let room = flow.room[i];
    if back { offered - room } else { room }
}

// What the edge of a number can still take.
pub(crate) fn left_for(demands: &Demands, flow: &Flow, number: usize, back: bool) -> u32
    requires net { IsFlowOf demands.now flow.now (load demands.now).count }
    requires edge { number < edges (load demands.now) }
    ensures { (edge : Edge) → IsEdge (load demands.now) number edge
        → result ≡ left_at (net_view demands.now flow.now) edge back }
{
    match edge_at(demands, number) {
        Edge::ToJob { vcpu, job } => left_for_job(demands, flow, vcpu, job, back),
        Edge::ToInterval { vcpu, interval } => left_for_interval(
            demands, flow, vcpu, interval, back,
        ),
        Edge::ToSink { interval } => left_for_sink(demands, flow, interval, back),
    }
}
