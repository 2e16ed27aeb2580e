ghost use Rattle.std.specs.Prelude.{ℕ, ◌≡◌, ◌+◌, ◌-◌, ◌*◌, ◌<◌, ◌≤◌, IfOk, length, slice_index};
ghost use Rattle.tab_core.specs.Sums.{total};
ghost use Rattle.flow_net.specs.Load.{given, jobs, span, used};
ghost use Rattle.flow_net.specs.Rows.{row_at, ticks_at};
ghost use Rattle.flow_net.specs.Flows.{all_lacks, flow_of, fluid};
ghost use Rattle.flow_net.specs.Inside.Demanded.{IsFlowOf, load};
ghost use Rattle.flow_net.specs.Inside.Lacking.{AreLacksTo};
ghost use Rattle.flow_net.specs.Counts.{admitted, job_count};

use crate::demands::Demands;
use crate::flow::Flow;
use crate::ticks::{Ticks, read};
use std::alloc::Global;
use tab_core::{NoMemory, ROUND};

// The opening flow in an interval: of each vCPU what the fluid schedule gives, in whole ticks.
fn opening_row(alloc: Global, demands: &Demands, i: usize) -> Result<Ticks, NoMemory>
    requires { i < (load demands.now).count }
    ensures len { IfOk result (λ row. length row ≡ (load demands.now).width) }
    ensures shares { IfOk result (λ row. (v : ℕ) → v < (load demands.now).width
        → slice_index row v ≡ fluid (load demands.now) v i) }
{
    let length = u64::from(demands.length(i));
    let mut row = Vec::new(alloc);
    for v in 0..demands.costs.len() {
        let share = u64::from(demands.costs[v]) * length / u64::from(demands.periods[v]);
        row.push(share as u32)?;
    }
    Ok(Ticks::of(row))
}

// The opening flow.
fn opening_rows(alloc: Global, demands: &Demands) -> Result<Vec<Ticks>, NoMemory>
    ensures len { IfOk result (λ rows. length rows.items ≡ (load demands.now).count) }
    ensures widths { IfOk result (λ rows. (i : ℕ) → i < (load demands.now).count
        → length (row_at rows.items i) ≡ (load demands.now).width) }
    ensures shares { IfOk result (λ rows. (v i : ℕ) → v < (load demands.now).width
        → i < (load demands.now).count
        → ticks_at rows.items i v ≡ fluid (load demands.now) v i) }
{
    let mut rows = Vec::new(alloc);
    for i in 0..demands.marks.len() - 1 {
        rows.push(opening_row(alloc, demands, i)?)?;
    }
    Ok(rows)
}

// The sum of a row.
fn row_sum(rows: &Vec<Ticks>, i: usize, width: usize) -> u32
    requires row { i < length rows.now.items }
    requires width { length (row_at rows.now.items i) ≡ width }
    requires small { total (λ v. ticks_at rows.now.items i v) width ≤ u32.MAX }
    ensures { result ≡ total (λ v. ticks_at rows.now.items i v) width }
{
    let mut sum = 0;
    for v in 0..width {
        sum += read(rows, i, v);
    }
    sum
}

// The room that the flow leaves in an interval.
fn room_left(demands: &Demands, rows: &Vec<Ticks>, i: usize) -> u32
    requires interval { i < (load demands.now).count }
    requires len { length rows.now.items ≡ (load demands.now).count }
    requires width { length (row_at rows.now.items i) ≡ (load demands.now).width }
    requires fits { used (load demands.now) (flow_of rows.now.items) i
        ≤ (load demands.now).cores * span (load demands.now) i }
    ensures { result + used (load demands.now) (flow_of rows.now.items) i
        ≡ (load demands.now).cores * span (load demands.now) i }
{
    let offered = demands.cores * demands.length(i);
    let taken = row_sum(rows, i, demands.costs.len());
    offered - taken
}

// The room that the flow leaves in each interval.
fn rooms_of(alloc: Global, demands: &Demands, rows: &Vec<Ticks>) -> Result<Vec<u32>, NoMemory>
    requires len { length rows.now.items ≡ (load demands.now).count }
    requires widths { (i : ℕ) → i < (load demands.now).count
        → length (row_at rows.now.items i) ≡ (load demands.now).width }
    requires fits { (i : ℕ) → i < (load demands.now).count
        → used (load demands.now) (flow_of rows.now.items) i
        ≤ (load demands.now).cores * span (load demands.now) i }
    ensures len { IfOk result (λ room. length room.items ≡ (load demands.now).count) }
    ensures fits { IfOk result (λ room. (i : ℕ) → i < (load demands.now).count
        → slice_index room.items i + used (load demands.now) (flow_of rows.now.items) i
        ≡ (load demands.now).cores * span (load demands.now) i) }
{
    let mut room = Vec::new(alloc);
    for i in 0..demands.marks.len() - 1 {
        room.push(room_left(demands, rows, i))?;
    }
    Ok(room)
}

// The job of a vCPU that hasn't ended: where its period ends, and what it still needs.
#[derive(Clone, Copy)]
struct Unended {
    end: u32,
    lack: u32,
}

// Goes through an interval: the job there gets its ticks, and what it still needs is listed where
// it ends.
fn go_through(
    demands: &Demands,
    rows: &Vec<Ticks>,
    v: usize,
    i: usize,
    job: Unended,
    lacks: &mut Vec<u32>,
) -> Result<Unended, NoMemory>
    requires vcpu { v < (load demands.now).width }
    requires interval { i < (load demands.now).count }
    requires len { length rows.now.items ≡ (load demands.now).count }
    requires width { length (row_at rows.now.items i) ≡ (load demands.now).width }
    requires most { (k : ℕ) → k < jobs (load demands.now) v
        → given (load demands.now) (flow_of rows.now.items) v k ≤ (load demands.now).cost v }
    requires before { AreLacksTo (load demands.now) (flow_of rows.now.items) v lacks.old.items
        job.end job.lack i }
    ensures { IfOk result (λ next. AreLacksTo (load demands.now) (flow_of rows.now.items) v
        lacks.new.items next.end next.lack (i + 1)) }
{
    let lack = job.lack - read(rows, i, v);
    if demands.marks[i + 1] != job.end {
        return Ok(Unended { end: job.end, lack });
    }
    lacks.push(lack)?;
    Ok(Unended {
        end: job.end + demands.periods[v],
        lack: demands.costs[v],
    })
}

// What each job of a vCPU still needs.
fn lacks_of_vcpu(
    alloc: Global,
    demands: &Demands,
    rows: &Vec<Ticks>,
    v: usize,
) -> Result<Ticks, NoMemory>
    requires vcpu { v < (load demands.now).width }
    requires len { length rows.now.items ≡ (load demands.now).count }
    requires widths { (i : ℕ) → i < (load demands.now).count
        → length (row_at rows.now.items i) ≡ (load demands.now).width }
    requires most { (k : ℕ) → k < jobs (load demands.now) v
        → given (load demands.now) (flow_of rows.now.items) v k ≤ (load demands.now).cost v }
    ensures len { IfOk result (λ lacks. length lacks ≡ jobs (load demands.now) v) }
    ensures due { IfOk result (λ lacks. (k : ℕ) → k < jobs (load demands.now) v
        → slice_index lacks k + given (load demands.now) (flow_of rows.now.items) v k
        ≡ (load demands.now).cost v) }
{
    let period = demands.periods[v];
    let mut lacks = Vec::with_capacity(alloc, (ROUND / period) as usize)?;
    let mut job = Unended {
        end: period,
        lack: demands.costs[v],
    };
    for i in 0..rows.len() {
        job = go_through(demands, rows, v, i, job, &mut lacks)?;
    }
    Ok(Ticks::of(lacks))
}

// What each job still needs.
fn lacks_of(alloc: Global, demands: &Demands, rows: &Vec<Ticks>) -> Result<Vec<Ticks>, NoMemory>
    requires len { length rows.now.items ≡ (load demands.now).count }
    requires widths { (i : ℕ) → i < (load demands.now).count
        → length (row_at rows.now.items i) ≡ (load demands.now).width }
    requires most { (v k : ℕ) → v < (load demands.now).width → k < jobs (load demands.now) v
        → given (load demands.now) (flow_of rows.now.items) v k ≤ (load demands.now).cost v }
    ensures len { IfOk result (λ lacks. length lacks.items ≡ (load demands.now).width) }
    ensures widths { IfOk result (λ lacks. (v : ℕ) → v < (load demands.now).width
        → length (row_at lacks.items v) ≡ jobs (load demands.now) v) }
    ensures due { IfOk result (λ lacks. (v k : ℕ) → v < (load demands.now).width
        → k < jobs (load demands.now) v
        → ticks_at lacks.items v k + given (load demands.now) (flow_of rows.now.items) v k
        ≡ (load demands.now).cost v) }
{
    let mut lacks = Vec::new(alloc);
    for v in 0..demands.costs.len() {
        lacks.push(lacks_of_vcpu(alloc, demands, rows, v)?)?;
    }
    Ok(lacks)
}

// The opening flow, with what it still needs and the room that it leaves.
pub(crate) fn open_flow(alloc: Global, demands: &Demands) -> Result<Flow, NoMemory>
    ensures net { IfOk result (λ flow. IsFlowOf demands.now flow (load demands.now).count) }
    ensures shares { IfOk result (λ flow. (v i : ℕ) → v < (load demands.now).width
        → i < (load demands.now).count
        → ticks_at flow.rows.items i v ≡ fluid (load demands.now) v i) }
    ensures lacks { IfOk result (λ flow. all_lacks (load demands.now) flow.lacks.items
        + job_count (load demands.now)
        ≤ admitted (load demands.now) * (load demands.now).count) }
{
    let rows = opening_rows(alloc, demands)?;
    let lacks = lacks_of(alloc, demands, &rows)?;
    let room = rooms_of(alloc, demands, &rows)?;
    Ok(Flow { rows, lacks, room })
}
