ghost use Rattle.std.specs.Prelude.{◌≡◌, ◌*◌, ◌≤◌, IfOk, length, map};
ghost use Rattle.tab_core.specs.declared.TheConstants.{MAX_CORES, MAX_VCPUS, ROUND};
ghost use Rattle.flow_net.specs.Allotments.{AreMarks, cost_of_task, demands, period_of_task};
ghost use Rattle.flow_net.specs.Inside.Demanded.{load};
ghost use Rattle.flow_net.specs.Inside.Reaching.{HasPlaces};

use crate::demands::Demands;
use crate::marks::marks_of;
use crate::reach::{Link, Reach};
use crate::ticks::Ticks;
use std::alloc::Global;
use tab_core::{NoMemory, Periodic, ROUND};

// What each vCPU is due in each of its periods.
fn costs_of(alloc: Global, tasks: &[Option<Periodic>]) -> Result<Vec<u32>, NoMemory>
    ensures { IfOk result (λ costs. costs.items ≡ map cost_of_task tasks.now) }
{
    let mut costs = Vec::new(alloc);
    for task in tasks {
        match task {
            None => costs.push(0)?,
            Some(task) => costs.push(task.cost)?,
        }
    }
    Ok(costs)
}

// The period of each vCPU.
fn periods_of(alloc: Global, tasks: &[Option<Periodic>]) -> Result<Vec<u32>, NoMemory>
    ensures { IfOk result (λ periods. periods.items ≡ map period_of_task tasks.now) }
{
    let mut periods = Vec::new(alloc);
    for task in tasks {
        match task {
            None => periods.push(ROUND)?,
            Some(task) => periods.push(task.period)?,
        }
    }
    Ok(periods)
}

// The demands of these tasks, and the marks.
pub(crate) fn demands_of(
    alloc: Global,
    tasks: &[Option<Periodic>],
    cores: u32,
) -> Result<Demands, NoMemory>
    requires few { length tasks.now ≤ MAX_VCPUS }
    requires cores { cores ≤ MAX_CORES }
    requires fits { demands tasks.now ≤ cores * ROUND }
    ensures costs { IfOk result (λ d. d.costs.items ≡ map cost_of_task tasks.now) }
    ensures periods { IfOk result (λ d. d.periods.items ≡ map period_of_task tasks.now) }
    ensures cores { IfOk result (λ d. d.cores ≡ cores) }
    ensures marks { IfOk result (λ d. AreMarks (map period_of_task tasks.now) d.marks.items) }
{
    let costs = costs_of(alloc, tasks)?;
    let periods = periods_of(alloc, tasks)?;
    let marks = marks_of(alloc, &periods)?;
    Ok(Demands {
        costs,
        periods,
        marks,
        cores,
    })
}

// So many zeros.
fn zeros(alloc: Global, count: usize) -> Result<Ticks, NoMemory>
    ensures { IfOk result (λ row. length row ≡ count) }
{
    let row = vec![in alloc; 0u32; count]?;
    Ok(Ticks::of(row))
}

// Places for a search that has reached nothing.
pub(crate) fn blank(alloc: Global, demands: &Demands) -> Result<Reach, NoMemory>
    ensures { IfOk result (λ reach. HasPlaces (load demands.now) reach) }
{
    let count = demands.marks.len() - 1;
    let mut near = Vec::new(alloc);
    let mut scans = Vec::new(alloc);
    let mut queue = Vec::new(alloc);
    for _ in 0..count {
        near.push(false)?;
        scans.push(zeros(alloc, demands.costs.len())?)?;
        queue.push(Link {
            interval: 0,
            vcpu: 0,
            back: 0,
        })?;
    }
    Ok(Reach {
        near,
        scans,
        queue,
        tail: 0,
        root_vcpu: 0,
        root_job: 0,
    })
}

/// What these tasks are due in a round, in ticks: the sum of cost times periods in a round.
pub fn demand_sum(tasks: &[Option<Periodic>]) -> u64
    requires { length tasks.now ≤ MAX_VCPUS }
    ensures { result ≡ demands tasks.now }
{
    let mut sum = 0;
    for task in tasks {
        sum += match task {
            None => 0,
            Some(task) => u64::from(task.cost * (ROUND / task.period)),
        };
    }
    sum
}
