ghost use Rattle.std.specs.Prelude.{ℕ, ◌≡◌, ◌+◌, ◌*◌, ◌<◌, ◌≤◌, IfOk, List, map};
ghost use Rattle.tab_core.specs.declared.TheConstants.{MAX_CORES, ROUND};
ghost use Rattle.flow_net.specs.Allotments.{AreMarks, IsAllotment, demands, load_of_tasks, period_of_task};
ghost use Rattle.flow_net.specs.Allotted.{allotment_view};
ghost use Rattle.flow_net.specs.Networks.{IsNetwork, lacks_of, load_of_view};
ghost use Rattle.flow_net.specs.Counts.{admitted, edges, job_count};

use crate::allotment::Allotment;
use crate::net::Net;
use std::alloc::Global;
use std::sync::ledger::Ledger;
use tab_core::{NoMemory, Steps, Tasks};

// Searches until every job has its cost.
fn search_all<L: Ledger>(net: &mut Net, steps: &mut Steps<L>)
    ensures network { IsNetwork net.new }
    ensures demands { net.new.demands ≡ net.old.demands }
    ensures done { lacks_of net.new ≡ 0 }
    ensures cost { steps.new ≤ steps.old
        + 2 * edges (load_of_view net.old.demands) * lacks_of net.old + job_count (load_of_view net.old.demands) }
{
    let mut raised = true;
    while raised {
        raised = net.search(steps);
    }
}

// Gives every job its cost. The first search finds whether any job still needs ticks; if so, nearly
// all of them are handed out at once.
fn saturate<L: Ledger>(alloc: Global, net: &mut Net, steps: &mut Steps<L>) -> Result<(), NoMemory>
    requires lacks { lacks_of net.old + job_count (load_of_view net.old.demands)
        ≤ admitted (load_of_view net.old.demands) * (load_of_view net.old.demands).count }
    ensures network { IfOk result (λ _. IsNetwork net.new) }
    ensures demands { IfOk result (λ _. net.new.demands ≡ net.old.demands) }
    ensures done { IfOk result (λ _. lacks_of net.new ≡ 0) }
    ensures cost { steps.new ≤ steps.old
        + 2 * (admitted (load_of_view net.old.demands) * (load_of_view net.old.demands).count)
        * edges (load_of_view net.old.demands) }
{
    if net.search(steps) {
        net.fill(alloc, steps)?;
        search_all(net, steps);
    }
    Ok(())
}

/// How many ticks each vCPU gets in each interval, such that each job gets its cost.
///
/// There is an allotment exactly where the demands fit all cores together, which is asked here. The
/// call tells at most two steps for each edge of the network, for each pair of an admitted vCPU and
/// an interval, also where memory runs out.
///
/// Source: W. A. Horn, "Some simple scheduling algorithms", Naval Research Logistics Quarterly 21,
/// 1974, by augmenting paths from the fluid schedule in whole ticks.
pub fn allot<L: Ledger>(
    alloc: Global,
    tasks: &Tasks,
    cores: u32,
    steps: &mut Steps<L>,
) -> Result<Allotment, NoMemory>
    requires cores { cores ≤ MAX_CORES }
    requires fits { demands tasks.now ≤ cores * ROUND }
    ensures allotment { IfOk result (λ a. IsAllotment tasks.now cores (allotment_view a)) }
    ensures cost { (marks : List ℕ) → AreMarks (map period_of_task tasks.now) marks
        → (let l = load_of_tasks tasks.now marks cores in
        steps.new ≤ steps.old + 2 * (admitted l * l.count) * edges l) }
{
    let mut net = Net::of(alloc, tasks, cores)?;
    saturate(alloc, &mut net, steps)?;
    Ok(net.into_allotment())
}
