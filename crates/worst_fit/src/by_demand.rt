ghost use Rattle.std.specs.Prelude.{◌≤◌, IfOk, length};
ghost use Rattle.std.proofs.Common.{rules};
ghost use Rattle.std.specs.Cmp.{partial_order_from_own_ties};
ghost use Rattle.std.specs.Cmp.Rules.{comparing};
ghost use Rattle.std.specs.Ordering.{as_partial_cmp, flip_args, nat_cmp, on, then_cmp};
ghost use Rattle.tab_core.specs.declared.TheConstants.{MAX_VCPUS};
ghost use Rattle.worst_fit.specs.Order.{IsFallingOrder};

use reservation::demand_of;
use std::alloc::Global;
use std::cmp::Ordering;
use tab_core::{NoMemory, Periodic, VcpuNo};

/// An admitted vCPU with the ticks that it takes of a round. More ticks come first, and at ties
/// the lower number.
#[derive(Clone, Copy, PartialEq, Eq)]
pub struct ByDemand {
    /// The ticks of a round that the vCPU's budget takes.
    pub demand: u32,
    pub vcpu: VcpuNo,
}

impl Ord for ByDemand {
    ghost cmp = { then_cmp (flip_args (on (λ r. r.demand) nat_cmp)) (on (λ r. r.vcpu) nat_cmp) };

    ghost total = { Prim.search (comparing, rules) };

    ghost matches_partial_cmp = { Prim.search (comparing, rules) };

    ghost matches_eq = { Prim.search (comparing, rules) };

    fn cmp(&self, other: &ByDemand) -> Ordering {
        let by_demand = other.demand.cmp(&self.demand);
        by_demand.then(self.vcpu.cmp(&other.vcpu))
    }
}

impl PartialOrd for ByDemand {
    ghost partial_cmp = { as_partial_cmp
        (then_cmp (flip_args (on (λ r. r.demand) nat_cmp)) (on (λ r. r.vcpu) nat_cmp)) };

    ghost laws = { partial_order_from_own_ties
        (Prim.search (comparing, rules)) (Prim.search (comparing, rules)) };

    fn partial_cmp(&self, other: &ByDemand) -> Option<Ordering> {
        Some(self.cmp(other))
    }
}

/// The admitted vCPUs by falling demand, ties to the lower number. There are at most 256 tasks.
///
/// Fails only when memory runs out.
pub fn falling_order(alloc: Global, tasks: &[Option<Periodic>]) -> Result<Vec<ByDemand>, NoMemory>
    requires { length tasks.now ≤ MAX_VCPUS }
    ensures { IfOk result (λ ranks. IsFallingOrder tasks.now ranks.items) }
{
    let mut ranks = Vec::new(alloc);
    for (number, task) in tasks.iter().enumerate() {
        if let Some(task) = task {
            ranks.push(ByDemand {
                demand: demand_of(task),
                vcpu: VcpuNo(number as u32),
            })?;
        }
    }
    ranks.sort()?;
    Ok(ranks)
}
