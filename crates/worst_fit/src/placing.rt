ghost use Rattle.std.specs.Prelude.{◌≡◌, ℕ, ◌+◌, ◌<◌, ◌≤◌, [], All, IfOk, IfSome, None, OnOk, get_or, length, slice_index};
ghost use Rattle.tab_core.specs.declared.TheConstants.{MAX_CORES, ROUND};
ghost use Rattle.worst_fit.specs.declared.placed.Placed.{Placed};
ghost use Rattle.worst_fit.specs.Bound.{IsWithinBound};
ghost use Rattle.worst_fit.specs.Load.{FitsEachCore};
ghost use Rattle.worst_fit.specs.Placement.{IsPlacement, IsStayingPlacement, PlacesEach, home_with_room, place_all, place_next, stay_all, stay_at};
ghost use Rattle.worst_fit.specs.Staying.{LeaveForNeed, StayWhereAllFit};

use crate::by_demand::{ByDemand, falling_order};
use crate::placed::{LeftOver, Placed, PlacedCores};
use std::alloc::Global;
use tab_core::{CoreNo, NoMemory, ROUND, Tasks, VcpuNo};

/// Places the admitted vCPUs on the cores by worst-fit decreasing.
///
/// They are taken by falling demand, ties to the lower number. Each goes to the core of least load,
/// ties to the lower core, if the load is then at most a round, and is left over otherwise. There are 1
/// to 32 cores. Within the bound of `IsWithinBound` nobody is left over. Fails only when memory runs
/// out.
///
/// Source: D. S. Johnson, "Near-optimal bin packing algorithms", thesis, MIT, 1973.
pub fn place(alloc: Global, tasks: &Tasks, cores: u32) -> Result<Placed, NoMemory>
    requires some_core { 1 ≤ cores }
    requires few_cores { cores ≤ MAX_CORES }
    ensures placement { IfOk result (IsPlacement tasks.now cores) }
    ensures only { IfOk result (λ placed. (other : Placed) → IsPlacement tasks.now cores other
        → other ≡ placed) }
    ensures each { IfOk result (PlacesEach tasks.now cores) }
    ensures fits { IfOk result (λ placed. FitsEachCore tasks.now cores placed.core_of) }
    ensures bound { IfOk result (λ placed. IsWithinBound tasks.now cores → placed.left ≡ []) }
{
    place_staying(alloc, tasks, cores, &[])
}

/// Places the admitted vCPUs on the cores, where those that have old homes stay if they can.
///
/// `homes` has the old home of each vCPU by its number. A vCPU beyond its end has none, and a home at
/// or beyond the count of cores is none. The vCPUs are taken by falling demand, ties to the lower
/// number. Each goes to its old home if the load there is then at most a round, and moves otherwise.
/// Those that move and those without an old home are placed next, beside these, as by `place`.
///
/// There are 1 to 32 cores. Within the bound of `IsWithinBound` nobody is left over: that vCPUs stay
/// costs nothing of it. Fails only when memory runs out.
pub fn place_staying(
    alloc: Global,
    tasks: &Tasks,
    cores: u32,
    homes: &[Option<CoreNo>],
) -> Result<Placed, NoMemory>
    requires some_core { 1 ≤ cores }
    requires few_cores { cores ≤ MAX_CORES }
    ensures placement { IfOk result (IsStayingPlacement homes.now tasks.now cores) }
    ensures only { IfOk result (λ placed. (other : Placed) → IsStayingPlacement homes.now tasks.now cores other
        → other ≡ placed) }
    ensures each { IfOk result (PlacesEach tasks.now cores) }
    ensures fits { IfOk result (λ placed. FitsEachCore tasks.now cores placed.core_of) }
    ensures stay { IfOk result (λ placed. StayWhereAllFit homes.now tasks.now cores placed.core_of) }
    ensures need { IfOk result (λ placed. LeaveForNeed homes.now tasks.now cores placed.core_of) }
    ensures bound { IfOk result (λ placed. IsWithinBound tasks.now cores → placed.left ≡ []) }
{
    let order = falling_order(alloc, tasks.items())?;
    let mut loads = vec![in alloc; 0u32; cores as usize]?;
    let mut core_of = vec![in alloc; None; tasks.items().len()]?;
    let mut moving = Vec::new(alloc);
    stay_in_order(homes, &order, &mut loads, &mut core_of, &mut moving)?;
    let mut left = Vec::new(alloc);
    place_in_order(&moving, &mut loads, &mut core_of, &mut left)?;
    Ok(Placed {
        core_of: PlacedCores::of(core_of),
        left: LeftOver::of(left),
    })
}

// Of the vCPUs of these ranks, each stays at its old home if that has room for it, and moves
// otherwise.
fn stay_in_order(
    homes: &[Option<CoreNo>],
    order: &[ByDemand],
    loads: &mut [u32],
    core_of: &mut [Option<CoreNo>],
    moving: &mut Vec<ByDemand>,
) -> Result<(), NoMemory>
    requires few_cores { length loads.old ≤ MAX_CORES }
    requires known { All (λ rank. rank.vcpu < length core_of.old) order.now }
    ensures { OnOk result
        (record {
          placed = record { loads = loads.new; core_of = core_of.new; left = [] };
          moving = moving.new.items;
        } ≡ stay_all homes.now
        (record {
          placed = record { loads = loads.old; core_of = core_of.old; left = [] };
          moving = moving.old.items;
        }) order.now) }
{
    for rank in order {
        stay_or_move(*rank, home_of(homes, rank.vcpu), loads, core_of, moving)?;
    }
    Ok(())
}

// The old home of a vCPU, if it has one.
fn home_of(homes: &[Option<CoreNo>], vcpu: VcpuNo) -> Option<CoreNo>
    ensures { result ≡ get_or homes.now vcpu None }
{
    homes.get(vcpu.index()).copied().flatten()
}

// The next vCPU stays at its old home if that has room for it, and moves otherwise.
fn stay_or_move(
    rank: ByDemand,
    home: Option<CoreNo>,
    loads: &mut [u32],
    core_of: &mut [Option<CoreNo>],
    moving: &mut Vec<ByDemand>,
) -> Result<(), NoMemory>
    requires few_cores { length loads.old ≤ MAX_CORES }
    requires known { rank.vcpu < length core_of.old }
    ensures { OnOk result
        (record {
          placed = record { loads = loads.new; core_of = core_of.new; left = [] };
          moving = moving.new.items;
        } ≡ stay_at
        (record {
          placed = record { loads = loads.old; core_of = core_of.old; left = [] };
          moving = moving.old.items;
        }) rank (home_with_room loads.old rank.demand home)) }
{
    let takes = rank.demand;
    if let Some(core) = with_room(loads, takes, home) {
        let load = loads[core.index()];
        loads[core.index()] = load + takes;
        core_of[rank.vcpu.index()] = Some(core);
    } else {
        moving.push(rank)?;
    }
    Ok(())
}

// The old home of a vCPU that takes so much, if it is one of the cores and has room for it.
fn with_room(loads: &[u32], takes: u32, home: Option<CoreNo>) -> Option<CoreNo>
    ensures value { result ≡ home_with_room loads.now takes home }
    ensures room { IfSome result (λ core. (core < length loads.now)
        × (slice_index loads.now core + takes ≤ ROUND)) }
{
    let core = home?;
    if core.index() >= loads.len() {
        return None;
    }
    let load = u64::from(loads[core.index()]) + u64::from(takes);
    if load <= u64::from(ROUND) {
        Some(core)
    } else {
        None
    }
}

// The vCPUs of these ranks are placed one after the other.
fn place_in_order(
    order: &[ByDemand],
    loads: &mut [u32],
    core_of: &mut [Option<CoreNo>],
    left: &mut Vec<VcpuNo>,
) -> Result<(), NoMemory>
    requires some_core { 1 ≤ length loads.old }
    requires few_cores { length loads.old ≤ MAX_CORES }
    requires known { All (λ rank. rank.vcpu < length core_of.old) order.now }
    ensures { OnOk result
        (record { loads = loads.new; core_of = core_of.new; left = left.new.items }
        ≡ place_all (record { loads = loads.old; core_of = core_of.old; left = left.old.items })
        order.now) }
{
    for rank in order {
        place_rank(*rank, loads, core_of, left)?;
    }
    Ok(())
}

// The next vCPU goes to the core of least load if it has room there, and is left over otherwise.
fn place_rank(
    rank: ByDemand,
    loads: &mut [u32],
    core_of: &mut [Option<CoreNo>],
    left: &mut Vec<VcpuNo>,
) -> Result<(), NoMemory>
    requires some_core { 1 ≤ length loads.old }
    requires few_cores { length loads.old ≤ MAX_CORES }
    requires known { rank.vcpu < length core_of.old }
    ensures { OnOk result
        (record { loads = loads.new; core_of = core_of.new; left = left.new.items }
        ≡ place_next (record { loads = loads.old; core_of = core_of.old; left = left.old.items })
        rank) }
{
    let core = least_loaded(loads);
    let load = u64::from(loads[core]) + u64::from(rank.demand);
    if load <= u64::from(ROUND) {
        loads[core] = load as u32;
        core_of[rank.vcpu.index()] = Some(CoreNo(core as u32));
    } else {
        left.push(rank.vcpu)?;
    }
    Ok(())
}

// The core of least load, and of those the lowest.
fn least_loaded(loads: &[u32]) -> usize
    requires { 1 ≤ length loads.now }
    ensures is_core { result < length loads.now }
    ensures least { (core : ℕ) → core < length loads.now
        → slice_index loads.now result ≤ slice_index loads.now core }
    ensures lowest { (core : ℕ) → core < result → slice_index loads.now result < slice_index loads.now core }
{
    let mut best = 0;
    for (core, load) in loads.iter().enumerate() {
        if *load < loads[best] {
            best = core;
        }
    }
    best
}
