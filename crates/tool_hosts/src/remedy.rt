//! What to do where VMs of sizes don't fit a host.
ghost use Rattle.std.specs.Prelude.{◌≤◌};
ghost use Rattle.tab_core.specs.declared.TheConstants.{MAX_CORES, MAX_TICK_NS, MIN_TICK_NS};

use crate::hosts::host_fault;
use plan_make::{PlanFault, plan};
use size_fit::split_of;
use sizes_doc::{Size, host_of_sizes};
use std::alloc::Global;
use tab_core::{Host, MAX_CORES, VcpuNo};
use tool_input::{Fault, shown};

// Ticks of a latency within which each share has a period: with one of 100 ticks no wait is longer.
const SURE_TICKS: u32 = 200;

/// What to do where VMs don't fit a host.
#[derive(Drop)]
pub(crate) enum Remedy {
    /// To take so many cores, with which there is a plan, and with fewer of those above the host's there is none.
    Cores(u32),
    /// To take several hosts: with no count of cores above the host's there is a plan.
    Hosts,
    /// To give the vCPU of this name so long a latency, within which each share has a period.
    Latency { name: String, latency_ns: u32 },
}

/// What to do where the host of these sizes has no plan for this reason.
pub(crate) fn remedy_of(
    alloc: Global,
    host: &Host,
    no_split: bool,
    sizes: &[Size<'_>],
    fault: &PlanFault,
) -> Result<Remedy, Fault> {
    match fault {
        PlanFault::NoMemory => Err(Fault::NoMemory),
        PlanFault::NoPeriod { vcpu } => latency_for(alloc, host, *vcpu),
        PlanFault::NoRoom { .. } => cores_for(alloc, host, no_split, sizes),
    }
}

// A latency with which the vCPU of this number has a period.
fn latency_for(alloc: Global, host: &Host, vcpu: VcpuNo) -> Result<Remedy, Fault> {
    let name = match host.vcpus.items().get(vcpu.index()) {
        Some(vcpu) => shown(alloc, vcpu.name.bytes())?,
        None => String::new(alloc),
    };
    Ok(Remedy::Latency {
        name,
        latency_ns: SURE_TICKS * host.tick_ns,
    })
}

/// The fewest cores above the host's with which the sizes have a plan, if some have: one that splits nobody where none may
/// be split.
pub(crate) fn cores_for(
    alloc: Global,
    host: &Host,
    no_split: bool,
    sizes: &[Size<'_>],
) -> Result<Remedy, Fault> {
    for cores in host.cores + 1..MAX_CORES + 1 {
        if fits_on(alloc, cores, host.tick_ns, no_split, sizes)? {
            return Ok(Remedy::Cores(cores));
        }
    }
    Ok(Remedy::Hosts)
}

// Whether the sizes have a plan on a host of so many cores.
fn fits_on(
    alloc: Global,
    cores: u32,
    tick_ns: u32,
    no_split: bool,
    sizes: &[Size<'_>],
) -> Result<bool, Fault>
    requires some_core { 1 ≤ cores }
    requires few_cores { cores ≤ MAX_CORES }
    requires least_tick { MIN_TICK_NS ≤ tick_ns }
    requires most_tick { tick_ns ≤ MAX_TICK_NS }
{
    let host = match host_of_sizes(alloc, cores, tick_ns, sizes) {
        Ok(host) => host,
        Err(fault) => return Err(host_fault(alloc, sizes, fault)),
    };
    match plan(alloc, &host) {
        Ok(planned) => {
            let split = split_of(alloc, &host, &planned.tasks)?;
            Ok(!no_split || split.is_empty())
        }
        Err(PlanFault::NoMemory) => Err(Fault::NoMemory),
        Err(_) => Ok(false),
    }
}
