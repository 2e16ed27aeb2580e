//! The documents of the hosts of a fleet.
ghost use Rattle.std.specs.Prelude.{◌≤◌, All, IfOk, IsSome};
ghost use Rattle.tab_core.specs.declared.TheConstants.{MAX_TICK_NS, MIN_TICK_NS};
ghost use Rattle.sizes_doc.specs.SizedHost.{IsHostOfSizes};
ghost use Rattle.fleet_place.specs.Held.{sizes_in};

use fleet_place::{FleetHost, sizes_of};
use host_gen::write_host;
use section_join::write_separator;
use sizes_doc::host_of_sizes;
use std::alloc::Global;
use tab_core::{Host, MAX_TICK_NS, MIN_TICK_NS};
use tool_input::{Fault, finish, output_of};

// What is written of a host of a fleet: a host whose vCPUs are all admitted.
#[derive(Drop)]
struct Document {
    host: Host,
    ghost admitted: { All (λ vcpu. IsSome vcpu.reservation) host.vcpus },
}

/// Writes the documents of hosts, with a line `%%` between each two. Nothing is written before all are made.
pub(crate) fn put_documents(
    rt: &HostRuntime,
    tick_ns: u32,
    hosts: &[FleetHost<'_>],
) -> Result<(), Fault>
    requires least_tick { MIN_TICK_NS ≤ tick_ns }
    requires most_tick { tick_ns ≤ MAX_TICK_NS }
{
    let documents = documents_of(rt.alloc(), tick_ns, hosts)?;
    let mut sink = output_of(rt)?;
    for (number, document) in documents.iter().enumerate() {
        if number > 0 {
            write_separator(&mut sink)?;
        }
        write_host(&mut sink, &document.host)?;
    }
    finish(&mut sink)
}

// The documents of hosts.
fn documents_of(
    alloc: Global,
    tick_ns: u32,
    hosts: &[FleetHost<'_>],
) -> Result<Vec<Document>, Fault>
    requires least_tick { MIN_TICK_NS ≤ tick_ns }
    requires most_tick { tick_ns ≤ MAX_TICK_NS }
{
    let mut documents = Vec::with_capacity(alloc, hosts.len())?;
    for host in hosts {
        documents.push(document_of(alloc, tick_ns, host)?)?;
    }
    Ok(documents)
}

// The document of a host: the host of the sizes of its VMs.
fn document_of(alloc: Global, tick_ns: u32, host: &FleetHost<'_>) -> Result<Document, Fault>
    requires least_tick { MIN_TICK_NS ≤ tick_ns }
    requires most_tick { tick_ns ≤ MAX_TICK_NS }
    ensures { IfOk result (λ document. IsHostOfSizes host.now.cores tick_ns (sizes_in host.now.vms) document.host) }
{
    let sizes = sizes_of(alloc, host.vms())?;
    match host_of_sizes(alloc, host.cores(), tick_ns, &sizes) {
        Ok(host) => Ok(Document { host }),
        Err(fault) => Err(Fault::from(fault)),
    }
}
