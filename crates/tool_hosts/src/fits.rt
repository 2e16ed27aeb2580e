ghost use Rattle.std.specs.Prelude.{◌≤◌, length};
ghost use Rattle.tab_core.specs.declared.TheConstants.{MAX_CORES};

use crate::hosts::{SizeWords, cores_of, host_fault, sizes_of, text_of};
use crate::remedy::{Remedy, cores_for, remedy_of};
use plan_make::PlanFault;
use size_fit::{Fit, fit_sizes, write_fit, write_refusal, write_split};
use sizes_doc::{Size, host_of_sizes};
use tab_core::{Host, MAX_TICK_NS, MIN_TICK_NS, TICK_NS, VcpuNo};
use tool_input::{Fault, finish, output_of};
use vcpu_names::name_in;

/// Does `fit`: it writes how VMs of sizes fit a host and how many more of each size would, or why they don't fit, and
/// on standard error what to do. It answers whether they do.
pub fn fit(rt: &HostRuntime, words: &SizeWords<'_>) -> Result<bool, Fault> {
    // (the words were refused if the tick is out of its range)
    let cores = cores_of(words.cores)?;
    let tick_ns = words
        .tick_ns
        .unwrap_or(TICK_NS)
        .clamp(MIN_TICK_NS, MAX_TICK_NS);
    let text = text_of(rt, words.sizes)?;
    let sizes = sizes_of(rt.alloc(), &text, words.empty)?;
    let host = match host_of_sizes(rt.alloc(), cores, tick_ns, sizes.as_slice()) {
        Ok(host) => host,
        Err(fault) => return Err(host_fault(rt.alloc(), sizes.as_slice(), fault)),
    };
    match fit_sizes(rt.alloc(), &host, words.no_split, sizes.as_slice()) {
        Ok(fit) => match fit.split.first() {
            Some(vcpu) if words.no_split => {
                put_split(rt, &host, *vcpu)?;
                tell_cores(rt, &host, sizes.as_slice());
                Ok(false)
            }
            _ => put_fit(rt, &host, &fit),
        },
        Err(PlanFault::NoMemory) => Err(Fault::NoMemory),
        Err(fault) => {
            put_refusal(rt, &host, &fault)?;
            // (where memory runs out, the refusal is there alone)
            if let Ok(remedy) = remedy_of(
                rt.alloc(),
                &host,
                words.no_split,
                sizes.as_slice(),
                &fault,
            ) {
                tell_remedy(rt, &remedy);
            }
            Ok(false)
        }
    }
}

// Writes that no vCPU may be split, and that this one would be.
fn put_split(rt: &HostRuntime, host: &Host, vcpu: VcpuNo) -> Result<(), Fault> {
    let mut sink = output_of(rt)?;
    write_split(&mut sink, name_in(host.vcpus.items(), &vcpu))?;
    finish(&mut sink)
}

// Tells with how many cores nobody is split. (If memory runs out, the refusal is there alone.)
fn tell_cores(rt: &HostRuntime, host: &Host, sizes: &[Size<'_>]) {
    if let Ok(remedy) = cores_for(rt.alloc(), host, true, sizes) {
        tell_remedy(rt, &remedy);
    }
}

// Writes how the VMs fit the host.
fn put_fit(rt: &HostRuntime, host: &Host, fit: &Fit<'_>) -> Result<bool, Fault>
    requires few { length fit.now.loads.items ≤ MAX_CORES }
    requires some { 1 ≤ length fit.now.loads.items }
{
    let mut sink = output_of(rt)?;
    write_fit(&mut sink, host.vcpus.items().len() as u32, host.cores, fit)?;
    finish(&mut sink)?;
    Ok(true)
}

// Writes why they don't.
fn put_refusal(rt: &HostRuntime, host: &Host, fault: &PlanFault) -> Result<(), Fault> {
    let mut sink = output_of(rt)?;
    write_refusal(&mut sink, host.vcpus.items(), fault)?;
    finish(&mut sink)
}

// Tells what to do where they don't. (Where the line can't be written, the status says it.)
fn tell_remedy(rt: &HostRuntime, remedy: &Remedy) {
    match remedy {
        Remedy::Cores(cores) => {
            let _ = eprintln!(rt;
                "tableau-tools: with --cores {cores} they fit; or take fewer VMs, smaller shares or longer latencies"
            );
        }
        Remedy::Hosts => {
            let _ = eprintln!(rt;
                "tableau-tools: no host has cores enough for them: take fewer VMs or smaller shares, or several hosts, as tableau-tools place does"
            );
        }
        Remedy::Latency { name, latency_ns } => {
            let _ = eprintln!(rt;
                "tableau-tools: give {name} a latency of {latency_ns}ns or more, or a larger share"
            );
        }
    }
}
