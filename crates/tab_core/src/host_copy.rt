ghost use Rattle.std.specs.Prelude.{◌≡◌, IfOk};

use crate::NoMemory;
use crate::host::Host;
use crate::vcpu::{Vcpu, Vcpus};
use std::alloc::Global;

impl Host {
    /// Another host with the same settings and vCPUs. Fails only when memory runs out.
    pub fn copy(&self, alloc: Global) -> Result<Host, NoMemory>
        ensures { IfOk result (λ host. host ≡ self.now) }
    {
        let vcpus = copies_of(alloc, self.vcpus.items())?;
        Ok(Host {
            tick_ns: self.tick_ns,
            cores: self.cores,
            lag: self.lag,
            sliver: self.sliver,
            quantum: self.quantum,
            vcpus: Vcpus::of(vcpus),
        })
    }
}

// The vCPUs once more.
fn copies_of(alloc: Global, vcpus: &[Vcpu]) -> Result<Vec<Vcpu>, NoMemory>
    ensures { IfOk result (λ made. made.items ≡ vcpus.now) }
{
    let mut made = Vec::with_capacity(alloc, vcpus.len())?;
    for vcpu in vcpus {
        made.push(Vcpu {
            name: vcpu.name.copy(alloc)?,
            reservation: vcpu.reservation,
            runnable: vcpu.runnable,
            capped: vcpu.capped,
        })?;
    }
    Ok(made)
}
