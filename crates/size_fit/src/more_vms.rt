ghost use Rattle.std.specs.Prelude.{◌≡◌, ◌+◌, ◌*◌, ◌<◌, ◌≤◌, ◌++◌, [], ◌∷◌, IfOk, OnOk, length, map};
ghost use Rattle.tab_core.specs.declared.TheConstants.{MAX_VCPUS};
ghost use Rattle.size_fit.specs.Inside.Numbered.{AreNumbered, number_name};
ghost use Rattle.size_fit.specs.MoreVms.{HasMoreVms, nameless};

use sizes_doc::Size;
use std::alloc::{AllocError, Global};
use tab_core::{Host, Name, NameFault, NoMemory, Reservation, Vcpu, Vcpus};

// The host with so many more VMs of the size, and its vCPUs named by their numbers.
pub(crate) fn host_with(
    alloc: Global,
    host: &Host,
    size: &Size<'_>,
    count: u32,
) -> Result<Host, NoMemory>
    requires { length host.now.vcpus + count * size.now.vcpus ≤ MAX_VCPUS }
    ensures { IfOk result (HasMoreVms host.now size.now count) }
{
    let mut vcpus = renamed(alloc, host.vcpus.items())?;
    for more in 0..count * size.vcpus {
        push_vcpu(alloc, &mut vcpus, Some(size.reservation), true, size.capped)?;
    }
    Ok(Host {
        tick_ns: host.tick_ns,
        cores: host.cores,
        lag: host.lag,
        sliver: host.sliver,
        quantum: host.quantum,
        vcpus: Vcpus::of(vcpus),
    })
}

// The vCPUs with more VMs of a size, each named by its number.
fn renamed(alloc: Global, vcpus: &[Vcpu]) -> Result<Vec<Vcpu>, NoMemory>
    requires { length vcpus.now ≤ MAX_VCPUS }
    ensures same { IfOk result (λ renamed. map nameless renamed.items ≡ map nameless vcpus.now) }
    ensures named { IfOk result (λ renamed. AreNumbered renamed.items) }
{
    let mut renamed = Vec::with_capacity(alloc, vcpus.len())?;
    for vcpu in vcpus {
        push_vcpu(
            alloc,
            &mut renamed,
            vcpu.reservation,
            vcpu.runnable,
            vcpu.capped,
        )?;
    }
    Ok(renamed)
}

// Pushes a vCPU, named by its number.
fn push_vcpu(
    alloc: Global,
    vcpus: &mut Vec<Vcpu>,
    reservation: Option<Reservation>,
    runnable: bool,
    capped: bool,
) -> Result<(), NoMemory>
    requires few { length vcpus.old.items < MAX_VCPUS }
    requires before { AreNumbered vcpus.old.items }
    ensures more { OnOk result (map nameless vcpus.new.items
        ≡ map nameless vcpus.old.items ++ record { reservation = reservation; runnable = runnable; capped = capped } ∷ []) }
    ensures named { OnOk result (AreNumbered vcpus.new.items) }
{
    let name = number_name(alloc, vcpus.len() as u32)?;
    vcpus.push(Vcpu {
        name,
        reservation,
        runnable,
        capped,
    })?;
    Ok(())
}

// The name of the vCPU of a number.
fn number_name(alloc: Global, number: u32) -> Result<Name, NoMemory>
    requires { number < MAX_VCPUS }
    ensures { IfOk result (λ name. name ≡ number_name number) }
{
    let text = format!(in alloc; "v{number}")?;
    match Name::of(alloc, text.as_bytes()) {
        Ok(name) => Ok(name),
        Err(NameFault::NoMemory) => Err(AllocError),
        Err(NameFault::BadName) => unreachable!(),
    }
}
