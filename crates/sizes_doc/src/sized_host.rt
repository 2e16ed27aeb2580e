ghost use Rattle.std.specs.Prelude.{◌≡◌, ◌<◌, ◌≤◌, ◌⊎◌, ◌++◌, ◌*◌, ◌+◌, All, IfErr, IfOk, IsSome, MatchOption, OnOk, length};
ghost use Rattle.tab_core.specs.Name.{IsName};
ghost use Rattle.tab_core.specs.declared.TheConstants.{MAX_CORES, MAX_TICK_NS, MAX_VCPUS, MIN_TICK_NS};
ghost use Rattle.sizes_doc.specs.SizedHost.{HasBadName, HasSizesFault, IsHostOfSizes, IsNamed, machine_vcpus, size_vcpus, sized_vcpu, sizes_vcpus, vcpu_name};
ghost use Rattle.sizes_doc.specs.declared.fault.SizesFault.TheVariants.{NoMemory, BadName};

use crate::fault::SizesFault;
use crate::size::Size;
use crate::twice::first_twice;
use std::alloc::Global;
use tab_core::{Host, MAX_VCPUS, Name, NameFault, Vcpu, Vcpus};

/// The host of these sizes, with so many cores, 1 to 32: the vCPUs of the first size's VMs, one VM
/// after the other, then those of the next size. A tick has `tick_ns` nanoseconds, 500 to 2002; the lag
/// is 1000 ticks, the sliver 30 and the quantum 1000. Each vCPU is admitted and runnable, and capped if
/// its size is.
///
/// The vCPUs of VM K of a size are named NAME-K.0, NAME-K.1 and so on, with K from 0, and those of one
/// VM with a name of its own NAME.0, NAME.1 and so on.
///
/// `TooMany` comes only where the sizes have more than 256 vCPUs, `BadName` where a vCPU would have a
/// name that isn't of the form of one, and `SameName` where two would have one name.
pub fn host_of_sizes(
    alloc: Global,
    cores: u32,
    tick_ns: u32,
    sizes: &[Size<'_>],
) -> Result<Host, SizesFault>
    requires some_core { 1 ≤ cores }
    requires few_cores { cores ≤ MAX_CORES }
    requires least_tick { MIN_TICK_NS ≤ tick_ns }
    requires most_tick { tick_ns ≤ MAX_TICK_NS }
    ensures host { IfOk result (IsHostOfSizes cores tick_ns sizes.now) }
    ensures admitted { IfOk result (λ host. All (λ vcpu. IsSome vcpu.reservation) host.vcpus) }
    ensures fault { IfErr result (λ fault. (fault ≡ NoMemory) ⊎ HasSizesFault sizes.now fault) }
{
    let vcpus = vcpus_of(alloc, sizes)?;
    if let Some(vcpu) = first_twice(alloc, vcpus.as_slice())? {
        return Err(SizesFault::SameName { vcpu });
    }
    Ok(Host {
        tick_ns,
        cores,
        lag: 1000,
        sliver: 30,
        quantum: 1000,
        vcpus: Vcpus::of(vcpus),
    })
}

/// The name of the vCPU of this number, from 0, of those that the sizes make, if there are so many. `SameName` of
/// `host_of_sizes` has such a number. The other faults are those of `host_of_sizes`.
pub fn name_in_sizes(
    alloc: Global,
    sizes: &[Size<'_>],
    vcpu: u32,
) -> Result<Option<Vec<u8>>, SizesFault>
    ensures name { IfOk result (λ found. MatchOption found (length (sizes_vcpus sizes.now) ≤ vcpu)
        (λ name. IsNamed (sizes_vcpus sizes.now) vcpu name.items)) }
    ensures fault { IfErr result (λ fault. (fault ≡ NoMemory) ⊎ HasSizesFault sizes.now fault) }
{
    let vcpus = vcpus_of(alloc, sizes)?;
    match vcpus.get(vcpu as usize) {
        Some(found) => Ok(Some(found.name.bytes().to_vec(alloc)?)),
        None => Ok(None),
    }
}

// The vCPUs of these sizes, one after the other.
fn vcpus_of(alloc: Global, sizes: &[Size<'_>]) -> Result<Vec<Vcpu>, SizesFault>
    ensures vcpus { IfOk result (λ vcpus. vcpus.items ≡ sizes_vcpus sizes.now) }
    ensures few { IfOk result (λ vcpus. length vcpus.items ≤ MAX_VCPUS) }
    ensures fault { IfErr result (λ fault. (fault ≡ NoMemory) ⊎ HasSizesFault sizes.now fault) }
{
    let mut vcpus = Vec::new(alloc);
    for size in sizes {
        if vcpus.len() + (size.machines * size.vcpus) as usize > MAX_VCPUS as usize {
            return Err(SizesFault::TooMany { line: size.line });
        }
        push_size(alloc, &mut vcpus, size)?;
    }
    Ok(vcpus)
}

// Pushes the vCPUs of all VMs of a size.
fn push_size(alloc: Global, vcpus: &mut Vec<Vcpu>, size: &Size<'_>) -> Result<(), SizesFault>
    ensures ok { OnOk result (vcpus.new.items ≡ vcpus.old.items ++ size_vcpus size.now) }
    ensures fault { IfErr result (λ fault. (fault ≡ NoMemory)
        ⊎ ((fault ≡ BadName size.now.line) × HasBadName size.now)) }
{
    for machine in 0..size.machines {
        push_machine(alloc, vcpus, size, machine)?;
    }
    Ok(())
}

// Pushes the vCPUs of the VM of this number.
fn push_machine(
    alloc: Global,
    vcpus: &mut Vec<Vcpu>,
    size: &Size<'_>,
    machine: u32,
) -> Result<(), SizesFault>
    requires { machine < size.now.machines }
    ensures ok { OnOk result (vcpus.new.items ≡ vcpus.old.items ++ machine_vcpus size.now machine) }
    ensures fault { IfErr result (λ fault. (fault ≡ NoMemory)
        ⊎ ((fault ≡ BadName size.now.line) × HasBadName size.now)) }
{
    for number in 0..size.vcpus {
        let vcpu = vcpu_of(alloc, size, machine, number)?;
        vcpus.push(vcpu)?;
    }
    Ok(())
}

// The vCPU of this number of the VM of this number.
fn vcpu_of(alloc: Global, size: &Size<'_>, machine: u32, number: u32) -> Result<Vcpu, SizesFault>
    ensures ok { IfOk result (λ vcpu. vcpu ≡ sized_vcpu size.now machine number) }
    ensures fault { IfErr result (λ fault. (fault ≡ NoMemory)
        ⊎ ((fault ≡ BadName size.now.line) × ¬ (IsName (vcpu_name size.now machine number)))) }
{
    let name = name_of(alloc, size, machine, number)?;
    Ok(Vcpu {
        name,
        reservation: Some(size.reservation),
        runnable: true,
        capped: size.capped,
    })
}

// Its name.
fn name_of(alloc: Global, size: &Size<'_>, machine: u32, number: u32) -> Result<Name, SizesFault>
    ensures ok { IfOk result (λ name. name ≡ vcpu_name size.now machine number) }
    ensures fault { IfErr result (λ fault. (fault ≡ NoMemory)
        ⊎ ((fault ≡ BadName size.now.line) × ¬ (IsName (vcpu_name size.now machine number)))) }
{
    let mut bytes = size.name.to_vec(alloc)?;
    if !size.alone {
        let middle = format!(in alloc; "-{machine}")?;
        bytes.extend_from_slice(middle.as_bytes())?;
    }
    let end = format!(in alloc; ".{number}")?;
    bytes.extend_from_slice(end.as_bytes())?;
    match Name::of(alloc, bytes.as_slice()) {
        Ok(name) => Ok(name),
        Err(NameFault::NoMemory) => Err(SizesFault::NoMemory),
        Err(NameFault::BadName) => Err(SizesFault::BadName { line: size.line }),
    }
}
