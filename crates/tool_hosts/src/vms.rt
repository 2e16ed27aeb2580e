//! The VMs of sizes, each by itself.
ghost use Rattle.std.specs.Prelude.{◌<◌, ◌≤◌, ◌^◌, IfOk, length};
ghost use Rattle.tab_core.specs.declared.TheConstants.{MAX_TICK_NS, MIN_TICK_NS};
ghost use Rattle.tool_hosts.specs.declared.vms.TheConstants.{MAX_VMS};

use crate::hosts::sizes_of;
use fleet_place::Vm;
use sizes_doc::Size;
use std::alloc::{AllocError, Global};
use std::collections::BTreeMap;
use tool_input::{Fault, shown};

/// The most VMs of a fleet: each of 65,535 hosts has at most 256 vCPUs.
pub(crate) const MAX_VMS: usize = 16_776_960;

/// A VM of a size, and the name that it has by itself.
#[derive(Drop)]
pub(crate) struct NamedVm<'a> {
    name: Vec<u8>,
    size: Size<'a>,
}

impl<'a> NamedVm<'a> {
    // Its size, as that of one VM of this name.
    fn alone(&self) -> Size<'_> {
        Size {
            line: self.size.line,
            alone: true,
            name: &self.name,
            machines: 1,
            vcpus: self.size.vcpus,
            reservation: self.size.reservation,
            capped: self.size.capped,
        }
    }
}

/// All VMs of the sizes of a text, each under its name: that of its size, with its number after it where there may be
/// several. Without a size the text is refused, unless it may be empty.
pub(crate) fn named_vms(alloc: Global, text: &[u8], empty: bool) -> Result<Vec<NamedVm<'_>>, Fault>
    requires { length text.now < 2 ^ 32 }
    ensures { IfOk result (λ vms. length vms.items ≤ MAX_VMS) }
{
    let sizes = sizes_of(alloc, text, empty)?;
    vms_of_sizes(alloc, &sizes)
}

// All VMs of the sizes.
fn vms_of_sizes<'a>(alloc: Global, sizes: &[Size<'a>]) -> Result<Vec<NamedVm<'a>>, Fault>
    ensures { IfOk result (λ vms. length vms.items ≤ MAX_VMS) }
{
    let mut vms = Vec::new(alloc);
    for size in sizes {
        for machine in 0..size.machines {
            if vms.len() >= MAX_VMS {
                return Err(Fault::TooManyVms);
            }
            vms.push(named_vm(alloc, size, machine)?)?;
        }
    }
    Ok(vms)
}

// The VM of this number of a size.
fn named_vm<'a>(alloc: Global, size: &Size<'a>, machine: u32) -> Result<NamedVm<'a>, AllocError> {
    let mut name = size.name.to_vec(alloc)?;
    if !size.alone {
        let end = format!(in alloc; "-{machine}")?;
        name.extend_from_slice(end.as_bytes())?;
    }
    Ok(NamedVm { name, size: *size })
}

/// The VMs as they are placed, numbered from 0.
pub(crate) fn vms_of<'a>(
    alloc: Global,
    tick_ns: u32,
    named: &'a [NamedVm<'_>],
) -> Result<Vec<Vm<'a>>, Fault>
    requires few { length named.now ≤ MAX_VMS }
    requires least_tick { MIN_TICK_NS ≤ tick_ns }
    requires most_tick { tick_ns ≤ MAX_TICK_NS }
{
    let mut vms = Vec::with_capacity(alloc, named.len())?;
    for (number, vm) in named.iter().enumerate() {
        match Vm::of(number as u32, tick_ns, &vm.alone()) {
            Some(vm) => vms.push(vm)?,
            None => {
                return Err(Fault::NoPeriod {
                    name: shown(alloc, &vm.name)?,
                });
            }
        }
    }
    Ok(vms)
}

/// The names of VMs, each once, with their numbers.
pub(crate) fn numbers_of<'a>(
    alloc: Global,
    named: &'a [NamedVm<'_>],
) -> Result<BTreeMap<&'a [u8], usize, Global>, Fault> {
    let mut numbers = BTreeMap::new(alloc);
    for (number, vm) in named.iter().enumerate() {
        if numbers.insert(vm.name.as_slice(), number)?.is_some() {
            return Err(Fault::SameVm {
                name: shown(alloc, &vm.name)?,
            });
        }
    }
    Ok(numbers)
}
