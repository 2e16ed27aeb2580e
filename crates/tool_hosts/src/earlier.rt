//! The lines of an earlier placing, and the hosts on which VMs were by them.
ghost use Rattle.std.specs.Prelude.{◌≡◌, ◌<◌, ◌++◌, IfOk, OnOk, Some, [], ◌∷◌, false, length, replicate, slice_get, slice_set};
ghost use Rattle.fleet_place.specs.Deals.{with_vm};
ghost use Rattle.fleet_place.specs.Held.{Held};
ghost use Rattle.tool_hosts.specs.Earlier.{AreBack, PutBack, held_in, others_in};
ghost use Rattle.tool_hosts.specs.Inside.Turns.{IsTurn};

use crate::fleet::bad_line;
use crate::vms::{NamedVm, numbers_of};
use fleet_place::{Group, Vm};
use script_doc::is_skipped;
use std::alloc::Global;
use std::collections::BTreeMap;
use tab_core::NoMemory;
use tab_words::{Lines, Words, read_number};
use tool_input::{Fault, Input, ends_in_return, input_of};

/// A VM by its number, and the host on which it was.
#[derive(Clone, Copy)]
pub(crate) struct Stay {
    vm: usize,
    host: u64,
}

/// The VMs that were on hosts by the lines of a file, in their order; none without a file. A line of a VM that isn't there
/// any more is passed over. No two VMs may have one name.
pub(crate) fn stays_of(
    rt: &HostRuntime,
    path: Option<&str>,
    vms: &[NamedVm<'_>],
) -> Result<Vec<Stay>, Fault> {
    let numbers = numbers_of(rt.alloc(), vms)?;
    match path {
        Some(path) => stays_in(rt, path, &numbers),
        None => Ok(Vec::new(rt.alloc())),
    }
}

// The VMs that were on hosts by the lines of the file of this path.
fn stays_in(
    rt: &HostRuntime,
    path: &str,
    numbers: &BTreeMap<&[u8], usize, Global>,
) -> Result<Vec<Stay>, Fault> {
    let Input { place, bytes } = input_of(rt, Some(path))?;
    let mut stays = Vec::new(rt.alloc());
    let mut number = 0u32;
    for line in Lines::over(&bytes) {
        number = number.saturating_add(1);
        if is_skipped(line) {
            continue;
        }
        let Some((host, name)) = place_of_line(line) else {
            return Err(bad_line(
                rt.alloc(),
                place,
                number,
                line,
                "host NUMBER vm NAME, nor left vm NAME",
            ));
        };
        if let (Some(host), Some(vm)) = (host, numbers.get(name)) {
            stays.push(Stay { vm: *vm, host })?;
        }
    }
    Ok(stays)
}

// The host and the VM of a line of a placing: no host where the VM was left over. (A carriage return at its end would
// make another name of the VM's.)
fn place_of_line(line: &[u8]) -> Option<(Option<u64>, &[u8])> {
    if ends_in_return(line) {
        return None;
    }
    let mut words = Words::of(line);
    let (Some(first), Some(second), Some(third)) = (words.next(), words.next(), words.next()) else {
        return None;
    };
    let fourth = words.next();
    if words.next().is_some() {
        return None;
    }
    if first == b"left".as_slice() && second == b"vm".as_slice() && fourth.is_none() {
        return Some((None, third));
    }
    if first != b"host".as_slice() || third != b"vm".as_slice() {
        return None;
    }
    match (read_number(second), fourth) {
        (Some(host), Some(name)) => Some((Some(host), name)),
        _ => None,
    }
}

/// Puts the VMs that were on a host into its group, and gives the others in their order. A VM is on the first host that is
/// there of those that lines name for it, and with the others if none is.
pub(crate) fn put_back<'a>(
    alloc: Global,
    groups: &mut [Group<'a>],
    vms: &[Vm<'a>],
    stays: &[Stay],
) -> Result<Vec<Vm<'a>>, NoMemory>
    ensures { IfOk result (λ others. AreBack vms.now (held_in groups.old) stays.now (held_in groups.new) others.items) }
{
    let mut is_back = vec![in alloc; false; vms.len()]?;
    put_on(groups, vms, stays, &mut is_back)?;
    others_of(alloc, vms, &is_back)
}

// Puts the VMs that were on a host into its group, and notes which were.
fn put_on<'a>(
    groups: &mut [Group<'a>],
    vms: &[Vm<'a>],
    stays: &[Stay],
    is_back: &mut [bool],
) -> Result<(), NoMemory>
    requires { is_back.old ≡ replicate (length vms.now) false }
    ensures { OnOk result (PutBack vms.now (held_in groups.old) stays.now (held_in groups.new) is_back.new) }
{
    for stay in stays {
        put_stay(groups, vms, stay, is_back)?;
    }
    Ok(())
}

// Puts the VM of a line on its host, if both are there and the VM is on none yet.
fn put_stay<'a>(
    groups: &mut [Group<'a>],
    vms: &[Vm<'a>],
    stay: &Stay,
    is_back: &mut [bool],
) -> Result<(), NoMemory>
    requires { length is_back.old ≡ length vms.now }
    ensures { OnOk result (IsTurn vms.now stay.now (held_in groups.old) is_back.old (held_in groups.new) is_back.new) }
{
    let (vm, host) = (stay.vm, stay.host);
    if vm >= vms.len() {
        return Ok(());
    }
    if host >= groups.len() as u64 {
        return Ok(());
    }
    if is_back[vm] {
        return Ok(());
    }
    is_back[vm] = true;
    push_to(groups, host as usize, &vms[vm])?;
    Ok(())
}

// Puts a VM on the host of a number.
fn push_to<'a>(groups: &mut [Group<'a>], number: usize, vm: &Vm<'a>) -> Result<(), NoMemory>
    requires { number < length groups.old }
    ensures { OnOk result ((held : Held) → slice_get (held_in groups.old) number ≡ Some held
        → held_in groups.new ≡ slice_set (held_in groups.old) number (with_vm held vm.now)) }
{
    let group = &mut groups[number];
    group.vms.push(*vm)?;
    Ok(())
}

// The VMs that aren't back on a host.
fn others_of<'a>(alloc: Global, vms: &[Vm<'a>], is_back: &[bool]) -> Result<Vec<Vm<'a>>, NoMemory>
    requires { length is_back.now ≡ length vms.now }
    ensures { IfOk result (λ others. others.items ≡ others_in is_back.now vms.now) }
{
    let mut others = Vec::new(alloc);
    for (number, vm) in vms.iter().enumerate() {
        if !is_back[number] {
            others.push(*vm)?;
        }
    }
    Ok(others)
}
