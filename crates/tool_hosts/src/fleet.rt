//! The hosts of a fleet.
ghost use Rattle.std.specs.Prelude.{◌≡◌, ◌≤◌, IfOk, length};
ghost use Rattle.tab_core.specs.declared.TheConstants.{MAX_CORES};
ghost use Rattle.tool_hosts.specs.declared.fleet.TheConstants.{MAX_HOSTS};

use crate::hosts::cores_of;
use fleet_place::Group;
use script_doc::is_skipped;
use std::alloc::Global;
use tab_core::{MAX_CORES, NoMemory};
use tab_words::{Lines, Words, read_number};
use tool_input::{Fault, Input, ends_in_return, input_of, shown};

/// The most hosts of a fleet.
pub(crate) const MAX_HOSTS: usize = 65_535;

/// The hosts of a fleet, without VMs.
#[derive(Drop)]
pub(crate) struct Fleet<'a> {
    pub(crate) hosts: Vec<Group<'a>>,
    pub(crate) ghost some: { 1 ≤ length hosts.items },
    pub(crate) ghost few: { length hosts.items ≤ MAX_HOSTS },
}

/// The hosts that the words name: so many of so many cores, or those of a file of kinds.
pub(crate) fn fleet_of<'a>(
    rt: &HostRuntime,
    kinds: Option<&str>,
    count: Option<u32>,
    cores: Option<u32>,
) -> Result<Fleet<'a>, Fault> {
    match (kinds, count, cores) {
        (Some(path), None, None) => fleet_of_kinds(rt, path),
        (None, Some(count), Some(cores)) => fleet_alike(rt.alloc(), count, cores),
        _ => Err(Fault::NoFleet),
    }
}

// So many hosts of so many cores. (The words were refused if their count is out of its range.)
fn fleet_alike<'a>(alloc: Global, count: u32, cores: u32) -> Result<Fleet<'a>, Fault> {
    let count = (count as usize).clamp(1, MAX_HOSTS);
    let hosts = alike(alloc, cores_of(Some(cores))?, count)?;
    Ok(Fleet { hosts })
}

/// So many hosts of so many cores, without VMs.
pub(crate) fn alike<'a>(alloc: Global, cores: u32, count: usize) -> Result<Vec<Group<'a>>, NoMemory>
    requires some { 1 ≤ cores }
    requires few { cores ≤ MAX_CORES }
    ensures { IfOk result (λ hosts. length hosts.items ≡ count) }
{
    let mut hosts = Vec::with_capacity(alloc, count)?;
    for _ in 0..count {
        hosts.push(Group {
            cores,
            vms: Vec::new(alloc),
        })?;
    }
    Ok(hosts)
}

// The hosts of the file of kinds, in the order of its lines KIND CORES COUNT.
fn fleet_of_kinds<'a>(rt: &HostRuntime, path: &str) -> Result<Fleet<'a>, Fault> {
    let Input { place, bytes } = input_of(rt, Some(path))?;
    let mut hosts = Vec::new(rt.alloc());
    let mut number = 0u32;
    for line in Lines::over(&bytes) {
        number = number.saturating_add(1);
        if is_skipped(line) {
            continue;
        }
        let Some(kind) = kind_of(line) else {
            return Err(bad_line(
                rt.alloc(),
                place,
                number,
                line,
                "KIND CORES COUNT, with 1 to 32 cores and 1 to 65535 hosts",
            ));
        };
        if hosts.len() + kind.count > MAX_HOSTS {
            return Err(Fault::TooManyHosts { place });
        }
        let mut more = alike(rt.alloc(), kind.cores, kind.count)?;
        hosts.append(&mut more)?;
    }
    if hosts.is_empty() {
        return Err(Fault::NoHosts { place });
    }
    Ok(Fleet { hosts })
}

// So many hosts of so many cores.
#[derive(Clone, Copy)]
struct Kind {
    cores: u32,
    count: usize,
    ghost some_core: { 1 ≤ cores },
    ghost few_cores: { cores ≤ MAX_CORES },
    ghost few_hosts: { count ≤ MAX_HOSTS },
}

// What a line of kinds says, if it is one.
fn kind_of(line: &[u8]) -> Option<Kind> {
    let mut words = Words::of(line);
    let (Some(_), Some(cores), Some(count), None) = (
        words.next(),
        words.next(),
        words.next(),
        words.next(),
    ) else {
        return None;
    };
    let (Some(cores), Some(count)) = (read_number(cores), read_number(count)) else {
        return None;
    };
    if cores < 1 || cores > u64::from(MAX_CORES) || count < 1 || count > MAX_HOSTS as u64 {
        return None;
    }
    Some(Kind {
        cores: cores as u32,
        count: count as usize,
    })
}

/// The fault of a line that isn't as it has to be, or ends in a carriage return.
pub(crate) fn bad_line(
    alloc: Global,
    place: String,
    line: u32,
    text: &[u8],
    wanted: &'static str,
) -> Fault {
    if ends_in_return(text) {
        return Fault::Return {
            place,
            line: u64::from(line),
        };
    }
    match shown(alloc, text) {
        Ok(text) => Fault::BadFleetLine {
            place,
            line,
            wanted,
            text,
        },
        Err(_) => Fault::NoMemory,
    }
}
