use std::alloc::Global;
use std::collections::{BTreeMap, BTreeSet};
use tab_core::{Name, Vcpu};
use tab_words::{Lines, Words, read_number};
use tool_input::{Fault, Input, ends_in_return, input_of, shown};

// The name of a vCPU, and the name that it has for the scheduler of a host.
#[derive(Drop)]
struct Renaming {
    from: Vec<u8>,
    to: Name,
}

/// The lines `NAME GUEST N` of a map, of which each names vCPU N of a guest: by a vCPU's name the one that it has for the
/// scheduler. A line without words and one that begins with `#` are passed over. There are none where no map is named.
pub(crate) fn renamings_of(
    rt: &HostRuntime,
    path: Option<&str>,
) -> Result<BTreeMap<Vec<u8>, Name, Global>, Fault> {
    let mut renamings = BTreeMap::new(rt.alloc());
    let Some(path) = path else {
        return Ok(renamings);
    };
    let Input { place, bytes } = input_of(rt, Some(path))?;
    let mut number = 0u32;
    for line in Lines::over(&bytes) {
        number = number.saturating_add(1);
        if line.starts_with(b"#") || Words::of(line).next().is_none() {
            continue;
        }
        let Some(Renaming { from, to }) = renaming_of(rt.alloc(), line)? else {
            return Err(bad_line(rt.alloc(), place, number, line));
        };
        if renamings.insert(from, to)?.is_some() {
            return Err(bad_line(rt.alloc(), place, number, line));
        }
    }
    Ok(renamings)
}

// The fault of a line that is none of a map, or names a vCPU again.
fn bad_line(alloc: Global, place: String, line: u32, text: &[u8]) -> Fault {
    if ends_in_return(text) {
        return Fault::Return {
            place,
            line: u64::from(line),
        };
    }
    match shown(alloc, text) {
        Ok(text) => Fault::BadMapLine { place, line, text },
        Err(_) => Fault::NoMemory,
    }
}

// What a line says, if it is one of a map.
fn renaming_of(alloc: Global, line: &[u8]) -> Result<Option<Renaming>, Fault> {
    let mut words = Words::of(line);
    let (Some(from), Some(guest), Some(number), None) = (
        words.next(),
        words.next(),
        words.next(),
        words.next(),
    ) else {
        return Ok(None);
    };
    if read_number(number).is_none() {
        return Ok(None);
    }
    let mut to = guest.to_vec(alloc)?;
    to.push(b'.')?;
    to.extend_from_slice(number)?;
    if !Name::has_form(from) || !Name::has_form(&to) {
        return Ok(None);
    }
    Ok(Some(Renaming {
        from: from.to_vec(alloc)?,
        to: name_of(alloc, &to)?,
    }))
}

// The bytes, which have the form of a name, as one.
fn name_of(alloc: Global, bytes: &[u8]) -> Result<Name, Fault> {
    match Name::of(alloc, bytes) {
        Ok(name) => Ok(name),
        Err(_) => Err(Fault::NoMemory),
    }
}

// The name that a vCPU has for the scheduler.
fn name_for(
    alloc: Global,
    renamings: &BTreeMap<Vec<u8>, Name, Global>,
    name: &[u8],
) -> Result<Name, Fault> {
    match renamings.get(name) {
        Some(to) => name_of(alloc, to.bytes()),
        None => name_of(alloc, name),
    }
}

/// Gives vCPUs the names that they have for the scheduler, of which no two may be one.
pub(crate) fn rename(
    alloc: Global,
    renamings: &BTreeMap<Vec<u8>, Name, Global>,
    names: &mut Vec<Name>,
) -> Result<(), Fault> {
    for at in 0..names.len() {
        let name = name_for(alloc, renamings, names[at].bytes())?;
        names[at] = name;
    }
    let mut found = BTreeSet::new(alloc);
    for name in names.iter() {
        if !found.insert(name.bytes())? {
            return Err(Fault::SameGuest {
                name: shown(alloc, name.bytes())?,
            });
        }
    }
    Ok(())
}

/// The vCPUs of a host by the names that they have for the scheduler.
pub(crate) fn renamed(
    alloc: Global,
    renamings: &BTreeMap<Vec<u8>, Name, Global>,
    vcpus: &[Vcpu],
) -> Result<Vec<Vcpu>, Fault> {
    let mut all = Vec::new(alloc);
    for vcpu in vcpus {
        all.push(Vcpu {
            name: name_for(alloc, renamings, vcpu.name.bytes())?,
            reservation: vcpu.reservation,
            runnable: vcpu.runnable,
            capped: vcpu.capped,
        })?;
    }
    Ok(all)
}
