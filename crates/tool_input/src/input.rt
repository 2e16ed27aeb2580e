ghost use Rattle.std.specs.Prelude.{◌≤◌, IfOk, length};
ghost use Rattle.tool_input.specs.declared.input.TheConstants.{LIMIT};

use crate::fault::Fault;
use crate::quote::place_of;
use std::alloc::Global;
use std::io::{ErrorKind, Read};
use std::{fs, io};

/// The most bytes that are read.
pub const LIMIT: usize = 67_108_864;

/// A text that was read.
#[derive(Drop)]
pub struct Input {
    /// The file's name with a colon and a space, as it is before a fault of the text; nothing for standard input.
    pub place: String,
    pub bytes: Vec<u8>,
    pub ghost few: { length bytes.items ≤ LIMIT },
}

/// All of the file of this path, or of standard input where there is none or the path is `-`.
pub fn input_of(rt: &HostRuntime, path: Option<&str>) -> Result<Input, Fault> {
    match path {
        None | Some("-") => read_whole(rt.alloc(), "", rt.reader()),
        Some(path) => match fs::open(rt, path) {
            Ok(file) => read_whole(rt.alloc(), path, file),
            Err(why) => Err(unread(rt.alloc(), named(path), why)),
        },
    }
}

// The name of a file as a fault shows it: quotes for the empty one, since nothing is standard input.
fn named(path: &str) -> &str {
    if path.is_empty() { "''" } else { path }
}

/// Refuses two files that are both standard input: a path that is missing, or `-`.
pub fn read_once(first: Option<&str>, second: Option<&str>) -> Result<(), Fault> {
    if is_input(first) && is_input(second) {
        return Err(Fault::TwoInputs);
    }
    Ok(())
}

/// All of the file of this path as `input_of` reads it, beside which another may be named: standard input can't be both.
pub fn input_beside(
    rt: &HostRuntime,
    path: Option<&str>,
    other: Option<&str>,
) -> Result<Input, Fault> {
    if other.is_some() {
        read_once(path, other)?;
    }
    input_of(rt, path)
}

fn is_input(path: Option<&str>) -> bool {
    matches!(path, None | Some("-"))
}

// All bytes of a reader, of which there are few enough.
fn read_whole<R: Read + Drop>(alloc: Global, path: &str, reader: R) -> Result<Input, Fault> {
    let mut bytes = Vec::new(alloc);
    let mut few = reader.take(LIMIT as u64 + 1);
    if let Err(why) = few.read_to_end(&mut bytes) {
        return Err(unread(alloc, path, why));
    }
    let place = place_of(alloc, path)?;
    if bytes.len() > LIMIT {
        return Err(Fault::TooLong { place });
    }
    Ok(Input { place, bytes })
}

/// Why a file of this path can't be opened or read, in the system's words.
pub fn unread(alloc: Global, path: &str, why: io::Error) -> Fault {
    if why.kind() == ErrorKind::OutOfMemory {
        return Fault::NoMemory;
    }
    match place_of(alloc, path) {
        Ok(place) => Fault::Unread { place, why },
        Err(_) => Fault::NoMemory,
    }
}
