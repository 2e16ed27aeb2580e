use crate::fault::Fault;
use crate::quote::{ends_in_return, line_of, shown};
use std::alloc::Global;
use tab_words::Lines;

/// What a command wants to read.
#[derive(Clone, Copy)]
pub enum Wanted {
    /// A plan alone.
    Plan,
    /// A plan of the host before it.
    HostPlan,
    /// A plan, a replay or a trace.
    View,
    /// The report of a run.
    Report,
}

/// The fault of a text that isn't what is wanted, by its first bad line. A text of another kind, given by mistake, is said
/// to be that: a refusal, a host document, a report, or JSON. Where the line ends in a carriage return, or a line of the
/// text is `%%` before one, that is said.
pub fn bad_line(alloc: Global, place: &str, bytes: &[u8], line: u32, wanted: Wanted) -> Fault {
    let Ok(place) = String::from_str(alloc, place) else {
        return Fault::NoMemory;
    };
    let first = first_line(bytes);
    if let Some(refusal) = first.strip_prefix(b"refused: ") {
        return match shown(alloc, refusal) {
            Ok(refusal) => Fault::Refused { place, refusal },
            Err(_) => Fault::NoMemory,
        };
    }
    if let Some(line) = cut_in_return(bytes) {
        return Fault::Return { place, line };
    }
    if let Some(what) = other_kind(first, wanted) {
        return Fault::OtherText { place, what };
    }
    let Some(text) = line_of(bytes, line) else {
        return Fault::EndsEarly { place, line };
    };
    if ends_in_return(text) {
        return Fault::Return {
            place,
            line: u64::from(line),
        };
    }
    match shown(alloc, text) {
        Ok(text) => match wanted {
            Wanted::Plan => Fault::BadPlanLine { place, line, text },
            Wanted::HostPlan => Fault::BadHostPlanLine { place, line, text },
            Wanted::View => Fault::BadLine { place, line, text },
            Wanted::Report => Fault::BadReportLine { place, line, text },
        },
        Err(_) => Fault::NoMemory,
    }
}

/// The fault of so many sections, which aren't a host and its plan.
pub fn no_host(place: String, bytes: &[u8], count: u32) -> Fault {
    match cut_in_return(bytes) {
        Some(line) => Fault::Return { place, line },
        None => Fault::NoHost { place, count },
    }
}

/// The first line, from 1, that is `%%` before a carriage return, which parts no sections.
pub fn cut_in_return(bytes: &[u8]) -> Option<u64> {
    let mut number = 0u64;
    for line in Lines::over(bytes) {
        number = number.saturating_add(1);
        if line == b"%%\r".as_slice() {
            return Some(number);
        }
    }
    None
}

// The first line that says something: it isn't blank, and no remark of a host document.
fn first_line(bytes: &[u8]) -> &[u8] {
    for line in Lines::over(bytes) {
        let line = line.trim_ascii();
        if !line.is_empty() && !line.starts_with(b"#") {
            return line;
        }
    }
    &[]
}

// What a text is that begins with this line, where it is one of those that are given by mistake.
fn other_kind(first: &[u8], wanted: Wanted) -> Option<&'static str> {
    if first.starts_with(b"[[vcpu]]") || is_of_host(first) {
        return Some("it is a host document: tableau plan makes a plan of it");
    }
    if first.starts_with(b"{") || first.starts_with(b"[") {
        return Some("it is JSON, which is written here and not read");
    }
    if !first.starts_with(b"run ") {
        return None;
    }
    match wanted {
        Wanted::Plan | Wanted::HostPlan => Some(
            "it is the report of a run, and no plan: table --json and table --csv write it",
        ),
        Wanted::View => {
            Some("it is a report without its trace: tableau run ROUNDS trace writes one")
        }
        Wanted::Report => None,
    }
}

// The keys with which a host document may begin.
const HOST_KEYS: [&[u8]; 7] = [
    b"format", b"tick_ns", b"cores", b"lag", b"sliver", b"quantum", b"vcpu",
];

// Whether the line gives a key of a host document a value.
fn is_of_host(line: &[u8]) -> bool {
    for key in HOST_KEYS {
        if is_key(line, key) {
            return true;
        }
    }
    false
}

// Whether the line gives this key a value.
fn is_key(line: &[u8], key: &[u8]) -> bool {
    match line.strip_prefix(key) {
        Some(rest) => rest.trim_ascii_start().starts_with(b"="),
        None => false,
    }
}
