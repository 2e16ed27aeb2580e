ghost use Rattle.std.specs.Prelude.{◌≡◌, ◌<◌, ◌≤◌, IfOk, IfSome, length, option_map};
ghost use Rattle.tool_hosts.specs.Windows.{IsWindow, IsWindowTime};
ghost use Rattle.tab_core.specs.declared.TheConstants.{MAX_VCPUS};

use crate::promises::owed_of;
use host_judge::{JudgeFault, Owed, Report, judge_trace};
use script_doc::is_skipped;
use sizes_doc::read_time_or;
use std::alloc::Global;
use std::fs;
use std::io::Read;
use tab_core::Vcpu;
use tab_io::StdSource;
use tab_words::Lines;
use tool_input::{
    Fault, Input, ends_in_return, finish, host_of, input_of, output_of, place_of, read_once, shown,
    trace_fault, unread,
};
use view_judge::{Verdict, verdict_of, write_json, write_tables};

// Nanoseconds of a millisecond.
const MILLI_NS: u64 = 1_000_000;

// Nanoseconds of a window where the words name none, and of the shortest and the longest one.
const WINDOW_NS: u64 = 1_000_000_000;

const LEAST_NS: u64 = MILLI_NS;

const MOST_NS: u64 = 3_600_000_000_000;

/// What the words of `judge` say.
#[derive(Clone, Copy)]
pub struct JudgeWords<'w> {
    /// The file of the host.
    pub host: Option<&'w str>,
    /// The file of the trace; standard input where there is none.
    pub trace: Option<&'w str>,
    /// The file of the host's plan, where shares are judged by that.
    pub plan: Option<&'w str>,
    /// How long a window is: milliseconds, or a time with its unit.
    pub window: Option<&'w str>,
    /// Whether JSON is written.
    pub is_json: bool,
}

/// Does `judge`: it reads a host, a plan where one is named, and a trace of what ran, and writes whether the host kept its
/// promises, which is what it answers.
pub fn judge(rt: &HostRuntime, words: &JudgeWords<'_>) -> Result<Verdict, Fault> {
    read_once(words.host, words.trace)?;
    if words.plan.is_some() {
        read_once(words.plan, words.trace)?;
        read_once(words.plan, words.host)?;
    }
    let Input { place, bytes } = input_of(rt, words.host)?;
    if is_trace(&bytes) {
        return Err(Fault::OtherText {
            place,
            what: "it is a trace, and the host comes first: tableau-tools judge HOST TRACE",
        });
    }
    let host = host_of(rt.alloc(), &place, &bytes)?;
    let vcpus = host.vcpus.items();
    let window_ns = window_of(rt.alloc(), words.window)?;
    let owed = owed_of(rt, words.plan, vcpus, host.tick_ns)?;
    let report = match words.trace {
        None | Some("-") => report_of(rt.alloc(), "", rt.reader(), vcpus, &owed, window_ns)?,
        Some(path) => match fs::open(rt, path) {
            Ok(file) => report_of(rt.alloc(), path, file, vcpus, &owed, window_ns)?,
            Err(why) => return Err(unread(rt.alloc(), path, why)),
        },
    };
    put_report(rt, words.is_json, vcpus, &report)?;
    Ok(verdict_of(&report))
}

// Whether the first line that says something is of a trace.
fn is_trace(text: &[u8]) -> bool {
    for line in Lines::over(text) {
        if !is_skipped(line) {
            return line.starts_with(b"TIME_NS,") || trace_fault(line).is_none();
        }
    }
    false
}

// Nanoseconds of a window: those that a word names, or a second without one.
fn window_of(alloc: Global, word: Option<&str>) -> Result<u64, Fault>
    ensures window { IfOk result (IsWindow (option_map (λ text. text.now) word.entry)) }
    ensures some { IfOk result (λ ns. 0 < ns) }
{
    let Some(word) = word else {
        return Ok(WINDOW_NS);
    };
    match window_in(word.as_bytes()) {
        Some(ns) => Ok(ns),
        None => Err(Fault::BadWindow {
            text: shown(alloc, word.as_bytes())?,
        }),
    }
}

// Nanoseconds of the window that a word names, if they are those of one.
fn window_in(word: &[u8]) -> Option<u64>
    ensures window { IfSome result (IsWindowTime word.now) }
    ensures some { IfSome result (λ ns. 0 < ns) }
{
    let Some(ns) = read_time_or(word, MILLI_NS) else {
        return None;
    };
    if ns < LEAST_NS || ns > MOST_NS {
        return None;
    }
    Some(ns)
}

// What is said of a trace, which is read in one pass. The path is that of its file, or nothing for standard input.
fn report_of<R: Read + Drop>(
    alloc: Global,
    path: &str,
    reader: R,
    vcpus: &[Vcpu],
    owed: &[Option<Owed>],
    window_ns: u64,
) -> Result<Report, Fault>
    requires few { length vcpus.now ≤ MAX_VCPUS }
    requires owed { length owed.now ≡ length vcpus.now }
    requires some { 0 < window_ns }
{
    let mut source = StdSource::of(reader);
    match judge_trace(alloc, &mut source, vcpus, owed, window_ns) {
        Ok(report) => Ok(report),
        Err(fault) => Err(fault_of(alloc, path, fault)),
    }
}

// Why a trace isn't judged, with the name of its file.
fn fault_of(alloc: Global, path: &str, fault: JudgeFault) -> Fault {
    let Ok(place) = place_of(alloc, path) else {
        return Fault::NoMemory;
    };
    match fault {
        JudgeFault::BadLine { line, text } if ends_in_return(&text) => Fault::Return {
            place,
            line,
        },
        JudgeFault::BadLine { line, text } => match shown(alloc, &text) {
            Ok(shown) => Fault::BadTraceLine {
                place,
                line,
                why: trace_fault(&text).unwrap_or("it isn't whole"),
                text: shown,
            },
            Err(_) => Fault::NoMemory,
        },
        JudgeFault::ReadFault => Fault::ReadFault { place },
        JudgeFault::TooLong => Fault::LongTrace { place },
        JudgeFault::NoMemory => Fault::NoMemory,
    }
}

// Writes it to standard output, as JSON or as tables.
fn put_report(
    rt: &HostRuntime,
    is_json: bool,
    vcpus: &[Vcpu],
    report: &Report,
) -> Result<(), Fault> {
    let mut sink = output_of(rt)?;
    if is_json {
        write_json(&mut sink, vcpus, report)?;
    } else {
        write_tables(&mut sink, vcpus, report)?;
    }
    finish(&mut sink)
}
