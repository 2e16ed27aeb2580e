//! The trace of another host.

use std::alloc::Global;
use tool_input::{Fault, Input, ends_in_return, line_of, shown, trace_fault};
use view_trace::{HostTrace, LineCause, TraceFault, read_trace};

/// A host's trace, as it is drawn.
pub(crate) fn trace_of(alloc: Global, input: Input) -> Result<HostTrace, Fault> {
    match read_trace(alloc, &input.bytes) {
        Ok(trace) => Ok(trace),
        Err(fault) => Err(fault_of(alloc, input, fault)),
    }
}

// Why it isn't drawn, with the name of its file.
fn fault_of(alloc: Global, input: Input, fault: TraceFault) -> Fault {
    let Input { place, bytes } = input;
    let (line, why) = match fault {
        TraceFault::NoMemory => return Fault::NoMemory,
        TraceFault::TooLong => return Fault::LastingTrace { place },
        TraceFault::BadLine { line, cause } => (line, why_of(cause)),
        TraceFault::Shared { line } => (line, Some("runs a vCPU on a CPU on which another runs")),
        TraceFault::Short { line, .. } => {
            (
                line,
                Some("runs a vCPU for less than a tick of so long a trace"),
            )
        }
    };
    let number = u32::try_from(line).unwrap_or(u32::MAX);
    let text = line_of(&bytes, number).unwrap_or_default();
    if ends_in_return(text) {
        return Fault::Return { place, line };
    }
    let Ok(quote) = shown(alloc, text) else {
        return Fault::NoMemory;
    };
    match why {
        Some(why) => Fault::UndrawnLine {
            place,
            line,
            why,
            text: quote,
        },
        None => Fault::BadTraceLine {
            place,
            line,
            why: trace_fault(text).unwrap_or("it isn't whole"),
            text: quote,
        },
    }
}

// What a line does that can't be drawn; none where it has no form of a line.
fn why_of(cause: LineCause) -> Option<&'static str> {
    match cause {
        LineCause::NoForm => None,
        LineCause::Falls => Some("has a time before that of a line above it"),
        LineCause::NoName => Some("names a vCPU by what is no name"),
        LineCause::ManyVcpus => Some("names one vCPU more than 256"),
        LineCause::NoCpu => Some("runs a vCPU and names no CPU"),
        LineCause::HighCpu => Some("runs a vCPU on a CPU with a number above 31"),
    }
}
