//! The text of a run: the last section of a text, before which may be its host, or its host and its script.
ghost use Rattle.std.specs.Prelude.{◌<◌, ◌≤◌, ◌^◌, IfOk, length};
ghost use Rattle.view_report.specs.Reports.{IsReportOfText};

use crate::fault::Fault;
use crate::input::Input;
use crate::mistaken::{Wanted, bad_line};
use crate::plan::host_of;
use crate::planned::tick_of;
use std::alloc::Global;
use tab_words::cut_sections;
use view_report::{ReportFault, RunReport, read_report};

/// The last section of a text of less than 2^31 bytes.
pub fn last_part(bytes: &[u8]) -> &[u8]
    requires { length bytes.now < 2 ^ 31 }
    ensures { length result.now ≤ length bytes.now }
{
    let sections = cut_sections(bytes);
    match sections.count() {
        0 => &[],
        count => sections.part(count - 1),
    }
}

/// Nanoseconds of a tick of the run in a text: those of the host before it, or those that are asked for, which is refused
/// beside a host.
pub fn run_tick(rt: &HostRuntime, asked: Option<u32>, input: &Input) -> Result<u32, Fault> {
    let sections = cut_sections(&input.bytes);
    match sections.count() {
        1 => tick_of(rt, asked, None),
        2 | 3 => {
            let host = host_of(rt.alloc(), &input.place, sections.part(0))?;
            tick_of(rt, asked, Some(host.tick_ns))
        }
        count => Err(Fault::NoRun {
            place: String::from_str(rt.alloc(), &input.place)?,
            count,
        }),
    }
}

/// The report that a text of less than 2^31 bytes ends with. The place is that of a fault.
pub fn report_in<'a>(alloc: Global, place: &str, bytes: &'a [u8]) -> Result<RunReport<'a>, Fault>
    requires { length bytes.now < 2 ^ 31 }
    ensures { IfOk result (IsReportOfText bytes.now) }
{
    match read_report(alloc, bytes) {
        Ok(report) => Ok(report),
        Err(ReportFault::BadLine { line }) => Err(bad_line(
            alloc,
            place,
            bytes,
            line,
            Wanted::Report,
        )),
        Err(ReportFault::NoMemory) => Err(Fault::NoMemory),
    }
}
