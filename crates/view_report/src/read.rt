ghost use Rattle.std.specs.Prelude.{◌≡◌, ℕ, ◌<◌, ◌^◌, IfOk, IsErrOf, length};
ghost use Rattle.std.specs.List.{list_any};
ghost use Rattle.tab_words.specs.Texts.{worded};
ghost use Rattle.view_report.specs.Lines.{begins_run};
ghost use Rattle.view_report.specs.Reports.{IsFirstWrongLine, IsReportOfText};

use crate::fault::ReportFault;
use crate::line::{begins_run, said_of};
use crate::reader::Reader;
use crate::report::RunReport;
use std::alloc::Global;
use tab_words::Lines;

/// Whether a line of the text begins with the word `run`, as a report does, and no line of a plan.
pub fn has_report(bytes: &[u8]) -> bool
    ensures { result ≡ list_any begins_run (worded bytes.now) }
{
    for line in Lines::over(bytes) {
        if begins_run(line) {
            return true;
        }
    }
    false
}

/// What the report says that a text of less than 2^31 bytes ends with.
///
/// The lines before the first that begins with the word `run` are passed over: a trace, or lines of bursts. Each line of
/// the report is words with one space or more between them, and numbers are below 2^32.
///
/// `BadLine` names the first line that can't be where it is, or the one past the last where the report isn't whole.
pub fn read_report<'a>(alloc: Global, bytes: &'a [u8]) -> Result<RunReport<'a>, ReportFault>
    requires { length bytes.now < 2 ^ 31 }
    ensures ok { IfOk result (IsReportOfText bytes.now) }
    ensures bad_line { (wrong : ℕ) → IsErrOf result (ReportFault.BadLine wrong) → IsFirstWrongLine bytes.now wrong }
{
    let mut reader = Reader::begin(alloc);
    let mut number = 0;
    for line in Lines::over(bytes) {
        number += 1;
        if reader.has_begun() || begins_run(line) {
            let Some(said) = said_of(line) else {
                return Err(ReportFault::BadLine { line: number });
            };
            if !reader.take(&said)? {
                return Err(ReportFault::BadLine { line: number });
            }
        }
    }
    if !reader.has_ended() {
        return Err(ReportFault::BadLine { line: number + 1 });
    }
    Ok(reader.into_report())
}
