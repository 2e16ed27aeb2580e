//! The report of a run, for other programs.
ghost use Rattle.std.specs.Prelude.{◌<◌, ◌^◌, length};

use crate::form::Form;
use tool_input::{Fault, Input, finish, last_part, output_of, report_in, run_tick};
use view_report::{has_report, write_report_csv, write_report_json};

/// Whether the last section of the text has the report of a run.
pub(crate) fn is_run(bytes: &[u8]) -> bool
    requires { length bytes.now < 2 ^ 31 }
{
    has_report(last_part(bytes))
}

/// Writes the report of a run as comma-separated values, or else as JSON. Before it may be its host, or its host and
/// its script. A tick lasts as long as is asked for where there is no host; beside one that is refused.
pub(crate) fn put_run(
    rt: &HostRuntime,
    asked: Option<u32>,
    form: Form,
    input: &Input,
) -> Result<(), Fault> {
    let tick_ns = run_tick(rt, asked, input)?;
    let report = report_in(rt.alloc(), &input.place, last_part(&input.bytes))?;
    let mut sink = output_of(rt)?;
    match form {
        Form::Csv => write_report_csv(&mut sink, &report, tick_ns)?,
        _ => write_report_json(&mut sink, &report, tick_ns)?,
    }
    finish(&mut sink)
}
