use run_trace::{turns_in, write_run};
use tool_input::{Fault, finish, input_of, last_part, output_of, report_in, run_tick, view_in};

/// What the words of `export judge` say.
#[derive(Clone, Copy)]
pub struct RunWords<'w> {
    /// The file to read; standard input where there is none.
    pub file: Option<&'w str>,
    /// Nanoseconds of a tick.
    pub tick_ns: Option<u32>,
}

/// Does `export judge`: it reads the trace of a run with its report, before which may be its host, or its host and its
/// script, and writes the trace of a host.
pub fn export_run(rt: &HostRuntime, words: &RunWords<'_>) -> Result<(), Fault> {
    let input = input_of(rt, words.file)?;
    let tick_ns = run_tick(rt, words.tick_ns, &input)?;
    let text = last_part(&input.bytes);
    let view = view_in(rt.alloc(), &input.place, text)?;
    let report = report_in(rt.alloc(), &input.place, text)?;
    let turns = turns_in(rt.alloc(), &view.stints)?;
    let mut sink = output_of(rt)?;
    write_run(&mut sink, &report.vcpus, &view.names, tick_ns, &turns)?;
    finish(&mut sink)
}
