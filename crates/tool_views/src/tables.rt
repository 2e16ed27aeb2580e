ghost use Rattle.std.specs.Prelude.{◌≤◌, length};
ghost use Rattle.tab_core.specs.declared.TheConstants.{MAX_CORES, MAX_VCPUS};

use crate::form::Form;
use crate::ran::{is_run, put_run};
use std::alloc::AllocError;
use std::io::IsTerminal;
use tab_core::{Vcpu, WHOLE_PPM};
use tool_input::{
    Fault, Planned, finish, input_of, output_of, planned_in, refusal_in, shown, shown_whole,
    tick_of,
};
use view_doc::{Task, View};
use view_table::{
    refused_figures_of, write_table, write_table_csv, write_table_json, write_vm_table,
};

// A share below this, in parts per million, is rarely what was meant.
const SMALL_PPM: u64 = 1000;

/// What the words of `table` say.
#[derive(Clone, Copy)]
pub struct TableWords<'w> {
    /// What is written.
    pub form: Form,
    /// The file to read; standard input where there is none.
    pub file: Option<&'w str>,
    /// Nanoseconds of a tick.
    pub tick_ns: Option<u32>,
}

/// Does `table`: it reads a plan, or a host and its plan, and writes their tables. As JSON or comma-separated values it
/// also writes the report of a run. Where `tableau check` refuses the plan, its line is above the tables, and whether what
/// was promised is kept stays open.
pub fn table(rt: &HostRuntime, words: &TableWords<'_>) -> Result<(), Fault> {
    let form = words.form;
    let input = input_of(rt, words.file)?;
    if matches!(form, Form::Json | Form::Csv) && is_run(&input.bytes) {
        return put_run(rt, words.tick_ns, form, &input);
    }
    let Planned { host, view } = planned_in(rt.alloc(), &input)?;
    match host {
        Some(host) => {
            let tick_ns = tick_of(rt, words.tick_ns, Some(host.tick_ns))?;
            let refusal = refusal_in(rt.alloc(), &host, &input)?;
            tell_refusal(rt, form, &refusal)?;
            put_tables(rt, form, Some(host.vcpus.items()), refusal, &view, tick_ns)?;
        }
        None => {
            let tick_ns = tick_of(rt, words.tick_ns, None)?;
            put_tables(rt, form, None, Vec::new(rt.alloc()), &view, tick_ns)?;
        }
    }
    Ok(tell_small(rt, &view)?)
}

// Says on standard error that the plan is refused, with the line of the refusal, where the form has no place for it.
fn tell_refusal(rt: &HostRuntime, form: Form, refusal: &[u8]) -> Result<(), AllocError> {
    if matches!(form, Form::Csv) && !refusal.is_empty() {
        let refusal = shown_whole(rt.alloc(), refusal)?;
        // (a line that can't be written is left out)
        let _ = eprintln!(rt; "tableau-tools: tableau check refuses the plan: {refusal}");
    }
    Ok(())
}

// Writes the tables to standard output. They are refused with this line, if it isn't empty.
fn put_tables(
    rt: &HostRuntime,
    form: Form,
    host: Option<&[Vcpu]>,
    refusal: Vec<u8>,
    view: &View,
    tick_ns: u32,
) -> Result<(), Fault>
    requires cores { view.now.cores ≤ MAX_CORES }
    requires vcpus { length view.now.tasks.items ≤ MAX_VCPUS }
{
    let figures = refused_figures_of(rt.alloc(), view, refusal)?;
    let mut sink = output_of(rt)?;
    match form {
        Form::ByVcpu => write_table(&mut sink, host, view, &figures, tick_ns)?,
        Form::ByVm => write_vm_table(&mut sink, host, view, &figures, tick_ns)?,
        Form::Json => write_table_json(&mut sink, host, view, &figures, tick_ns)?,
        Form::Csv => write_table_csv(&mut sink, host, view, &figures, tick_ns)?,
    }
    finish(&mut sink)
}

// Tells a terminal the first vCPU whose share is so small that another unit may have been meant.
fn tell_small(rt: &HostRuntime, view: &View) -> Result<(), AllocError> {
    if !rt.stderr().is_terminal() {
        return Ok(());
    }
    for (task, name) in view.tasks.iter().zip(&view.names) {
        if is_small(task) {
            let name = shown(rt.alloc(), name.bytes())?;
            // (a line that can't be written is left out)
            let _ = eprintln!(rt;
                "tableau-tools: vcpu {name} has less than 0.1 percent of a core; share_ppm = 250000 is 25 percent"
            );
            return Ok(());
        }
    }
    Ok(())
}

// Whether the share is below 0.1 percent of a core.
fn is_small(task: &Task) -> bool {
    task.period != 0
        && u64::from(task.cost) * u64::from(WHOLE_PPM) / u64::from(task.period) < SMALL_PPM
}
