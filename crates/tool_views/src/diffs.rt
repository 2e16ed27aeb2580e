ghost use Rattle.std.specs.Prelude.{◌≤◌, length};
ghost use Rattle.tab_core.specs.declared.TheConstants.{MAX_VCPUS};

use crate::form::Form;
use std::alloc::Global;
use tab_io::{MemSink, write_all};
use tool_input::{Fault, finish, output_of, planned_of, read_once, tick_of};
use view_doc::View;
use view_table::{
    figures_of, write_diff, write_diff_csv, write_diff_json, write_sums, write_vm_diff,
};

// More bytes than what differs between two plans takes.
const ROOM: usize = 1_048_576;

/// What the words of `diff` say.
#[derive(Clone, Copy)]
pub struct DiffWords<'w> {
    /// What is written.
    pub form: Form,
    /// The file of the older plan.
    pub old: Option<&'w str>,
    /// The file of the newer plan.
    pub new: Option<&'w str>,
    /// Nanoseconds of a tick.
    pub tick_ns: Option<u32>,
}

/// Does `diff`: it reads two plans, each alone or beside its host, writes what differs between them, and says whether
/// anything does.
pub fn diff(rt: &HostRuntime, words: &DiffWords<'_>) -> Result<bool, Fault> {
    read_once(words.old, words.new)?;
    let old = planned_of(rt, words.old)?;
    let new = planned_of(rt, words.new)?;
    let host_tick = shared_tick(old.tick_ns(), new.tick_ns())?;
    let tick_ns = tick_of(rt, words.tick_ns, host_tick)?;
    put_differences(rt, words.form, &old.view, &new.view, tick_ns)
}

/// Nanoseconds of a tick of the hosts, if there is one, which is the same of both.
pub(crate) fn shared_tick(old: Option<u32>, new: Option<u32>) -> Result<Option<u32>, Fault> {
    match (old, new) {
        (Some(old), Some(new)) if old != new => Err(Fault::OtherTick { old, new }),
        (Some(tick_ns), _) | (None, Some(tick_ns)) => Ok(Some(tick_ns)),
        (None, None) => Ok(None),
    }
}

// Writes what differs, and says whether anything does: whether there is a text by vCPU.
fn put_differences(
    rt: &HostRuntime,
    form: Form,
    old: &View,
    new: &View,
    tick_ns: u32,
) -> Result<bool, Fault>
    requires old { length old.now.tasks.items ≤ MAX_VCPUS }
    requires new { length new.now.tasks.items ≤ MAX_VCPUS }
{
    let text = differences_of(rt.alloc(), old, new, tick_ns)?;
    put_form(rt, form, text.bytes(), old, new, tick_ns)?;
    Ok(!text.bytes().is_empty())
}

// Writes what differs in this form to standard output. The text is that by vCPU.
fn put_form(
    rt: &HostRuntime,
    form: Form,
    text: &[u8],
    old: &View,
    new: &View,
    tick_ns: u32,
) -> Result<(), Fault>
    requires old { length old.now.tasks.items ≤ MAX_VCPUS }
    requires new { length new.now.tasks.items ≤ MAX_VCPUS }
{
    let old_figures = figures_of(rt.alloc(), old)?;
    let new_figures = figures_of(rt.alloc(), new)?;
    let mut sink = output_of(rt)?;
    match form {
        Form::ByVcpu => write_all(&mut sink, text)?,
        Form::ByVm if text.is_empty() => {}
        Form::ByVm => {
            write_vm_diff(&mut sink, old, &old_figures, new, &new_figures, tick_ns)?;
            write_sums(&mut sink, old, &old_figures, new, &new_figures)?;
        }
        Form::Json => {
            write_diff_json(&mut sink, old, &old_figures, new, &new_figures, tick_ns)?;
        }
        Form::Csv => write_diff_csv(&mut sink, old, &old_figures, new, &new_figures, tick_ns)?,
    }
    finish(&mut sink)
}

/// What differs between two plans, and after it the sums, if anything does.
pub(crate) fn differences_of(
    alloc: Global,
    old: &View,
    new: &View,
    tick_ns: u32,
) -> Result<MemSink, Fault>
    requires old { length old.now.tasks.items ≤ MAX_VCPUS }
    requires new { length new.now.tasks.items ≤ MAX_VCPUS }
{
    let old_figures = figures_of(alloc, old)?;
    let new_figures = figures_of(alloc, new)?;
    let Ok(mut text) = MemSink::with_room(alloc, ROOM) else {
        return Err(Fault::NoMemory);
    };
    write_diff(&mut text, old, &old_figures, new, &new_figures, tick_ns)?;
    if !text.bytes().is_empty() {
        write_sums(&mut text, old, &old_figures, new, &new_figures)?;
    }
    Ok(text)
}
