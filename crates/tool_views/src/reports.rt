ghost use Rattle.std.specs.Prelude.{◌<◌, ◌≤◌, ◌^◌, length};
ghost use Rattle.tab_core.specs.declared.TheConstants.{MAX_CORES, MAX_VCPUS};

use crate::charts::undrawn;
use crate::diffs::{differences_of, shared_tick};
use tab_core::{Host, MAX_TICK_NS};
use tab_io::MemSink;
use tab_words::cut_sections;
use tool_input::{
    Fault, Input, cut_in_return, drawable, finish, host_of, input_beside, output_of, plan_of,
    planned_of, refusal_of, view_in,
};
use view_doc::View;
use view_page::{Page, write_page};
use view_table::refused_figures_of;

/// Does `report`: it reads a host and its plan, or a host, a script and the trace of its run, and writes a page of HTML. A
/// plan is compared with that of the older file, if one is named. Where `tableau check` refuses the plan, its line is above
/// the tables.
pub fn report(rt: &HostRuntime, file: Option<&str>, old: Option<&str>) -> Result<(), Fault> {
    let Input { place, bytes } = input_beside(rt, file, old)?;
    let sections = cut_sections(&bytes);
    match sections.count() {
        2 => {
            let host = host_of(rt.alloc(), &place, sections.part(0))?;
            let view = plan_of(rt.alloc(), &place, sections.part(1))?;
            let refusal = refusal_of(rt.alloc(), &host, sections.part(1))?;
            put_plan(rt, &host, view, refusal, old)
        }
        3 => {
            if old.is_some() {
                return Err(Fault::OldOfRun);
            }
            let host = host_of(rt.alloc(), &place, sections.part(0))?;
            let view = drawable(view_in(rt.alloc(), &place, sections.part(2))?)?;
            let refusal = Vec::new(rt.alloc());
            put_page(rt, &host, &view, refusal, Some(sections.part(1)), None)
        }
        count => match cut_in_return(&bytes) {
            Some(line) => Err(Fault::Return { place, line }),
            None => Err(Fault::NoReport { place, count }),
        },
    }
}

// Writes the page of a plan, which is refused with this line, if it isn't empty, and compared with the plan of this file,
// if one is named.
fn put_plan(
    rt: &HostRuntime,
    host: &Host,
    view: View,
    refusal: Vec<u8>,
    old: Option<&str>,
) -> Result<(), Fault>
    requires { length view.tasks.items ≤ MAX_VCPUS }
{
    let view = drawable(view)?;
    match old {
        Some(path) => {
            let text = since(rt, path, &view, host.tick_ns)?;
            put_page(rt, host, &view, refusal, None, Some(text.bytes()))
        }
        None => put_page(rt, host, &view, refusal, None, None),
    }
}

// What differs from the plan of this file, which may have its host before it.
fn since(rt: &HostRuntime, path: &str, view: &View, tick_ns: u32) -> Result<MemSink, Fault>
    requires { length view.now.tasks.items ≤ MAX_VCPUS }
{
    let old = planned_of(rt, Some(path))?;
    shared_tick(old.tick_ns(), Some(tick_ns))?;
    differences_of(rt.alloc(), &old.view, view, tick_ns)
}

// Writes the page to standard output.
fn put_page(
    rt: &HostRuntime,
    host: &Host,
    view: &View,
    refusal: Vec<u8>,
    script: Option<&[u8]>,
    differences: Option<&[u8]>,
) -> Result<(), Fault>
    requires cores { view.now.cores ≤ MAX_CORES }
    requires vcpus { length view.now.names.items ≤ MAX_VCPUS }
    requires tasks { length view.now.tasks.items ≤ MAX_VCPUS }
{
    let figures = refused_figures_of(rt.alloc(), view, refusal)?;
    let mut sink = output_of(rt)?;
    let page = Page {
        host: Some(host.vcpus.items()),
        view,
        figures: &figures,
        tick_ns: host.tick_ns.min(MAX_TICK_NS) as u16,
        script,
        differences,
    };
    write_page(rt.alloc(), &mut sink, &page).map_err(undrawn)?;
    finish(&mut sink)
}
