ghost use Rattle.std.specs.Prelude.{◌≤◌, length};
ghost use Rattle.tab_core.specs.declared.TheConstants.{MAX_CORES, MAX_VCPUS};

use crate::fault::Fault;
use crate::input::{Input, input_of};
use crate::plan::{host_of, plan_of, view_in};
use crate::verdict::refusal_of;
use std::alloc::Global;
use std::io::IsTerminal;
use tab_core::{Host, TICK_NS};
use tab_words::cut_sections;
use view_doc::View;

// How many bytes the line takes that parts two sections.
const SEPARATOR: usize = 3;

/// A plan that was read, beside its host where there is one.
#[derive(Drop)]
pub struct Planned {
    pub host: Option<Host>,
    pub view: View,
    pub ghost cores: { view.cores ≤ MAX_CORES },
    pub ghost vcpus: { length view.tasks.items ≤ MAX_VCPUS },
}

impl Planned {
    /// Nanoseconds of a tick of the host, if there is one.
    pub fn tick_ns(&self) -> Option<u32> {
        match &self.host {
            Some(host) => Some(host.tick_ns),
            None => None,
        }
    }
}

/// The plan of the file of this path, or of standard input where there is none: a plan alone, or a host and its plan.
pub fn planned_of(rt: &HostRuntime, path: Option<&str>) -> Result<Planned, Fault> {
    let input = input_of(rt, path)?;
    planned_in(rt.alloc(), &input)
}

/// The plan of a text: a plan alone, or a host and its plan.
pub fn planned_in(alloc: Global, input: &Input) -> Result<Planned, Fault> {
    let sections = cut_sections(&input.bytes);
    if sections.count() == 2 {
        let host = host_of(alloc, &input.place, sections.part(0))?;
        let view = plan_of(alloc, &input.place, sections.part(1))?;
        return Ok(Planned {
            host: Some(host),
            view,
        });
    }
    if sections.count() != 1 {
        return Err(Fault::BadSections {
            place: String::from_str(alloc, &input.place)?,
            count: sections.count(),
        });
    }
    let view = plan_of(alloc, &input.place, sections.part(0))?;
    Ok(Planned { host: None, view })
}

/// The line by which `tableau check` refuses the plan of a text, which is this host and its plan, without the line's end;
/// empty where it doesn't refuse it.
pub fn refusal_in(alloc: Global, host: &Host, input: &Input) -> Result<Vec<u8>, Fault> {
    let sections = cut_sections(&input.bytes);
    if sections.count() == 2 {
        return refusal_of(alloc, host, sections.part(1));
    }
    Ok(Vec::new(alloc))
}

/// What a text shows that is a plan, a run, or both, and nanoseconds of a tick where its host is there, before them.
pub fn shown_of(rt: &HostRuntime, path: Option<&str>) -> Result<(View, Option<u32>), Fault> {
    let Input { place, bytes } = input_of(rt, path)?;
    let sections = cut_sections(&bytes);
    if sections.count() < 2 || sections.part(0).starts_with(b"plan ") {
        return Ok((view_in(rt.alloc(), &place, &bytes)?, None));
    }
    let document = sections.part(0);
    let host = host_of(rt.alloc(), &place, document)?;
    let (_, rest) = bytes.split_at((document.len() + SEPARATOR).min(bytes.len()));
    Ok((view_in(rt.alloc(), &place, rest)?, Some(host.tick_ns)))
}

/// Nanoseconds of a tick: the host's, or those that are asked for where there is no host, or 1001. What is asked for
/// beside a host is refused. A line on standard error says that it is 1001 where neither names it, if that is a terminal.
pub fn tick_of(rt: &HostRuntime, asked: Option<u32>, host: Option<u32>) -> Result<u32, Fault> {
    match (asked, host) {
        (Some(_), Some(tick_ns)) => return Err(Fault::TickOfHost { tick_ns }),
        (Some(tick_ns), None) | (None, Some(tick_ns)) => return Ok(tick_ns),
        (None, None) => {}
    }
    if rt.stderr().is_terminal() {
        // (a line that can't be written is left out)
        let _ = eprintln!(rt;
            "tableau-tools: there is no host and no --tick, so a tick is taken to be {TICK_NS} ns"
        );
    }
    Ok(TICK_NS)
}
