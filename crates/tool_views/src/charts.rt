ghost use Rattle.std.specs.Prelude.{◌<◌, ◌≤◌, ◌^◌, IfOk, length};
ghost use Rattle.tab_core.specs.declared.TheConstants.{MAX_CORES, MAX_VCPUS};

use crate::traces::trace_of;
use std::alloc::Global;
use tab_core::{MAX_TICK_NS, MAX_VCPUS, Name, TICK_NS, Vcpu, VcpuNo};
use tab_words::cut_sections;
use tool_input::{
    Fault, Input, drawable, finish, host_of, input_of, output_of, plan_of, tick_of, view_of,
};
use vcpu_names::Names;
use view_chart::{write_chart, write_trace_chart};
use view_doc::View;
use view_lanes::{ChartFault, ChartOptions, cores_in};
use view_table::figures_of;
use view_text::{TextOptions, write_text_chart, write_trace_text};
use view_trace::is_host_trace;

/// What the words of `chart` say.
#[derive(Clone, Copy)]
pub struct ChartWords<'w> {
    /// The file to read; standard input where there is none.
    pub file: Option<&'w str>,
    /// Whether a text is written, and no picture.
    pub is_text: bool,
    /// Whether lanes are those of vCPUs.
    pub by_vcpu: bool,
    /// Which cores are drawn, as `FIRST-LAST`.
    pub cores: Option<&'w str>,
    /// Which vCPUs are drawn, as `FIRST-LAST`.
    pub vcpus: Option<&'w str>,
    /// The first tick that is drawn.
    pub from: Option<u32>,
    /// The tick that ends what is drawn.
    pub to: Option<u32>,
    /// Pixels of a picture's width, or columns of a text.
    pub width: Option<u32>,
    /// Nanoseconds of a tick.
    pub tick_ns: Option<u32>,
}

/// Does `chart`: it reads a text and draws it.
pub fn chart(rt: &HostRuntime, words: &ChartWords<'_>) -> Result<(), Fault> {
    if words.is_text {
        put_text(rt, words)
    } else {
        put_picture(rt, words)
    }
}

// Draws it as a text.
fn put_text(rt: &HostRuntime, words: &ChartWords<'_>) -> Result<(), Fault> {
    let mut options = text_options_of(words)?;
    let drawn = drawn_of(rt, words)?;
    has_lane(words, options.first, &drawn.view)?;
    options.tick_ns = drawn.tick_ns;
    let mut sink = output_of(rt)?;
    let put = match drawn.end {
        Some(end) => write_trace_text(rt.alloc(), &mut sink, &drawn.view, end, &options),
        None => write_text_chart(rt.alloc(), &mut sink, &drawn.view, &options),
    };
    put.map_err(undrawn)?;
    finish(&mut sink)
}

// Draws it as a picture.
fn put_picture(rt: &HostRuntime, words: &ChartWords<'_>) -> Result<(), Fault> {
    let mut options = options_of(words)?;
    let drawn = drawn_of(rt, words)?;
    has_lane(words, options.first, &drawn.view)?;
    options.tick_ns = drawn.tick_ns;
    let figures = figures_of(rt.alloc(), &drawn.view)?;
    let mut sink = output_of(rt)?;
    let put = match drawn.end {
        Some(end) => write_trace_chart(rt.alloc(), &mut sink, &drawn.view, &figures, end, &options),
        None => write_chart(
            rt.alloc(),
            &mut sink,
            &drawn.view,
            &figures,
            &drawn.promises,
            &options,
        ),
    };
    put.map_err(undrawn)?;
    finish(&mut sink)
}

/// Why a view isn't drawn, as a command's fault.
pub(crate) fn undrawn(fault: ChartFault) -> Fault {
    match fault {
        ChartFault::Nothing => Fault::Nothing,
        ChartFault::Write => Fault::WriteFault,
        ChartFault::NoMemory => Fault::NoMemory,
    }
}

// What is drawn: a plan, a run or a host's trace, the waits that its host promises, if it has one, nanoseconds of a tick,
// and the tick at which it ends, if it is a host's trace.
#[derive(Drop)]
struct Drawn {
    view: View,
    promises: Vec<Option<u64>>,
    tick_ns: u16,
    end: Option<u32>,
    ghost cores: { view.cores ≤ MAX_CORES },
    ghost vcpus: { length view.names.items ≤ MAX_VCPUS },
    ghost tasks: { length view.tasks.items ≤ MAX_VCPUS },
}

// What the text shows, which may be a host and its plan.
fn drawn_of(rt: &HostRuntime, words: &ChartWords<'_>) -> Result<Drawn, Fault> {
    let input = input_of(rt, words.file)?;
    let sections = cut_sections(&input.bytes);
    if sections.count() == 2 && !sections.part(0).starts_with(b"plan ") {
        return drawn_plan_of(
            rt,
            words.tick_ns,
            &input.place,
            sections.part(0),
            sections.part(1),
        );
    }
    if is_host_trace(&input.bytes) {
        return drawn_trace_of(rt, words.tick_ns, input);
    }
    let view = view_of(rt.alloc(), input)?;
    let tick_ns = words.tick_ns.unwrap_or(TICK_NS);
    checked(view, Vec::new(rt.alloc()), tick_ns)
}

// A host's trace, whose ticks are its own, so that none may be asked for.
fn drawn_trace_of(rt: &HostRuntime, asked: Option<u32>, input: Input) -> Result<Drawn, Fault> {
    if asked.is_some() {
        return Err(Fault::TickOfTrace);
    }
    let trace = trace_of(rt.alloc(), input)?;
    Ok(Drawn {
        view: drawable(trace.view)?,
        promises: Vec::new(rt.alloc()),
        tick_ns: trace.tick_ns,
        end: Some(trace.end),
    })
}

// A plan beside its host, whose ticks and promises are its own, so that no ticks may be asked for.
fn drawn_plan_of(
    rt: &HostRuntime,
    asked: Option<u32>,
    place: &str,
    document: &[u8],
    plan: &[u8],
) -> Result<Drawn, Fault>
    requires { length plan.now < 2 ^ 31 }
{
    let host = host_of(rt.alloc(), place, document)?;
    let view = plan_of(rt.alloc(), place, plan)?;
    let promises = promises_of(rt.alloc(), host.vcpus.items(), &view.names)?;
    let tick_ns = tick_of(rt, asked, Some(host.tick_ns))?;
    checked(view, promises, tick_ns)
}

// The latencies that a host promises the vCPUs of these names; none where it has no vCPU of a name, or no reservation.
fn promises_of(alloc: Global, vcpus: &[Vcpu], names: &[Name]) -> Result<Vec<Option<u64>>, Fault>
    requires { length vcpus.now ≤ MAX_VCPUS }
{
    let known = Names::of(alloc, vcpus)?;
    let mut promises = Vec::new(alloc);
    for name in names {
        promises.push(promise_of(vcpus, known.number_of(name.bytes())))?;
    }
    Ok(promises)
}

// The latency that a host promises its vCPU of a number.
fn promise_of(vcpus: &[Vcpu], number: Option<VcpuNo>) -> Option<u64> {
    let vcpu = vcpus.get(number?.index())?;
    Some(vcpu.reservation?.latency_ns)
}

// The view, if it isn't too much to be drawn, with its waits.
fn checked(view: View, promises: Vec<Option<u64>>, tick_ns: u32) -> Result<Drawn, Fault> {
    Ok(Drawn {
        view: drawable(view)?,
        promises,
        tick_ns: tick_ns.min(MAX_TICK_NS) as u16,
        end: None,
    })
}

// What the words ask for of a picture.
fn options_of(words: &ChartWords<'_>) -> Result<ChartOptions, Fault> {
    let (first, last) = lanes_of(words, words.by_vcpu)?;
    Ok(ChartOptions {
        by_vcpu: words.by_vcpu,
        first,
        last,
        from: words.from.unwrap_or(0),
        to: words.to,
        width: width_of(words, 1500, 200)?,
        tick_ns: TICK_NS as u16,
        picture: 0,
    })
}

// What they ask for of a text.
fn text_options_of(words: &ChartWords<'_>) -> Result<TextOptions, Fault>
    ensures some { IfOk result (λ options. 0 < options.columns) }
    ensures few { IfOk result (λ options. options.columns ≤ 8000) }
{
    if words.by_vcpu {
        return Err(Fault::TextByVcpu);
    }
    let (first, last) = lanes_of(words, false)?;
    Ok(TextOptions {
        first,
        last,
        from: words.from.unwrap_or(0),
        to: words.to,
        columns: width_of(words, 76, 1)?,
        tick_ns: TICK_NS as u16,
    })
}

// The width, which is this where the words say none, and so much at least.
fn width_of(words: &ChartWords<'_>, usual: u32, least: u32) -> Result<u32, Fault>
    ensures some { IfOk result (λ width. 0 < width) }
    ensures few { IfOk result (λ width. width ≤ 8000) }
{
    let width = words.width.unwrap_or(usual);
    if width < least {
        return Err(Fault::TooNarrow);
    }
    Ok(width.clamp(1, 8000))
}

// The first and the last of the cores or vCPUs that have a lane.
fn lanes_of(words: &ChartWords<'_>, by_vcpu: bool) -> Result<(u32, u32), Fault> {
    let (chosen, other) = if by_vcpu {
        (words.vcpus, words.cores)
    } else {
        (words.cores, words.vcpus)
    };
    if other.is_some() {
        return Err(Fault::OtherLanes);
    }
    match chosen {
        Some(word) => range_of(word),
        None => Ok((0, MAX_VCPUS - 1)),
    }
}

// Refuses a first lane that isn't there, where the words choose lanes.
fn has_lane(words: &ChartWords<'_>, first: u32, view: &View) -> Result<(), Fault> {
    let (what, count) = if words.by_vcpu {
        ("vCPU", view.names.len() as u64)
    } else {
        ("core", u64::from(cores_in(view)))
    };
    let is_chosen = words.cores.is_some() || words.vcpus.is_some();
    if is_chosen && u64::from(first) >= count {
        return Err(Fault::NoLane { what, first, count });
    }
    Ok(())
}

// The first and the last number of a word `FIRST-LAST`, or of a word `NUMBER`.
fn range_of(word: &str) -> Result<(u32, u32), Fault> {
    let (first, last) = word.split_once('-').unwrap_or((word, word));
    match (first.parse::<u32>(), last.parse::<u32>()) {
        (Ok(first), Ok(last)) => Ok((first, last)),
        _ => Err(Fault::BadLanes),
    }
}
