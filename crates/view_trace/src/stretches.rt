ghost use Rattle.std.specs.Prelude.{◌≡◌, ◌↔◌, ◌<◌, ◌≤◌, ◌-◌, ◌/◌, ◌^◌, All, IfErr, IfOk, IfSome, IsTrue, map};
ghost use Rattle.view_trace.specs.Inside.Walks.{IsShortFault, IsStintCountable};
ghost use Rattle.view_trace.specs.Traces.{AreLasting, IsShortStint, fits, stretch_of, trace_tick};
ghost use Rattle.view_doc.specs.declared.view.Use.TheVariants.{Slot};

use crate::fault::TraceFault;
use crate::stints::TraceStint;
use std::alloc::Global;
use view_doc::{Stretch, Use};

// The stints of a trace as stretches of ticks from a time on.
pub(crate) fn stretches_of(
    alloc: Global,
    begin_ns: u64,
    tick_ns: u16,
    stints: &[TraceStint],
) -> Result<Vec<Stretch>, TraceFault>
    requires some { 0 < tick_ns }
    requires within { All (IsStintCountable begin_ns tick_ns) stints.now }
    ensures stretches { IfOk result (λ stretches. stretches.items ≡ map (stretch_of begin_ns tick_ns) stints.now) }
    ensures lasting { IfOk result (λ stretches. AreLasting stretches.items) }
    ensures fault { IfErr result (IsShortFault begin_ns tick_ns stints.now) }
{
    let mut stretches = Vec::new(alloc);
    for stint in stints {
        if is_short(begin_ns, tick_ns, stint) {
            return Err(TraceFault::Short {
                line: stint.line,
                tick_ns,
            });
        }
        if stretches
            .push(stretch_of(begin_ns, tick_ns, stint, Use::Slot(stint.vcpu)))
            .is_err()
        {
            return Err(TraceFault::NoMemory);
        }
    }
    Ok(stretches)
}

// Whether a stint has no tick of its own.
fn is_short(begin_ns: u64, tick_ns: u16, stint: &TraceStint) -> bool
    requires { 0 < tick_ns }
    ensures { IsTrue result ↔ IsShortStint begin_ns tick_ns stint.now }
{
    let tick = u64::from(tick_ns);
    stint.end_ns.saturating_sub(begin_ns) / tick <= stint.from_ns.saturating_sub(begin_ns) / tick
}

// A stint as a stretch of ticks from a time on, in a slot of its vCPU.
fn stretch_of(begin_ns: u64, tick_ns: u16, stint: &TraceStint, by: Use) -> Stretch
    requires slot { by ≡ Slot stint.now.vcpu }
    requires some { 0 < tick_ns }
    requires within { IsStintCountable begin_ns tick_ns stint.now }
    ensures { result ≡ stretch_of begin_ns tick_ns stint.now }
{
    let tick = u64::from(tick_ns);
    Stretch {
        core: stint.cpu,
        from: (stint.from_ns.saturating_sub(begin_ns) / tick) as u32,
        end: (stint.end_ns.saturating_sub(begin_ns) / tick) as u32,
        used: 0,
        seen: 0,
        by,
    }
}

// How many ns a tick has, where so many ns are drawn.
pub(crate) fn tick_of(span_ns: u64) -> Option<u16>
    ensures value { result ≡ trace_tick span_ns }
    ensures fits { IfSome result (λ tick. (0 < tick) × (span_ns / tick < 2 ^ 32)) }
{
    if fits(span_ns, 1) {
        Some(1)
    } else if fits(span_ns, 10) {
        Some(10)
    } else if fits(span_ns, 100) {
        Some(100)
    } else if fits(span_ns, 1000) {
        Some(1000)
    } else if fits(span_ns, 10_000) {
        Some(10_000)
    } else {
        None
    }
}

// Whether so many ns have less than 2^32 ticks.
fn fits(span_ns: u64, tick_ns: u64) -> bool
    requires { 0 < tick_ns }
    ensures { result ≡ fits span_ns tick_ns }
{
    span_ns / tick_ns < 1 << 32
}
