ghost use Rattle.std.specs.Prelude.{◌≡◌, ◌<◌, ◌≤◌, ◌-◌, ◌^◌, length};
ghost use Rattle.tab_core.specs.declared.TheConstants.{MAX_CORES, MAX_VCPUS};
ghost use Rattle.view_doc.specs.Views.{reach_of, shown_in};
ghost use Rattle.view_lanes.specs.Shown.{cores_in, end_at, frame_of, lanes_of, last_end, rounds_of, rows_in, shows_no_trace, shows_nothing, trace_frame, whole_of};

use crate::frame::{ChartOptions, Frame};
use tab_core::ROUND;
use view_doc::{Stretch, View};

/// The stints of a run, else the slots of a plan.
pub fn shown_in(view: &View) -> &[Stretch]
    ensures { result.now ≡ shown_in view.now }
{
    if view.is_run {
        &view.stints
    } else {
        &view.slots
    }
}

// How many cores the stretches reach.
fn reach_of(stretches: &[Stretch]) -> u32
    ensures value { result ≡ reach_of stretches.now }
    ensures few { result ≤ MAX_CORES }
{
    let mut reach = 0;
    for stretch in stretches {
        reach = reach.max(stretch.core.0 + 1);
    }
    reach
}

/// How many cores a view has: as many as its plan's head counts, or more where a stint of a run is on a
/// core of a higher number.
pub fn cores_in(view: &View) -> u32
    ensures value { result ≡ cores_in view.now }
    ensures few { view.now.cores ≤ MAX_CORES → result ≤ MAX_CORES }
{
    view.cores.max(reach_of(shown_in(view)))
}

// Where the last stretch ends.
fn last_end(stretches: &[Stretch]) -> u32
    ensures { result ≡ last_end stretches.now }
{
    let mut last = 0;
    for stretch in stretches {
        last = last.max(stretch.end);
    }
    last
}

// The tick that ends what is shown.
fn end_of(view: &View, options: &ChartOptions) -> u32
    ensures { result ≡ (frame_of view.now options.now).to }
{
    end_at(options.to, whole_of(shown_in(view)))
}

// Where the last round ends, as far as ticks are counted.
fn whole_of(stretches: &[Stretch]) -> u32
    ensures { result ≡ whole_of stretches.now }
{
    (rounds_of(stretches) * u64::from(ROUND)).min(u64::from(u32::MAX)) as u32
}

// How many rounds the stretches reach, and one at least.
pub(crate) fn rounds_of(stretches: &[Stretch]) -> u64
    ensures value { result ≡ rounds_of stretches.now }
    ensures small { result < 2 ^ 32 }
{
    let last = u64::from(last_end(stretches));
    ((last + u64::from(ROUND - 1)) / u64::from(ROUND)).max(1)
}

/// The ticks that a picture of the view with these options shows: up to the end of the last round, or
/// to an earlier tick that was asked for.
pub fn frame_of(view: &View, options: &ChartOptions) -> Frame
    ensures { result ≡ frame_of view.now options.now }
{
    Frame {
        from: options.from,
        to: end_of(view, options),
        tick: options.tick_ns,
        by_vcpu: options.by_vcpu,
        is_run: view.is_run,
        has_rounds: true,
        picture: options.picture,
    }
}

/// The ticks that are shown of a host's trace, which ends at a tick.
pub fn trace_frame(options: &ChartOptions, end: u32) -> Frame
    ensures { result ≡ trace_frame options.now end }
{
    Frame {
        from: options.from,
        to: end_at(options.to, end),
        tick: options.tick_ns,
        by_vcpu: options.by_vcpu,
        is_run: true,
        has_rounds: false,
        picture: options.picture,
    }
}

// The end, or an earlier tick that was asked for.
fn end_at(to: Option<u32>, end: u32) -> u32
    ensures { result ≡ end_at to end }
{
    match to {
        Some(tick) => tick.min(end),
        None => end,
    }
}

// How many cores or vCPUs could have a lane.
fn rows_in(view: &View, options: &ChartOptions) -> u64
    ensures value { result ≡ rows_in view.now options.now }
    ensures few { view.now.cores ≤ MAX_CORES → length view.now.names.items ≤ MAX_VCPUS → result ≤ MAX_VCPUS }
{
    if options.by_vcpu {
        view.names.len() as u64
    } else {
        u64::from(cores_in(view))
    }
}

/// How many lanes a picture of the view with these options has: one for each core, or for each vCPU,
/// from the first to the last that were asked for.
pub fn lanes_of(view: &View, options: &ChartOptions) -> u64
    ensures value { result ≡ lanes_of view.now options.now }
    ensures few { view.now.cores ≤ MAX_CORES → length view.now.names.items ≤ MAX_VCPUS → result ≤ MAX_VCPUS }
{
    let end = u64::from(options.last) + 1;
    let all = end.min(rows_in(view, options));
    all.saturating_sub(u64::from(options.first))
}

/// Whether a picture of the view with these options would show nothing: no tick, or no lane. Such a
/// picture isn't drawn.
pub fn shows_nothing(view: &View, options: &ChartOptions) -> bool
    ensures { result ≡ shows_nothing options.now view.now }
{
    let frame = frame_of(view, options);
    frame.to <= frame.from || lanes_of(view, options) == 0
}

/// Whether a picture of a host's trace with these options, which ends at a tick, would show nothing: no tick, or no
/// lane. Such a picture isn't drawn.
pub fn shows_no_trace(view: &View, options: &ChartOptions, end: u32) -> bool
    ensures { result ≡ shows_no_trace options.now end view.now }
{
    end_at(options.to, end) <= options.from || lanes_of(view, options) == 0
}

/// How many ticks are shown.
pub fn span_of(frame: &Frame) -> u32
    ensures { result ≡ frame.now.to - frame.now.from }
{
    frame.to.saturating_sub(frame.from)
}
