ghost use Rattle.std.specs.Prelude.{◌≡◌, ℕ, ◌<◌, ◌≤◌, Option, None, Some, false};
ghost use Rattle.std.specs.Option.{ForSome};
ghost use Rattle.host_trace.specs.declared.mark.State.{State};
ghost use Rattle.host_trace.specs.declared.mark.State.TheVariants.{Wait};
ghost use Rattle.host_judge.specs.Courses.{IsSteady, StateCourse, is_in};
ghost use Rattle.host_judge.specs.Inside.Settled.{BeginsOrGoesOn, HasWaits, longer_of};

use crate::report::LongestWait;
use host_trace::State;

// A wait that goes on, and the CPU that was named last when it began.
#[derive(Clone, Copy)]
pub(crate) struct Begun {
    pub(crate) at_ns: u64,
    pub(crate) cpu: Option<u32>,
}

// The waits of a vCPU.
#[derive(Clone, Copy)]
pub(crate) struct Waits {
    // how long a wait may be, in ns
    pub(crate) latency_ns: u64,
    pub(crate) current: Option<Begun>,
    pub(crate) longest: Option<LongestWait>,
    // how many were longer than they may be
    pub(crate) late: u64,
}

// No wait.
pub(crate) fn no_waits(latency_ns: u64) -> Waits
    ensures latency { result.latency_ns ≡ latency_ns }
    ensures current { result.current ≡ None }
    ensures longest { result.longest ≡ None }
    ensures late { result.late ≡ 0 }
{
    Waits {
        latency_ns,
        current: None,
        longest: None,
        late: 0,
    }
}

// The waits after a later time, up to which the state stays the same; this CPU was named last
// before.
pub(crate) fn waits_behind(
    waits: &Waits,
    state: Option<State>,
    from: u64,
    to: u64,
    cpu: Option<u32>,
) -> Waits
    requires order { from < to }
    requires begun { ForSome waits.now.current (λ begun. begun.at_ns < from) }
    requires room { waits.now.late ≤ from }
    ensures latency { result.latency_ns ≡ waits.now.latency_ns }
    ensures begun { ForSome result.current (λ begun. begun.at_ns < to) }
    ensures room { result.late ≤ to }
    ensures counted { (course : StateCourse) (told : ℕ → Option ℕ) → HasWaits course told from waits.now
        → IsSteady course state from to → told from ≡ cpu → HasWaits course told to result }
{
    match state {
        Some(State::Wait) => waits_on(waits, from, to, cpu),
        Some(State::Run) => waits_stopped(waits),
        Some(State::Block) => waits_stopped(waits),
        None => waits_stopped(waits),
    }
}

// Those where the vCPU doesn't wait.
fn waits_stopped(waits: &Waits) -> Waits
    ensures latency { result.latency_ns ≡ waits.now.latency_ns }
    ensures current { result.current ≡ None }
    ensures late { result.late ≡ waits.now.late }
    ensures counted { (course : StateCourse) (told : ℕ → Option ℕ) (state : Option State) (from to : ℕ) → from < to
        → is_in Wait state ≡ false → HasWaits course told from waits.now → IsSteady course state from to
        → HasWaits course told to result }
{
    Waits {
        latency_ns: waits.latency_ns,
        current: None,
        longest: waits.longest,
        late: waits.late,
    }
}

// Those where it waits.
fn waits_on(waits: &Waits, from: u64, to: u64, cpu: Option<u32>) -> Waits
    requires order { from < to }
    requires begun { ForSome waits.now.current (λ begun. begun.at_ns < from) }
    requires room { waits.now.late ≤ from }
    ensures latency { result.latency_ns ≡ waits.now.latency_ns }
    ensures begun { ForSome result.current (λ begun. begun.at_ns < to) }
    ensures room { result.late ≤ to }
    ensures counted { (course : StateCourse) (told : ℕ → Option ℕ) → HasWaits course told from waits.now
        → IsSteady course (Some Wait) from to → told from ≡ cpu → HasWaits course told to result }
{
    let begun = begun_at(waits.current, from, cpu);
    let ns = to - begun.at_ns;
    let late = waits.late + newly_late(waits.latency_ns, from - begun.at_ns, ns);
    Waits {
        latency_ns: waits.latency_ns,
        current: Some(begun),
        longest: longest_of(waits.longest, &begun, ns),
        late,
    }
}

// The wait that goes on, or one that begins here.
fn begun_at(current: Option<Begun>, from: u64, cpu: Option<u32>) -> Begun
    requires { ForSome current (λ begun. begun.at_ns < from) }
    ensures begun { BeginsOrGoesOn current from cpu result }
    ensures before { result.at_ns ≤ from }
{
    match current {
        Some(begun) => begun,
        None => Begun { at_ns: from, cpu },
    }
}

// How many waits become longer than they may be where one grows from a length to another.
fn newly_late(latency_ns: u64, before: u64, ns: u64) -> u64
    ensures few { result ≤ 1 }
    ensures late { before ≤ latency_ns → latency_ns < ns → result ≡ 1 }
    ensures not_yet { ns ≤ latency_ns → result ≡ 0 }
    ensures before { latency_ns < before → result ≡ 0 }
{
    if before <= latency_ns && latency_ns < ns {
        1
    } else {
        0
    }
}

// The longer of a wait and the one that has gone on for so long.
fn longest_of(longest: Option<LongestWait>, begun: &Begun, ns: u64) -> Option<LongestWait>
    ensures { result ≡ longer_of longest begun.now ns }
{
    let wait = LongestWait {
        ns,
        at_ns: begun.at_ns,
        cpu: begun.cpu,
    };
    match longest {
        Some(held) => Some(if ns <= held.ns { held } else { wait }),
        None => Some(wait),
    }
}
