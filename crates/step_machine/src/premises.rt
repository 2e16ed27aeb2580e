ghost use Rattle.std.specs.Prelude.{◌≡◌, ◌≢◌, ◌+◌, ◌*◌, ◌/◌, ◌^◌, ◌<◌, ◌≤◌, ◌↔◌, ℕ, false, true, IsTrue, IfSome, IfNone, Some, length, slice_get};
ghost use Rattle.tab_core.specs.declared.TheConstants.{MAX_CORES, MAX_ROUNDS};
ghost use Rattle.tab_core.specs.declared.entry.Entry.{Entry as EntryValue};
ghost use Rattle.table_form.specs.Running.Phases.{phase_of};
ghost use Rattle.table_form.specs.Running.State.{CoreState};
ghost use Rattle.table_form.specs.Running.Waiting.{AreWithinLag, IsFirstBehind};
ghost use Rattle.table_form.specs.Promises.Fresh.{HasUpTo};
ghost use Rattle.step_machine.specs.declared.core_log.CoreLog.{CoreLog as LogValue};
ghost use Rattle.step_machine.specs.Answers.{shown};
ghost use Rattle.step_machine.specs.Inside.Logs.{core_of_log, cores_of_logs};

use crate::answer::Phase;
use crate::core_log::CoreLog;
use tab_core::{CoreNo, ROUND};
use table_form::Course;

// What the core has to do next.
pub(crate) fn phase_at(log: &CoreLog, rounds: u32) -> Phase
    requires few { rounds ≤ MAX_ROUNDS }
    requires numbered { (k : ℕ) (e : EntryValue) → slice_get log.now.entries.items k ≡ Some e → e.round ≡ k }
    ensures { result ≡ shown (phase_of rounds (core_of_log log.now)) }
{
    if log.clock == rounds * ROUND {
        return Phase::Finished;
    }
    if log.seen.is_none() {
        return Phase::See;
    }
    if ((log.clock / ROUND) as usize) < log.entries.len() {
        Phase::Run
    } else {
        Phase::Decide
    }
}

// Whether the count has each event of tick at most the clock less the lag.
pub(crate) fn has_up_to(course: &Course, count: u32, clock: u32) -> bool
    requires { count ≤ length course.now.ticks }
    ensures { IsTrue result ↔ HasUpTo course.now count clock }
{
    if count == course.count() {
        return true;
    }
    course.tick_of(count) as u64 + course.lag() as u64 > clock as u64
}

// A core whose clock is too low.
#[derive(Clone, Copy)]
pub(crate) struct Low {
    pub(crate) core: CoreNo,
    pub(crate) clock: u32,
}

// The lowest core, other than the one that is skipped, whose clock is below the tick less the lag. Mostly
// there is none.
pub(crate) fn lowest_behind(logs: &[CoreLog], lag: u32, skip: Option<u32>, tick: u32) -> Option<Low>
    requires few { length logs.now ≤ MAX_CORES }
    requires small { (k : ℕ) (log : LogValue) → slice_get logs.now k ≡ Some log → log.clock + lag < 2 ^ 32 }
    ensures some { IfSome result (λ low. IsFirstBehind lag (cores_of_logs logs.now) skip tick low.core low.clock) }
    ensures none { IfNone result (AreWithinLag lag (cores_of_logs logs.now) skip tick) }
{
    if are_within(logs, lag, tick) {
        return None;
    }
    first_behind(logs, lag, skip, tick)
}

// Whether no clock is below the tick less the lag. It stays out of the step, so that its loop has the
// registers to itself.
#[inline(never)]
fn are_within(logs: &[CoreLog], lag: u32, tick: u32) -> bool
    ensures { result ≡ true → (d : ℕ) (other : CoreState) → slice_get (cores_of_logs logs.now) d ≡ Some other
        → tick ≤ other.clock + lag }
{
    let least = tick.saturating_sub(lag);
    for log in logs {
        if log.clock < least {
            return false;
        }
    }
    true
}

// `lowest_behind` by a test of each core.
#[inline(never)]
fn first_behind(logs: &[CoreLog], lag: u32, skip: Option<u32>, tick: u32) -> Option<Low>
    requires few { length logs.now ≤ MAX_CORES }
    requires small { (k : ℕ) (log : LogValue) → slice_get logs.now k ≡ Some log → log.clock + lag < 2 ^ 32 }
    ensures some { IfSome result (λ low. IsFirstBehind lag (cores_of_logs logs.now) skip tick low.core low.clock) }
    ensures none { IfNone result (AreWithinLag lag (cores_of_logs logs.now) skip tick) }
{
    for d in 0..logs.len() {
        let log = &logs[d];
        if is_behind(log, lag, skip, tick, d as u32) {
            return Some(Low {
                core: CoreNo(d as u32),
                clock: log.clock,
            });
        }
    }
    None
}

fn is_behind(log: &CoreLog, lag: u32, skip: Option<u32>, tick: u32, d: u32) -> bool
    requires { log.now.clock + lag < 2 ^ 32 }
    ensures yes { IsTrue result → (skip ≢ Some d) × (log.now.clock + lag < tick) }
    ensures no { result ≡ false → skip ≢ Some d → tick ≤ log.now.clock + lag }
{
    if skip == Some(d) {
        return false;
    }
    log.clock + lag < tick
}
