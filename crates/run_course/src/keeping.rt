ghost use Rattle.std.specs.Prelude.{◌≡◌, ◌≤◌, IfErr, IfOk, true};
ghost use Rattle.tab_core.specs.declared.TheConstants.{MAX_ROUNDS};
ghost use Rattle.run_course.specs.Inside.Keeping.{IsTraceWithinLimit, StopsRun, KeepAll};
ghost use Rattle.run_course.specs.Runs.{keeps_stints};

use run_limit::MostSpans;
use tab_core::CoreNo;
use tab_words::RunMode;
use table_form::Course;

/// The most stints that a run keeps, for a trace or for bursts.
pub const TRACE_LIMIT: u64 = 1_048_576;

/// Why a run doesn't begin.
#[derive(Clone, Copy, PartialEq, Eq)]
pub enum RunFault {
    /// All stints are to be kept, for a trace or for bursts, and the bound on them is greater than `TRACE_LIMIT`.
    TraceTooLong { bound: u64 },
    NoMemory,
}

// How many stints each core keeps: all that the run can have, or none.
pub(crate) fn keep_of(course: &Course, rounds: u32, mode: RunMode) -> Result<[u32; 32], RunFault>
    requires { rounds ≤ MAX_ROUNDS }
    ensures keeps { IfOk result (λ keep. keeps_stints mode ≡ true → KeepAll course.now rounds keep course.now.cores) }
    ensures short { IfOk result (λ _. IsTraceWithinLimit course.now rounds mode) }
    ensures cause { IfErr result (StopsRun course.now rounds mode) }
{
    let mut keep = [0; 32];
    if !keeps_stints(mode) {
        return Ok(keep);
    }
    let spans = MostSpans::of(course);
    let bound = spans.bound(course, rounds);
    if bound > TRACE_LIMIT {
        return Err(RunFault::TraceTooLong { bound });
    }
    for core in 0..course.cores() {
        keep[core as usize] = (u64::from(rounds) * spans.round_stints(course, CoreNo(core))) as u32;
    }
    Ok(keep)
}

// Whether all stints are kept.
fn keeps_stints(mode: RunMode) -> bool
    ensures { result ≡ keeps_stints mode }
{
    match mode {
        RunMode::Report | RunMode::Live => false,
        RunMode::Trace | RunMode::Burst => true,
    }
}
