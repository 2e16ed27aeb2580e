ghost use Rattle.std.specs.Prelude.{◌+◌, ◌≤◌, ◌≡◌};
ghost use Rattle.host_judge.specs.Courses.{IsSteady, StateCourse};
ghost use Rattle.host_judge.specs.Inside.Settled.{HasTimes};

use host_trace::State;

// How long a vCPU was in each state, in ns.
#[derive(Clone, Copy)]
pub(crate) struct Times {
    pub(crate) run_ns: u64,
    pub(crate) wait_ns: u64,
    pub(crate) block_ns: u64,
}

// No time in any.
pub(crate) fn no_times() -> Times
    ensures run { result.run_ns ≡ 0 }
    ensures wait { result.wait_ns ≡ 0 }
    ensures block { result.block_ns ≡ 0 }
{
    Times {
        run_ns: 0,
        wait_ns: 0,
        block_ns: 0,
    }
}

// The times with those from a time to another in a state, which may be none.
pub(crate) fn times_behind(times: &Times, state: Option<State>, from: u64, to: u64) -> Times
    requires order { from ≤ to }
    requires room { times.now.run_ns + times.now.wait_ns + times.now.block_ns ≤ from }
    ensures room { result.run_ns + result.wait_ns + result.block_ns ≤ to }
    ensures counted { (course : StateCourse) → HasTimes course from times.now → IsSteady course state from to
        → HasTimes course to result }
{
    let ns = to - from;
    match state {
        Some(State::Run) => Times {
            run_ns: times.run_ns + ns,
            wait_ns: times.wait_ns,
            block_ns: times.block_ns,
        },
        Some(State::Wait) => Times {
            run_ns: times.run_ns,
            wait_ns: times.wait_ns + ns,
            block_ns: times.block_ns,
        },
        Some(State::Block) => Times {
            run_ns: times.run_ns,
            wait_ns: times.wait_ns,
            block_ns: times.block_ns + ns,
        },
        None => *times,
    }
}
