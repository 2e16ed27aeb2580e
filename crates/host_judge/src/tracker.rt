ghost use Rattle.std.specs.Prelude.{◌≡◌, ◌+◌, ◌<◌, ◌≤◌};
ghost use Rattle.std.specs.Option.{ForSome};

use crate::times::{Times, no_times, times_behind};
use crate::waits::{Waits, no_waits, waits_behind};
use crate::windows::Windows;
use host_trace::{Mark, State};
use std::alloc::{AllocError, Global};

// What is kept of one vCPU: the state that its last mark says and the time of that, and all before that time.
#[derive(Drop)]
pub(crate) struct Tracker {
    pub(crate) state: Option<State>,
    pub(crate) since_ns: u64,
    // the CPU that was named last
    pub(crate) cpu: Option<u32>,
    pub(crate) times: Times,
    pub(crate) waits: Waits,
    pub(crate) windows: Windows,
    ghost times_fit: { times.run_ns + times.wait_ns + times.block_ns ≤ since_ns },
    ghost wait_began: { ForSome waits.current (λ begun. begun.at_ns < since_ns) },
    ghost late_fit: { waits.late ≤ since_ns },
}

impl Tracker {
    ghost use Rattle.std.specs.Prelude.{◌≡◌, ◌<◌, ◌≤◌, [], ◌∷◌, ◌++◌, List, OnErr, OnOk};
    ghost use Rattle.host_trace.specs.declared.mark.Mark.{Mark};
    ghost use Rattle.host_judge.specs.Inside.Judged.{terms_of};
    ghost use Rattle.host_judge.specs.Inside.Settled.{CountsOn, IsTracked};

    // A vCPU without a mark, whose waits may be so long, with windows of this length.
    pub(crate) fn begin(alloc: Global, latency_ns: u64, window_ns: u64) -> Tracker
        requires { 0 < window_ns }
        ensures since { result.since_ns ≡ 0 }
        ensures latency { result.waits.latency_ns ≡ latency_ns }
        ensures window { result.windows.window_ns ≡ window_ns }
        ensures tracked { IsTracked [] result }
    {
        Tracker {
            state: None,
            since_ns: 0,
            cpu: None,
            times: no_times(),
            waits: no_waits(latency_ns),
            windows: Windows::begin(alloc, window_ns),
        }
    }

    // Takes the vCPU's next mark.
    pub(crate) fn take(&mut self, mark: &Mark) -> Result<(), AllocError>
        requires { self.old.since_ns ≤ mark.now.time_ns }
        ensures since { self.new.since_ns ≤ mark.now.time_ns }
        ensures terms { terms_of self.new ≡ terms_of self.old }
        ensures tracked { OnOk result ((marks : List Mark) → IsTracked marks self.old
            → IsTracked (marks ++ mark.now ∷ []) self.new) }
    {
        self.settle(mark.time_ns)?;
        self.state = Some(mark.state);
        self.cpu = mark.cpu.or(self.cpu);
        Ok(())
    }

    // Counts what is before a time.
    pub(crate) fn settle(&mut self, to: u64) -> Result<(), AllocError>
        requires { self.old.since_ns ≤ to }
        ensures within { self.new.since_ns ≤ to }
        ensures since { OnOk result (self.new.since_ns ≡ to) }
        ensures state { self.new.state ≡ self.old.state }
        ensures cpu { self.new.cpu ≡ self.old.cpu }
        ensures terms { terms_of self.new ≡ terms_of self.old }
        ensures settled { OnOk result (CountsOn self.old to self.new) }
    {
        let from = self.since_ns;
        if from == to {
            return Ok(());
        }
        let ran = self.times.run_ns;
        let runnable = ran + self.times.wait_ns;
        self.windows
            .go_on(self.state, from, to - from, runnable, ran)?;
        let times = times_behind(&self.times, self.state, from, to);
        let waits = waits_behind(&self.waits, self.state, from, to, self.cpu);
        self.times = times;
        self.waits = waits;
        self.since_ns = to;
        Ok(())
    }
}
