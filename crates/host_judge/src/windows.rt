ghost use Rattle.std.specs.Prelude.{◌+◌, ◌-◌, ◌<◌, ◌≤◌, ◌^◌};

use crate::least::{Least, lesser};
use host_trace::State;
use std::alloc::{AllocError, Global};
use std::collections::VecDeque;

// A time in which a vCPU ran without an end, and how long it had run before. What begins and ends is counted in
// ns of running and waiting, from which what it was blocked is cut out.
#[derive(Clone, Copy)]
pub(crate) struct Stretch {
    pub(crate) from_ns: u64,
    pub(crate) to_ns: u64,
    pub(crate) ran_ns: u64,
    // the time of the trace when it began
    pub(crate) at_ns: u64,
    // that of the first ns of running and waiting after the stretch before
    pub(crate) paused_ns: u64,
    ghost order: { from_ns ≤ to_ns },
    ghost fits: { ran_ns ≤ from_ns },
    ghost ends: { at_ns + (to_ns - from_ns) < 2 ^ 64 },
}

// From when on a vCPU doesn't run before its next stretch, in ns of running and waiting, and how long it had run by then.
#[derive(Clone, Copy)]
pub(crate) struct Pause {
    pub(crate) since_ns: u64,
    pub(crate) ran_ns: u64,
}

// Since when a vCPU hasn't run before a time, how long it had run by then, and that time of the trace.
#[derive(Clone, Copy)]
pub(crate) struct Start {
    pub(crate) since_ns: u64,
    pub(crate) ran_ns: u64,
    pub(crate) at_ns: u64,
}

// The windows of a vCPU. What it keeps of the past are the stretches of running that lie in the last window.
#[derive(Drop)]
pub(crate) struct Windows {
    pub(crate) window_ns: u64,
    // how it was before the stretches
    pub(crate) pause: Pause,
    // when the wait began that comes after the last stretch, if one does
    pub(crate) waits_at: Option<u64>,
    pub(crate) runs: VecDeque<Stretch>,
    pub(crate) least: Option<Least>,
    ghost some: { 0 < window_ns },
}

impl Windows {
    ghost use Rattle.std.specs.Prelude.{◌≡◌, ℕ, ◌+◌, ◌-◌, ◌<◌, ◌≤◌, ◌^◌, [], ◌∷◌, MatchOption, OnOk, Some, drop};
    ghost use Rattle.host_trace.specs.declared.mark.State.TheVariants.{Run, Wait};
    ghost use Rattle.host_judge.specs.Courses.{IsSteady, StateCourse, time_before};
    ghost use Rattle.host_judge.specs.Windows.{runnable_before};
    ghost use Rattle.host_judge.specs.Inside.Placed.{HasLeastPlace, HasPlaces, HasWindowsOf, IsPlace, IsPlacedOn};
    ghost use Rattle.host_judge.specs.Inside.Windowed.{HasTrail, HasWindows, IsAhead, IsLeastSoFar, IsStart};

    // No window, of a vCPU of which nothing is known yet.
    pub(crate) fn begin(alloc: Global, window_ns: u64) -> Windows
        requires { 0 < window_ns }
        ensures window { result.window_ns ≡ window_ns }
        ensures counted { (course : StateCourse) → HasWindowsOf course 0 result }
    {
        Windows {
            window_ns,
            pause: Pause {
                since_ns: 0,
                ran_ns: 0,
            },
            waits_at: None,
            runs: VecDeque::new(alloc),
            least: None,
        }
    }

    // Goes on for so long from a time on, in which the state stays the same; so long had it run and waited before, and so
    // long had it run.
    pub(crate) fn go_on(
        &mut self,
        state: Option<State>,
        at: u64,
        ns: u64,
        from: u64,
        ran: u64,
    ) -> Result<(), AllocError>
        requires some { 0 < ns }
        requires room { at + ns < 2 ^ 64 }
        requires past { from ≤ at }
        requires part { ran ≤ from }
        ensures window { self.new.window_ns ≡ self.old.window_ns }
        ensures counted { OnOk result ((course : StateCourse) → HasWindowsOf course at self.old
            → from ≡ runnable_before course at → ran ≡ time_before course Run at
            → IsSteady course state at (at + ns) → HasWindowsOf course (at + ns) self.new) }
    {
        match state {
            Some(State::Run) => self.run_on(at, from, from + ns, ran)?,
            Some(State::Wait) => self.wait_on(at, from, from + ns, ran),
            Some(State::Block) => {}
            None => {}
        }
        Ok(())
    }

    // Goes on where the vCPU runs. Only a first whole window can have less than those before.
    fn run_on(&mut self, at: u64, from: u64, to: u64, ran: u64) -> Result<(), AllocError>
        requires order { from < to }
        requires room { at + (to - from) < 2 ^ 64 }
        requires part { ran ≤ from }
        ensures window { self.new.window_ns ≡ self.old.window_ns }
        ensures counted { OnOk result ((cut : StateCourse) → HasWindows cut from self.old
            → ran ≡ time_before cut Run from → IsSteady cut (Some Run) from to
            → HasWindows cut to self.new) }
        ensures placed { OnOk result ((course : StateCourse) → HasPlaces course from self.old
            → IsPlacedOn course at from (to - from) → HasPlaces course to self.new) }
    {
        let least = self.least_running(at, from, to, ran);
        let paused_ns = self.waits_from(at);
        self.runs.reserve(1)?;
        self.least = least;
        self.runs.push_back_reserved(Stretch {
            from_ns: from,
            to_ns: to,
            ran_ns: ran,
            at_ns: at,
            paused_ns,
        });
        self.waits_at = None;
        self.drop_by(to.saturating_sub(self.window_ns));
        Ok(())
    }

    // When the wait began that comes after the last stretch, or this time where none does.
    fn waits_from(&self, at: u64) -> u64
        ensures { MatchOption self.now.waits_at (result ≡ at) (λ begun. result ≡ begun) }
    {
        match self.waits_at {
            Some(begun) => begun,
            None => at,
        }
    }

    // The least after that, for which only a first whole window counts.
    fn least_running(&self, at: u64, from: u64, to: u64, ran: u64) -> Option<Least>
        requires order { from < to }
        requires part { ran ≤ from }
        ensures counted { (cut : StateCourse) → HasWindows cut from self.now → ran ≡ time_before cut Run from
            → IsSteady cut (Some Run) from to → IsLeastSoFar cut self.now.window_ns to result }
        ensures placed { (course : StateCourse) → HasPlaces course from self.now
            → IsPlace course at from → HasLeastPlace course result }
    {
        if self.window_ns <= from {
            return self.least;
        }
        if to < self.window_ns {
            return self.least;
        }
        let window = Least {
            run_ns: (ran + (self.window_ns - from)).saturating_sub(self.pause.ran_ns),
            begin_ns: self.pause.since_ns,
            at_ns: self.begun_at(at),
        };
        lesser(self.least, &window)
    }

    // When the pause began that comes first, where the time after the last stretch goes on from this one.
    fn begun_at(&self, at: u64) -> u64
        ensures { (course : StateCourse) (from : ℕ) → HasPlaces course from self.now → IsPlace course at from
            → IsPlace course result self.now.pause.since_ns }
    {
        match self.next_run() {
            Some(stretch) => stretch.paused_ns,
            None => self.waits_from(at),
        }
    }

    // Goes on where it waits. Each window has at least what the last has.
    fn wait_on(&mut self, at: u64, from: u64, to: u64, ran: u64)
        requires order { from < to }
        ensures window { self.new.window_ns ≡ self.old.window_ns }
        ensures counted { (cut : StateCourse) → HasWindows cut from self.old
            → ran ≡ time_before cut Run from → IsSteady cut (Some Wait) from to
            → HasWindows cut to self.new }
        ensures placed { (course : StateCourse) → HasPlaces course from self.old
            → IsPlacedOn course at from (to - from) → HasPlaces course to self.new }
    {
        let begun = self.waits_from(at);
        self.waits_at = Some(begun);
        if to < self.window_ns {
            return;
        }
        let begin = to - self.window_ns;
        self.drop_by(begin);
        let start = self.start_at(begin, begun);
        let window = Least {
            run_ns: ran.saturating_sub(start.ran_ns),
            begin_ns: start.since_ns,
            at_ns: start.at_ns,
        };
        self.least = lesser(self.least, &window);
    }

    // The first of the stretches.
    fn next_run(&self) -> Option<Stretch>
        ensures { MatchOption result (self.now.runs.items ≡ [])
            (λ stretch. self.now.runs.items ≡ stretch ∷ drop 1 self.now.runs.items) }
    {
        self.runs.front().copied()
    }

    // The start of a time by which no stretch ends; the wait after the last stretch began then.
    fn start_at(&self, time: u64, waits_at: u64) -> Start
        requires waits { self.now.waits_at ≡ Some waits_at }
        requires ahead { IsAhead time self.now.runs.items }
        ensures counted { (cut : StateCourse) (to : ℕ) → time ≤ to → HasTrail cut to time self.now
            → IsStart cut time result }
        ensures placed { (course : StateCourse) (to : ℕ) → HasPlaces course to self.now
            → IsPlace course result.at_ns result.since_ns }
    {
        let Some(stretch) = self.next_run() else {
            return Start {
                since_ns: self.pause.since_ns,
                ran_ns: self.pause.ran_ns,
                at_ns: waits_at,
            };
        };
        if time <= stretch.from_ns {
            return Start {
                since_ns: self.pause.since_ns,
                ran_ns: self.pause.ran_ns,
                at_ns: stretch.paused_ns,
            };
        }
        let ns = time - stretch.from_ns;
        Start {
            since_ns: time,
            ran_ns: stretch.ran_ns + ns,
            at_ns: stretch.at_ns + ns,
        }
    }

    // Drops the stretches that end by a time.
    fn drop_by(&mut self, time: u64)
        ensures window { self.new.window_ns ≡ self.old.window_ns }
        ensures least { self.new.least ≡ self.old.least }
        ensures waits { self.new.waits_at ≡ self.old.waits_at }
        ensures ahead { IsAhead time self.new.runs.items }
        ensures trail { (cut : StateCourse) (to : ℕ) → HasTrail cut to time self.old → HasTrail cut to time self.new }
        ensures placed { (course : StateCourse) (to : ℕ) → HasPlaces course to self.old → HasPlaces course to self.new }
    {
        loop {
            let Some(stretch) = self.next_run() else {
                return;
            };
            if time < stretch.to_ns {
                return;
            }
            self.pause = Pause {
                since_ns: stretch.to_ns,
                ran_ns: stretch.ran_ns + (stretch.to_ns - stretch.from_ns),
            };
            self.runs.pop_front();
        }
    }
}
