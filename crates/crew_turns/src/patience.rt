use crate::phase::Phase;
use crate::turning::Progress;
use crossbeam_utils::Backoff;
use std::thread::{sleep, yield_now};
use std::time::{Clock, Duration, Instant};

/// How many turns in a row in which nobody gets on end `drive_all`, and a worker's thread too at the latest.
pub const PATIENCE: u32 = 10_000_000;

// In how many turns of a wait a thread only spins, from one pause before the next turn to 64, and doesn't ask the clock: some 100 us.
// They don't count, since a shorter wait is the price of being side by side. Each look at the others' clocks takes the words away
// from the threads that write them, which is why the pauses grow. In each turn after these the thread asks the clock too, and lets
// others have its processor, since they may include the thread that it waits for. A yield takes half a microsecond on an idle
// machine, and a time slice of some 4 ms on a busy one.
const SPINS: u32 = 40;

// A thread that gets on asks the clock once in so many turns, which takes some 50 ns.
const STRIDE: u32 = 16;

// For how many microseconds a thread sleeps where it waits for plans that are still being made.
const NAP: u64 = 100;

/// How long a thread goes on beside others, by the clock and by what the phase allows. Time counts once all threads have come and
/// all plans are made.
#[derive(Drop)]
pub(crate) struct Patience<'a, K: Clock> {
    clock: &'a K,
    phase: &'a Phase<'a>,
    // How many turns got on, and how many in a row were in vain since.
    moved: u32,
    vain: u32,
    // When the time began that counts, and how long the waits since then were.
    begun: Option<Instant>,
    waited: Duration,
    // When the present wait began to count, if it does.
    since: Option<Instant>,
    // Whether all threads were seen to have come.
    sees_all: bool,
    // How long the next pause is.
    backoff: Backoff,
}

impl<'a, K: Clock> Patience<'a, K> {
    /// That of a thread that comes to the phase now.
    pub(crate) fn of(clock: &'a K, phase: &'a Phase<'a>) -> Self {
        phase.come();
        Patience {
            clock,
            phase,
            moved: 0,
            vain: 0,
            begun: Instant::now(clock).ok(),
            waited: Duration::ZERO,
            since: None,
            sees_all: false,
            backoff: Backoff::new(),
        }
    }

    /// Whether the thread is to make another turn, after one of which this came. It may wait for a moment before.
    #[inline(always)]
    pub(crate) fn goes_on(&mut self, progress: Progress) -> bool {
        if progress != Progress::Moved {
            return self.waits_on(progress);
        }
        if self.vain > 0 {
            self.end_wait();
        }
        self.moved = self.moved.wrapping_add(1);
        self.moved % STRIDE != 0 || self.is_allowed()
    }

    // Whether it is to make another turn after one in vain.
    #[inline(never)]
    fn waits_on(&mut self, progress: Progress) -> bool {
        match progress {
            Progress::Moved => true,
            Progress::Waits => self.waits(),
            Progress::Stopped => {
                self.phase.end();
                false
            }
            Progress::Done => {
                self.phase.done();
                false
            }
        }
    }

    // The wait is over.
    #[inline(never)]
    fn end_wait(&mut self) {
        self.vain = 0;
        self.backoff.reset();
        if self.since.is_some() {
            if let Ok(now) = Instant::now(self.clock) {
                self.waited = self.waited_until(now);
            }
            self.since = None;
        }
    }

    // How long its waits were, with the present one until now.
    fn waited_until(&self, now: Instant) -> Duration {
        match self.since {
            Some(since) => self.waited.saturating_add(now.duration_since(since)),
            None => self.waited,
        }
    }

    // Waits for a moment, if the thread is to go on.
    fn waits(&mut self) -> bool {
        self.vain = self.vain.saturating_add(1);
        if self.vain == 1 && self.phase.is_over() {
            return false;
        }
        self.backoff.spin();
        if self.vain < SPINS {
            return true;
        }
        if self.vain >= PATIENCE {
            self.phase.end();
            return false;
        }
        if !self.is_allowed() {
            return false;
        }
        if self.phase.is_ready() {
            yield_now();
        } else {
            sleep(self.clock, Duration::from_micros(NAP));
        }
        true
    }

    // Whether the phase allows the thread to go on, by the clock. If not, the phase is over.
    #[inline(never)]
    fn is_allowed(&mut self) -> bool {
        if self.phase.is_over() {
            return false;
        }
        let Ok(now) = Instant::now(self.clock) else {
            self.phase.end();
            return false;
        };
        if !self.phase.is_ready() {
            self.begin(now);
            return true;
        }
        if !self.sees_all && self.phase.has_all() {
            self.sees_all = true;
            self.begin(now);
        }
        if self.vain > 0 && self.since.is_none() {
            self.since = Some(now);
        }
        let spent = now.duration_since(self.begun.unwrap_or(now));
        let goes_on = self.phase.allows(spent, self.waited_until(now));
        if !goes_on {
            self.phase.end();
        }
        goes_on
    }

    // The time that counts begins.
    fn begin(&mut self, now: Instant) {
        self.begun = Some(now);
        self.waited = Duration::ZERO;
        if self.vain > 0 {
            self.since = Some(now);
        }
    }
}
