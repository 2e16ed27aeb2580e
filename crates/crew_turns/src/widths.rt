use crate::phase::Phase;
use std::sync::atomic::AtomicBool;
use std::time::Duration;

// For how many microseconds workers of all cores are tried where there are more of them than processors, and as many threads as
// processors, and one thread. Half as many threads have half of it, a quarter of them a quarter. All trials together take less than
// three times as long, besides that of one thread, which loses nothing.
const TRIAL: u64 = 5_000;

// After a late phase one thread goes on for 2 to the power of this times its trial, 80 milliseconds, before others are tried.
const PAUSE: u32 = 4;

// The time of a phase is doubled so often at most: to 5 seconds.
const DOUBLINGS: u32 = 10;

/// The numbers of threads that may make a phase, and how fast each was when it was last tried.
#[derive(Drop)]
pub(crate) struct Widths {
    processors: u32,
    // A worker for each core and one thread for the controller; as many threads as processors; half as many; down to one. 0 is none.
    threads: [u32; 8],
    // In ticks of all cores together in a millisecond. One that wasn't tried yet counts as the fastest.
    paces: [u64; 8],
    // Which of them makes the phase, and how many phases it has made in a row before.
    place: usize,
    times: u32,
}

impl Widths {
    /// Those of so many cores on so many processors. A worker for each core comes first.
    pub(crate) fn of(cores: u32, processors: u32) -> Self {
        let mut threads = [0u32; 8];
        threads[0] = cores.saturating_add(1);
        let mut fewer = cores.min(processors).max(1);
        for place in 1..8 {
            threads[place] = fewer;
            fewer /= 2;
        }
        Widths {
            processors,
            threads,
            paces: [u64::MAX; 8],
            place: 0,
            times: 0,
        }
    }

    /// The next phase. `ready` says whether its time counts yet.
    pub(crate) fn phase<'a>(&self, ready: &'a AtomicBool) -> Phase<'a> {
        let threads = self.threads.get(self.place).copied().unwrap_or(1);
        let halves = if threads <= 1 {
            0
        } else {
            (self.place as u32).saturating_sub(1)
        };
        let least = TRIAL.checked_shr(halves).unwrap_or(0);
        let allowed = least.saturating_mul(1 << self.times.min(DOUBLINGS));
        let own = self.place == 0;
        Phase::of(
            threads,
            own,
            self.processors,
            Duration::from_micros(allowed),
            ready,
        )
    }

    /// Goes on to the fastest number of threads, after a phase in which the cores got on by so many ticks in so long. False says
    /// that there is no further phase: all have ended, not all threads could be made, or one thread got nowhere.
    pub(crate) fn go_on(&mut self, phase: &Phase<'_>, ticks: u64, spent: Duration) -> bool {
        if !phase.is_over() || !phase.has_all() || ticks == 0 && phase.is_alone() {
            return false;
        }
        let micros = u64::try_from(spent.as_micros()).unwrap_or(u64::MAX);
        if let Some(pace) = self.paces.get_mut(self.place) {
            *pace = ticks.saturating_mul(1_000) / micros.max(1);
        }
        if phase.is_late(spent) && !phase.is_alone() {
            (self.place, self.times) = (self.alone(), PAUSE);
            return true;
        }
        let fastest = self.fastest();
        if fastest == self.place {
            self.times = self.times.saturating_add(1);
            self.raise_others();
        } else {
            self.place = fastest;
            self.times = self.times.saturating_sub(3);
        }
        true
    }

    // Takes the others for faster by an eighth than before. So one that is about as fast is soon tried again, in a phase of an
    // eighth of the present one's time, and one that is slow is not. A first trial may flatter one of them by half, since other
    // programs and cold caches disturb it; six phases later the other is tried again.
    fn raise_others(&mut self) {
        for place in 0..8 {
            if place != self.place {
                let pace = self.paces[place];
                self.paces[place] = pace.saturating_add(pace / 8);
            }
        }
    }

    // Which of them is one thread.
    fn alone(&self) -> usize {
        let mut alone = 0;
        for place in 0..8 {
            if self.threads[place] > 0 {
                alone = place;
            }
        }
        alone
    }

    // Which of them is the fastest, as far as is known.
    fn fastest(&self) -> usize {
        let (mut fastest, mut most) = (0, 0);
        for place in 0..8 {
            if self.threads[place] > 0 && self.paces[place] > most {
                (fastest, most) = (place, self.paces[place]);
            }
        }
        fastest
    }
}
