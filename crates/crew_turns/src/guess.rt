ghost use Rattle.std.specs.Prelude.{◌≤◌};

use crate::clocks::OUT;

// After so many turns in a row in which the core ran as far as it was to, the next one is to run further.
const CALM: u32 = 512;

/// A guess which core is the one of least clock, found without looking at all of them, and how far it gets by itself.
/// Nothing is claimed of it: where the core that it names doesn't get on, a turn looks at all clocks (`find_least`).
#[derive(Drop)]
pub struct Guess {
    // By core number `64 * clock + core`, or u64::MAX for one that isn't to go on.
    places: [u64; 32],
    // The least of each four of them, and the least of all.
    fours: [u64; 8],
    least: u64,
    // Whether there are eight cores at most.
    few: bool,
    running: u32,
    // How far above its clock the core of least clock runs on, and in how many turns in a row it could.
    window: u32,
    calm: u32,
}

impl Guess {
    /// The guess for the first so many cores, whose clocks are given in ticks, OUT for one that isn't to go on. They may
    /// be so many ticks apart.
    pub fn of(ticks: &[u32; 32], cores: u32, lag: u32) -> Guess {
        let mut guess = Guess {
            places: [u64::MAX; 32],
            fours: [u64::MAX; 8],
            least: u64::MAX,
            few: cores <= 8,
            running: 0,
            window: lag / 2,
            calm: 0,
        };
        for core in 0..32 {
            let clock = ticks[core as usize];
            if clock != OUT {
                guess.running = guess.running.saturating_add(1);
                guess.put(core, clock as u64 * 64 + core as u64 % 64);
            }
        }
        if guess.running == 1 {
            guess.window = OUT;
        }
        guess
    }

    /// The number of a core, or 63 where it knows of none that is to go on.
    #[inline(always)]
    pub fn core(&self) -> u32 {
        (self.least % 64) as u32
    }

    /// Up to which clock the core of this clock runs on by itself: so far that the others seldom keep it waiting, or as
    /// far as it gets where it is the only one.
    #[inline(always)]
    pub fn limit(&self, clock: u32) -> u32
        ensures { clock ≤ result }
    {
        clock.saturating_add(self.window)
    }

    /// The core ran on to this clock, or has finished where it is OUT. `waits` says that it got no further.
    #[inline(always)]
    pub fn note(&mut self, core: u32, clock: u32, waits: bool) {
        if clock == OUT {
            self.leave(core);
            return;
        }
        if waits {
            self.narrow();
        } else {
            self.calm = self.calm.wrapping_add(1);
            if self.calm >= CALM {
                self.widen();
            }
        }
        self.put(core, clock as u64 * 64 + core as u64 % 64);
    }

    // The core has finished.
    #[cold]
    #[inline(never)]
    fn leave(&mut self, core: u32) {
        self.running = self.running.saturating_sub(1);
        if self.running == 1 {
            self.window = OUT;
        }
        self.put(core, u64::MAX);
    }

    // A core that ran ahead had to wait.
    #[cold]
    #[inline(never)]
    fn narrow(&mut self) {
        self.calm = 0;
        if self.running > 1 {
            self.window /= 2;
        }
    }

    // No core had to wait in many turns.
    #[cold]
    #[inline(never)]
    fn widen(&mut self) {
        self.calm = 0;
        self.window = self.window.saturating_mul(2).saturating_add(1);
    }

    #[inline(always)]
    fn put(&mut self, core: u32, place: u64) {
        let at = core as usize % 32;
        self.places[at] = place;
        let four = at / 4;
        let first = 4 * four;
        let least = self.places[first]
            .min(self.places[first + 1])
            .min(self.places[first + 2].min(self.places[first + 3]));
        self.fours[four] = least;
        let low = self.fours[0].min(self.fours[1]);
        self.least = if self.few {
            low
        } else {
            low.min(self.higher_least())
        };
    }

    // The least of the cores from number 8 on.
    #[inline(always)]
    fn higher_least(&self) -> u64 {
        let fours = &self.fours;
        fours[2]
            .min(fours[3])
            .min(fours[4].min(fours[5]))
            .min(fours[6].min(fours[7]))
    }
}
