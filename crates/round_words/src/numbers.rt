//! The plain numbers of a seat, from which its calls work. They agree with its view.
ghost use Rattle.std.specs.Prelude.{◌≡◌, ◌<◌, ◌≤◌, ◌-◌, ◌/◌, ℕ, suc, cond, min, length, replicate, slice_index, true, false};
ghost use Rattle.tab_core.specs.declared.TheConstants.{MAX_CORES, MAX_EVENTS};
ghost use Rattle.tab_core.specs.declared.entry.Entry.{Entry};
ghost use Rattle.tab_core.specs.declared.stint.Stint.{Stint};
ghost use Rattle.round_words.specs.Inside.Known.{AreKnown};
ghost use Rattle.round_words.specs.Inside.Numbers.{NumbersAgree};
ghost use Rattle.round_words.specs.Views.{both, controller, hears, holds, just_started, names, only, part, posts, sees, with_entry, with_part, with_stint, without};
ghost use Rattle.round_words.specs.Shown.{IsHeardClock};
ghost use Rattle.round_words.specs.declared.view.View.{View};

/// What is here of an actor whose part the seat doesn't hold means nothing, but for a core's clock.
#[derive(Drop)]
pub(crate) struct Numbers {
    /// A bit for each actor that the seat holds.
    pub(crate) held: u64,
    /// How many cores the board has.
    pub(crate) cores: u32,
    /// How many events the controller has posted.
    pub(crate) posted: u32,
    /// The clock of each core that the seat holds. Of another the last clock that one of the seat's actors heard, or 0
    /// where none heard it since the core or that actor was in another seat.
    pub(crate) clocks: [u32; 32],
    /// A tick that none of the cores' clocks is below.
    pub(crate) floor: u32,
    /// What each core saw last, or 0 where it has seen nothing since its last stint.
    pub(crate) sights: [u32; 32],
    /// Four for each core: the used counts of the last rounds that it entered, by the round's remainder.
    pub(crate) useds: [u32; 128],
}

// Takes over the numbers of those cores whose bit is not set in `held`.
fn take_over(mine: &mut [u32; 32], theirs: &[u32; 32], held: u64)
    ensures { (c : ℕ) → c < 32
        → slice_index mine.new c ≡ cond (names held c) (slice_index mine.old c) (slice_index theirs.now c) }
{
    for core in 0..32 {
        if (held >> core) & 1 == 0 {
            mine[core] = theirs[core];
        }
    }
}

// Takes over the numbers of those cores whose bit is not set in `held`, where each core has four
// numbers.
fn take_rows(mine: &mut [u32; 128], theirs: &[u32; 128], held: u64)
    ensures { (i : ℕ) → i < 128
        → slice_index mine.new i ≡ cond (names held (i / 4)) (slice_index mine.old i) (slice_index theirs.now i) }
{
    for place in 0..128 {
        if (held >> (place / 4)) & 1 == 0 {
            mine[place] = theirs[place];
        }
    }
}

// The posted count of the seat that holds the controller.
fn posted_of(mine: u32, theirs: u32, held: u64) -> u32
    ensures { result ≡ cond (names held controller) mine theirs }
{
    if (held >> 32) & 1 == 0 { theirs } else { mine }
}

// The least of the first so many numbers.
#[cold]
#[inline(never)]
fn least_of(clocks: &[u32; 32], count: u32) -> u32
    ensures { (d : ℕ) → d < 32 → d < count → result ≤ slice_index clocks.now d }
{
    let mut least = u32::MAX;
    for at in 0..(count as usize).min(32) {
        least = least.min(clocks[at]);
    }
    least
}

// The floor isn't above the tick from then on. Clocks rise, so this is a test and seldom a store.
#[inline(always)]
fn lower_to(floor: &mut u32, tick: u32)
    ensures { floor.new ≡ min floor.old tick }
{
    if tick < *floor {
        *floor = tick;
    }
}

impl Numbers {
    // Those of new parts, of the actors whose bit is set, at a board with so many cores.
    pub(crate) fn new(held: u64, cores: u32) -> Numbers
        ensures held { result.held ≡ held }
        ensures cores { result.cores ≡ cores }
        ensures posted { result.posted ≡ 0 }
        ensures floor { result.floor ≡ 0 }
        ensures clocks { result.clocks ≡ replicate 32 0 }
        ensures sights { result.sights ≡ replicate 32 0 }
    {
        Numbers {
            held,
            cores,
            posted: 0,
            clocks: [0; 32],
            floor: 0,
            sights: [0; 32],
            useds: [0; 128],
        }
    }

    // Those of the seat that started a board.
    pub(crate) fn of_all(cores: u32) -> Numbers
        requires cores { cores ≤ MAX_CORES }
        ensures { (lag events : ℕ) → 0 < lag → events ≤ MAX_EVENTS
            → NumbersAgree result (just_started lag cores events) }
    {
        Numbers::new(((1 << cores) - 1) | (1 << 32), cores)
    }

    // Gives the parts of these actors away.
    pub(crate) fn give(&mut self, actors: u64) -> Numbers
        ensures kept { (v : View) → NumbersAgree self.old v → NumbersAgree self.new (without actors v) }
        ensures given { (v : View) → ((a : ℕ) → names actors a ≡ true → holds v a ≡ true)
            → NumbersAgree self.old v → NumbersAgree result (only actors v) }
    {
        let mut given = Numbers {
            held: actors,
            cores: self.cores,
            posted: self.posted,
            clocks: self.clocks,
            floor: 0,
            sights: self.sights,
            useds: self.useds,
        };
        given.forget_others();
        self.held &= !actors;
        self.forget_others();
        given
    }

    // Of the cores that the seat doesn't hold no clock is known from then on.
    fn forget_others(&mut self)
        ensures same { (self.new.held ≡ self.old.held) × (self.new.cores ≡ self.old.cores)
            × (self.new.posted ≡ self.old.posted) × (self.new.sights ≡ self.old.sights)
            × (self.new.useds ≡ self.old.useds) }
        ensures held { (c : ℕ) → c < 32 → names self.new.held c ≡ true
            → slice_index self.new.clocks c ≡ slice_index self.old.clocks c }
        ensures others { (c : ℕ) → c < 32 → c < self.new.cores → names self.new.held c ≡ false
            → slice_index self.new.clocks c ≡ 0 }
        ensures floor { self.new.floor ≡ 0 }
    {
        take_over(&mut self.clocks, &[0; 32], self.held);
        self.floor = 0;
    }

    // Takes in the parts of another seat.
    pub(crate) fn take_in(&mut self, theirs: &Numbers)
        ensures { (v u : View) → NumbersAgree self.old v → NumbersAgree theirs.now u
            → NumbersAgree self.new (both v u) }
    {
        self.posted = posted_of(self.posted, theirs.posted, self.held);
        take_over(&mut self.clocks, &theirs.clocks, self.held);
        take_over(&mut self.sights, &theirs.sights, self.held);
        take_rows(&mut self.useds, &theirs.useds, self.held);
        self.held |= theirs.held;
        self.forget_others();
    }

    // The controller has posted one event more.
    pub(crate) fn note_post(&mut self, count: u32)
        ensures { (v : View) (floor : ℕ) → holds v controller ≡ true
            → count ≡ suc (length (part v controller).floors) → NumbersAgree self.old v
            → NumbersAgree self.new (with_part v controller (posts (part v controller) floor)) }
    {
        self.posted = count;
    }

    // A core has seen this count.
    pub(crate) fn note_sight(&mut self, core: usize, count: u32)
        requires core { core < 32 }
        ensures { (v : View) → holds v core ≡ true → NumbersAgree self.old v
            → NumbersAgree self.new (with_part v core (sees (part v core) count)) }
    {
        self.sights[core] = count;
    }

    // Whether no clock is known below the tick. All of them are looked at only where the floor doesn't tell it.
    #[inline(always)]
    pub(crate) fn reach(&mut self, tick: u32) -> bool
        ensures kept { (v : View) → NumbersAgree self.old v → NumbersAgree self.new v }
        ensures known { result ≡ true → (v : View) → v.started ≡ true → NumbersAgree self.old v
            → AreKnown self.old.clocks v v.cores tick }
    {
        if tick <= self.floor {
            return true;
        }
        self.floor = least_of(&self.clocks, self.cores);
        tick <= self.floor
    }

    // An actor has heard this clock of the core.
    pub(crate) fn note_heard(&mut self, core: usize, clock: u32)
        requires core { core < 32 }
        ensures { (v : View) (a : ℕ) → holds v a ≡ true → IsHeardClock v a core clock
            → NumbersAgree self.old v
            → NumbersAgree self.new (with_part v a (hears (part v a) core clock)) }
    {
        self.clocks[core] = clock;
        self.floor = self.floor.min(clock);
    }

    // A core has entered this round.
    pub(crate) fn note_entry(&mut self, core: usize, round: u32, used: u32)
        requires core { core < 32 }
        ensures { (v : View) (e : Entry) → holds v core ≡ true → length (part v core).entries ≡ round
            → e.used ≡ used → NumbersAgree self.old v
            → NumbersAgree self.new (with_part v core (with_entry (part v core) e)) }
    {
        self.useds[4 * core + round as usize % 4] = used;
    }

    // A core has run up to this tick.
    pub(crate) fn note_stint(&mut self, core: usize, end: u32)
        requires core { core < 32 }
        ensures { (v : View) (s : Stint) → holds v core ≡ true → s.end ≡ end → NumbersAgree self.old v
            → NumbersAgree self.new (with_part v core (with_stint (part v core) s)) }
    {
        self.clocks[core] = end;
        lower_to(&mut self.floor, end);
        self.sights[core] = 0;
    }
}
