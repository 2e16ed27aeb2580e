//! What an actor heard of the cores' clocks.
ghost use Rattle.std.specs.Prelude.{◌≡◌, ◌≤◌, ◌&&◌, ℕ, cond, length, nat_lt, slice_index};
ghost use Rattle.tab_core.specs.declared.TheConstants.{MAX_CORES};
ghost use Rattle.round_words.specs.Inside.Known.{raised};

use std::marker::Model;

/// For each core the clock that an actor heard last, in ticks. Contracts see the list, by core number.
///
/// An actor that has heard of all others that they are at some tick keeps that tick, and no number for each.
#[derive(Drop)]
pub struct HeardClocks {
    pub(crate) actor: u32,
    pub(crate) cores: u32,
    /// A tick at which each of the other cores was heard, or later.
    pub(crate) floor: u32,
    /// What else was heard of each.
    pub(crate) clocks: [u32; 32],
}

impl Model for HeardClocks {
    ghost use Rattle.std.specs.Prelude.{◌≤◌, ℕ, List};
    ghost use Rattle.tab_core.specs.declared.TheConstants.{MAX_CORES};
    ghost use Rattle.round_words.specs.Inside.Known.{raised};

    ghost Value = { List ℕ };

    ghost view = { λ h. raised h.actor h.floor h.cores h.clocks };

    ghost invariant = { λ h. h.cores ≤ MAX_CORES };
}

impl HeardClocks {
    /// What an actor has heard that has heard nothing yet, at a board with so many cores.
    pub fn new(actor: u32, cores: u32) -> HeardClocks
        requires { cores ≤ MAX_CORES }
        ensures { (d : ℕ) → slice_index result d ≡ 0 }
    {
        HeardClocks {
            actor,
            cores,
            floor: 0,
            clocks: [0; 32],
        }
    }

    // The actor has heard of the first so many other cores that they are at this tick, where it knew them below that.
    #[inline(always)]
    pub(crate) fn rise(&mut self, actor: u32, cores: u32, tick: u32)
        requires { cores ≤ MAX_CORES }
        ensures long { length self.old ≡ 32 }
        ensures raised { (d : ℕ) → slice_index self.new d ≡ slice_index (raised actor tick cores self.old) d }
    {
        if self.actor == actor && self.cores == cores {
            self.floor = self.floor.max(tick);
            return;
        }
        self.rise_each(actor, cores, tick);
    }

    // The actor has heard of the first so many other cores that they are at this tick, clock by clock.
    // It is a function of its own, since its lists would be cleared on the usual way too.
    #[cold]
    #[inline(never)]
    fn rise_each(&mut self, actor: u32, cores: u32, tick: u32)
        requires { cores ≤ MAX_CORES }
        ensures long { length self.old ≡ 32 }
        ensures raised { (d : ℕ) → slice_index self.new d ≡ slice_index (raised actor tick cores self.old) d }
    {
        let mut clocks = self.spread();
        raise(&mut clocks, actor, tick, cores);
        self.keep(clocks);
    }

    // The clocks, each by itself.
    pub(crate) fn spread(&self) -> [u32; 32]
        ensures { result ≡ self.now }
    {
        let mut clocks = self.clocks;
        raise(&mut clocks, self.actor, self.floor, self.cores);
        clocks
    }

    // These are the clocks from then on.
    pub(crate) fn keep(&mut self, clocks: [u32; 32])
        ensures { self.new ≡ clocks }
    {
        self.floor = 0;
        self.clocks = clocks;
    }
}

// Of the first so many clocks but the actor's, those below the floor become the floor.
pub(crate) fn raise(clocks: &mut [u32; 32], actor: u32, floor: u32, cores: u32)
    requires { cores ≤ MAX_CORES }
    ensures { clocks.new ≡ raised actor floor cores clocks.old }
{
    for core in 0..cores {
        let at = core as usize;
        clocks[at] = higher(clocks[at], floor, core != actor);
    }
}

// The clock, or the floor where that is above it and is heard.
fn higher(clock: u32, floor: u32, heard: bool) -> u32
    ensures { result ≡ cond (nat_lt clock floor && heard) floor clock }
{
    if clock < floor && heard { floor } else { clock }
}
