ghost use Rattle.std.specs.Prelude.{◌≡◌, ◌+◌, ◌*◌, ◌<◌, ◌≤◌, ◌^◌};
ghost use Rattle.run_counts.specs.Inside.Repeats.{IsSoundStretch, repeated};
ghost use Rattle.run_counts.specs.Stretches.{
  IsSmall,
  all_offered,
  all_wait,
  joined,
  neither,
  no_ticks,
  offered_to,
};

use std::cmp::max;

/// What is counted of a stretch of ticks for one vCPU. The vCPU waits at a tick where it has a task by
/// the plan of the tick's round, and isn't offered the tick.
#[derive(Clone, Copy, Debug, PartialEq, Eq)]
pub struct Stretch {
    /// How many ticks it has.
    pub ticks: u32,
    /// How many of them are offered to the vCPU.
    pub offered: u32,
    /// How many ticks in a row the vCPU waits from its begin on.
    pub lead: u32,
    /// How many ticks in a row the vCPU waits up to its end.
    pub tail: u32,
    /// How many ticks in a row the vCPU waits at most.
    pub most: u32,
}

impl Stretch {
    /// A stretch of no ticks.
    pub fn none() -> Stretch
        ensures { result ≡ no_ticks }
    {
        Stretch::waiting(0)
    }

    // Ticks at which the vCPU waits.
    pub(crate) fn waiting(ticks: u32) -> Stretch
        ensures { result ≡ all_wait ticks }
    {
        Stretch {
            ticks,
            offered: 0,
            lead: ticks,
            tail: ticks,
            most: ticks,
        }
    }

    // Ticks that are all offered.
    fn offering(ticks: u32) -> Stretch
        ensures { result ≡ all_offered ticks }
    {
        Stretch {
            ticks,
            offered: ticks,
            lead: 0,
            tail: 0,
            most: 0,
        }
    }

    // Ticks of which none is offered, and at which the vCPU doesn't wait.
    pub(crate) fn neither(ticks: u32) -> Stretch
        ensures { result ≡ neither ticks }
    {
        Stretch {
            ticks,
            offered: 0,
            lead: 0,
            tail: 0,
            most: 0,
        }
    }

    // This stretch and then the next.
    pub(crate) fn then(self, next: Stretch) -> Stretch
        requires small { IsSmall self }
        requires next { IsSmall next }
        requires fits { self.ticks + next.ticks < 2 ^ 32 }
        ensures { result ≡ joined self next }
    {
        let lead = if self.lead == self.ticks {
            self.ticks + next.lead
        } else {
            self.lead
        };
        let tail = if next.tail == next.ticks {
            self.tail + next.ticks
        } else {
            next.tail
        };
        Stretch {
            ticks: self.ticks + next.ticks,
            offered: self.offered + next.offered,
            lead,
            tail,
            most: max(max(self.most, next.most), self.tail + next.lead),
        }
    }

    // This stretch so many times in a row, as alike rounds give it. All seams are alike, too.
    pub(crate) fn times(self, rounds: u32) -> Stretch
        requires sound { IsSoundStretch self }
        requires some { 0 < rounds }
        requires fits { self.ticks * rounds < 2 ^ 32 }
        ensures { result ≡ repeated self rounds }
    {
        let ticks = self.ticks * rounds;
        let offered = self.offered * rounds;
        if self.lead == self.ticks {
            Stretch {
                ticks,
                offered,
                lead: ticks,
                tail: ticks,
                most: ticks,
            }
        } else if rounds == 1 {
            self
        } else {
            Stretch {
                ticks,
                offered,
                lead: self.lead,
                tail: self.tail,
                most: max(self.most, self.tail + self.lead),
            }
        }
    }

    // The stretch up to `end`, where the vCPU waits up to `place` and is offered the ticks from there on.
    pub(crate) fn offered_to(self, place: u32, end: u32) -> Stretch
        requires small { IsSmall self }
        requires place { self.ticks ≤ place }
        requires end { place ≤ end }
        ensures { result ≡ offered_to self place end }
    {
        self.then(Stretch::waiting(place - self.ticks))
            .then(Stretch::offering(end - place))
    }
}
