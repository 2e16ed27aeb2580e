/// What an event of a script does.
#[derive(Clone, Copy)]
pub enum Kind {
    /// One vCPU wakes or blocks.
    Flag,
    /// Work arrives for one vCPU.
    Burst,
    /// One vCPU leaves and another one gets a reservation, with which there may be no plan.
    Edit,
    /// One vCPU more than there are cores gets so much that one of them has to be split, and the others leave.
    Split,
}

/// Which reservations a vCPU gets by an `Edit`.
#[derive(Clone, Copy)]
pub struct Edits {
    /// The most percent of a core.
    pub most_percent: u64,
    /// The latency, in ticks.
    pub latency: u64,
    /// Whether every other one, by chance, is a tenth of a core in short slots instead.
    pub short_slots: bool,
    /// Whether in every other one, by chance, nobody leaves.
    pub alone: bool,
}

/// What the samples of a test are made of.
#[derive(Clone, Copy)]
pub struct Mix<'a> {
    /// Whether about half of the vCPUs are capped, but for those of seed 0, of which none is.
    pub caps: bool,
    /// The kinds of a script's first events.
    pub first: &'a [Kind],
    /// The kinds of those that follow, over and over: an event has the kind at its number's place.
    pub others: &'a [Kind],
    pub edits: Edits,
}

impl Mix<'_> {
    /// The kind of the event of this number.
    pub(crate) fn kind_of(&self, event: u32) -> Kind {
        let event = event as usize;
        if let Some(kind) = self.first.get(event) {
            return *kind;
        }
        if self.others.is_empty() {
            return Kind::Flag;
        }
        self.others[event % self.others.len()]
    }
}
