/// What is reported of a burst, in ticks from the start of the run.
#[derive(Clone, Copy, Debug, PartialEq, Eq)]
pub struct BurstAnswer {
    /// From when on each core has seen it, if all do before the run's end.
    pub seen: Option<u32>,
    /// By when it is done at the latest, if that is promised.
    pub bound: Option<u64>,
    /// When the vCPU has run at as many ticks since it was seen as it has work, if that is in the run.
    pub done: Option<u32>,
}
