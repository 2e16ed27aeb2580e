/// What is said of a host.
#[derive(Clone, Copy, Debug, PartialEq, Eq)]
pub enum Verdict {
    /// It kept its promises.
    Kept,
    /// It broke none, but what so many vCPUs were promised wasn't judged.
    Unjudged(u64),
    /// It broke one, or the trace is no evidence.
    Broken,
}
