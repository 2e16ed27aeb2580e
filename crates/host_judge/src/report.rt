/// A wait that is the longest of a vCPU, and the first of those that are as long.
#[derive(Clone, Copy, Debug, PartialEq, Eq)]
pub struct LongestWait {
    pub ns: u64,
    /// The time when it began.
    pub at_ns: u64,
    /// The CPU that had been named last of the vCPU by then.
    pub cpu: Option<u32>,
}

/// The least share of a CPU that a vCPU had in a window of running and waiting.
#[derive(Clone, Copy, Debug, PartialEq, Eq)]
pub struct LeastShare {
    /// In parts per million, rounded down.
    pub share_ppm: u32,
    /// The time when the first window with the least run time began.
    pub at_ns: u64,
}

/// How many lines there are of a kind, and the number of the first.
#[derive(Clone, Copy, Debug, PartialEq, Eq)]
pub struct LineCount {
    pub count: u64,
    pub first: Option<u64>,
}

/// What is reported of a vCPU. Times are in ns.
#[derive(Clone, Copy)]
pub struct VcpuReport {
    pub run_ns: u64,
    pub wait_ns: u64,
    pub block_ns: u64,
    /// None where it never waited.
    pub longest: Option<LongestWait>,
    /// How many of its waits were longer than its latency, and none where it has no reservation.
    pub late: Option<u64>,
    /// None where the trace holds no window of its running and waiting.
    pub least: Option<LeastShare>,
    /// The share of a window that it is owed, in parts per million and rounded down; none where it is owed nothing.
    pub owed_ppm: Option<u32>,
    /// Whether each wait is within its latency; none where that isn't judged, because the trace says nothing of it. What
    /// has no reservation has no promise that could be broken.
    pub waits_kept: Option<bool>,
    /// Whether it ran in each window for what it is owed; none where that isn't judged, because the trace holds no
    /// window of its running and waiting, or nothing of so short a window is owed.
    pub share_kept: Option<bool>,
}

/// What is reported of a host by its trace.
#[derive(Drop)]
pub struct Report {
    /// The time of the last line, which ends the trace.
    pub end_ns: u64,
    /// How much running and waiting each window holds in which shares are looked at.
    pub window_ns: u64,
    /// The vCPUs by number.
    pub vcpus: Vec<VcpuReport>,
    /// Lines whose time is before that of an earlier line.
    pub falls: LineCount,
    /// Lines of vCPUs that the host doesn't have.
    pub unknown: LineCount,
    /// Lines by which a vCPU runs on a CPU on which another runs.
    pub shared: LineCount,
    /// Lines by which a vCPU runs on a CPU while it runs on another.
    pub doubled: LineCount,
}
