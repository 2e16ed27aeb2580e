ghost use Rattle.std.specs.Prelude.{◌≡◌, ◌<◌, ◌≤◌, ◌^◌};
ghost use Rattle.view_schedulers.specs.Budgets.{bounds_wait, least_budget, least_period, most_period, parts_of, unit_of};
ghost use Rattle.view_schedulers.specs.declared.TheConstants.{PARTS};

use crate::PARTS;

/// A scheduler that gives a vCPU a budget in each of its periods.
#[derive(Clone, Copy, Debug, PartialEq, Eq)]
pub enum Scheduler {
    /// Xen's RTDS, in microseconds.
    Rtds,
    /// Linux's deadline tasks, in nanoseconds, of which the kernel admits 95 percent of a core.
    Deadline,
    /// Linux's deadline tasks, in nanoseconds, where the kernel admits a whole core.
    FullDeadline,
    /// Linux's fair scheduler with quotas of cgroups v2, in microseconds. It bounds no wait.
    Quota,
}

impl Scheduler {
    /// The nanoseconds of its unit of time.
    pub(crate) fn unit_ns(self) -> u64
        ensures value { result ≡ unit_of self }
        ensures some { 1 ≤ result }
        ensures small { result ≤ 1000 }
    {
        match self {
            Scheduler::Rtds | Scheduler::Quota => 1000,
            Scheduler::Deadline | Scheduler::FullDeadline => 1,
        }
    }

    // The least period that it takes, in its unit.
    pub(crate) fn least_period(self) -> u64
        ensures value { result ≡ least_period self }
        ensures some { 1 ≤ result }
    {
        match self {
            Scheduler::Rtds => 10,
            Scheduler::Deadline | Scheduler::FullDeadline => 100_000,
            Scheduler::Quota => 1000,
        }
    }

    // The greatest period that it takes, in its unit.
    pub(crate) fn most_period(self) -> u64
        ensures value { result ≡ most_period self }
        ensures small { result < 2 ^ 32 }
    {
        match self {
            Scheduler::Rtds => 4_294_967_295,
            Scheduler::Deadline | Scheduler::FullDeadline => 4_194_304_000,
            Scheduler::Quota => 1_000_000,
        }
    }

    // The least budget that it takes, in its unit.
    pub(crate) fn least_budget(self) -> u64
        ensures { result ≡ least_budget self }
    {
        match self {
            Scheduler::Rtds => 10,
            Scheduler::Deadline | Scheduler::FullDeadline => 1024,
            Scheduler::Quota => 1000,
        }
    }

    // The parts of a core that it gives away.
    pub(crate) fn parts(self) -> u64
        ensures { result ≡ parts_of self }
    {
        match self {
            Scheduler::Rtds | Scheduler::FullDeadline | Scheduler::Quota => PARTS,
            Scheduler::Deadline => PARTS / 100 * 95,
        }
    }

    // Whether it sets out to give each budget in each period, and so bounds waits.
    pub(crate) fn bounds_wait(self) -> bool
        ensures { result ≡ bounds_wait self }
    {
        match self {
            Scheduler::Rtds | Scheduler::Deadline | Scheduler::FullDeadline => true,
            Scheduler::Quota => false,
        }
    }
}
