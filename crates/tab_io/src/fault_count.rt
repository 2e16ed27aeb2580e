ghost use Rattle.std.specs.Prelude.{◌≡◌, ◌<◌, ◌≤◌, ◌^◌, ℕ};
ghost use Rattle.tab_io.specs.FaultCounts.{next_count};

use std::marker::Model;

// How often an end has failed. Contracts see it as that number, which is at its last value.
#[derive(Drop)]
pub(crate) struct FaultCount {
    count: u64,
}

impl Model for FaultCount {
    ghost Value = { ℕ };

    ghost view = { λ faults. faults.count };

    ghost invariant = { λ faults. faults.count < 2 ^ 64 };
}

impl FaultCount {
    pub(crate) fn new() -> FaultCount
        ensures { result ≡ 0 }
    {
        FaultCount { count: 0 }
    }

    pub(crate) fn rise(&mut self)
        ensures next { self.new ≡ next_count self.old }
        ensures later { self.old ≤ self.new }
    {
        self.count = self.count.saturating_add(1);
    }
}
