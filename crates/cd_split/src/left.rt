ghost use Rattle.std.specs.Prelude.{◌≡◌, ◌+◌, ◌<◌, ◌≤◌};
ghost use Rattle.tab_core.specs.Period.{IsPeriod};

use tab_core::{CoreNo, Periodic, Piece, VcpuNo};

// What is left of a vCPU while it is split: `rest` ticks of each period, in windows from `from` on.
#[derive(Clone, Copy)]
pub(crate) struct Left {
    pub(crate) vcpu: VcpuNo,
    pub(crate) period: u32,
    pub(crate) from: u32,
    pub(crate) rest: u32,
    pub(crate) ghost some: { 1 ≤ rest },
    pub(crate) ghost within: { from + rest ≤ period },
    pub(crate) ghost listed: { IsPeriod period },
}

impl Left {
    ghost use Rattle.cd_split.specs.Inside.Search.{IsPieceOf, left_of};
    ghost use Rattle.cd_split.specs.Splitting.{all_of, cut_of, left_after_cut, rest_of};

    // All of the vCPU.
    pub(crate) fn all_of(vcpu: VcpuNo, task: &Periodic) -> Left
        ensures { left_of result ≡ all_of vcpu task.now }
    {
        Left {
            vcpu,
            period: task.period,
            from: 0,
            rest: task.cost,
        }
    }

    // The next `cost` ticks on the core, in windows that end at `to`.
    fn piece(&self, core: CoreNo, cost: u32, to: u32) -> Piece
        requires some { 1 ≤ cost }
        requires room { self.now.from + cost ≤ to }
        requires within { to ≤ self.now.period }
        ensures { IsPieceOf core (record {
          vcpu = self.now.vcpu;
          cost = cost;
          from = self.now.from;
          to = to;
          period = self.now.period;
        }) result }
    {
        let _ = (self.vcpu.0, core.0); // the ranges of both are facts of the piece
        Piece {
            vcpu: self.vcpu,
            core,
            cost,
            from: self.from,
            to,
            period: self.period,
        }
    }

    // The piece of all that is left.
    pub(crate) fn rest_on(&self, core: CoreNo) -> Piece
        ensures { IsPieceOf core (rest_of (left_of self.now)) result }
    {
        self.piece(core, self.rest, self.period)
    }

    // The piece of the next `cost` ticks, without slack.
    pub(crate) fn cut_on(&self, core: CoreNo, cost: u32) -> Piece
        requires some { 1 ≤ cost }
        requires below { cost < self.now.rest }
        ensures { IsPieceOf core (cut_of (left_of self.now) cost) result }
    {
        self.piece(core, cost, self.from + cost)
    }

    // What is left after a cut of so many ticks.
    pub(crate) fn behind(&self, cost: u32) -> Left
        requires { cost < self.now.rest }
        ensures { left_of result ≡ left_after_cut (left_of self.now) cost }
    {
        Left {
            vcpu: self.vcpu,
            period: self.period,
            from: self.from + cost,
            rest: self.rest - cost,
        }
    }
}
