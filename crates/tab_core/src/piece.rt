ghost use Rattle.std.specs.Prelude.{◌≡◌, ◌<◌, ◌≤◌, ◌-◌, ◌++◌, [], ◌∷◌, OnErr, OnOk};
ghost use Rattle.tab_core.specs.declared.TheConstants.{MAX_CORES, MAX_VCPUS};
ghost use Rattle.tab_core.specs.Period.{IsPeriod};

use crate::NoMemory;
use crate::number::{CoreNo, VcpuNo};
use std::marker::Model;

/// What a vCPU gets of one core in each of its periods: `cost` ticks from `from` up to `to`.
///
/// Period number `k` of the round has a job with the window `[k * period + from, k * period + to)`.
/// A vCPU that is whole on a core is the piece of `from` 0 and `to` the period.
#[derive(Clone, Copy, PartialEq, Eq)]
pub struct Piece {
    pub vcpu: VcpuNo,
    pub core: CoreNo,
    pub cost: u32,
    pub from: u32,
    pub to: u32,
    pub period: u32,
    pub ghost vcpu_small: { vcpu < MAX_VCPUS },
    pub ghost core_small: { core < MAX_CORES },
    pub ghost begins: { from < to },
    pub ghost within: { to ≤ period },
    pub ghost costs: { 1 ≤ cost },
    pub ghost fits_window: { cost ≤ to - from },
    pub ghost listed: { IsPeriod period },
}

/// Pieces in an order. Contracts see the list.
#[derive(Drop)]
pub struct Pieces {
    items: Vec<Piece>,
}

impl Model for Pieces {
    ghost use Rattle.std.specs.Prelude.{List};
    ghost use Rattle.tab_core.specs.declared.piece.Piece.{Piece};

    ghost Value = { List Piece };

    ghost view = { λ pieces. pieces.items.items };
}

impl Pieces {
    /// The list of these pieces.
    pub fn of(items: Vec<Piece>) -> Pieces
        ensures { result ≡ items.items }
    {
        Pieces { items }
    }

    /// The pieces, in their order.
    pub fn items(&self) -> &[Piece]
        ensures { result.now ≡ self.now }
    {
        &self.items
    }

    /// Adds a piece after the others. Fails only when memory runs out, and leaves the pieces as they
    /// were then.
    pub fn push(&mut self, piece: Piece) -> Result<(), NoMemory>
        ensures ok { OnOk result (self.new ≡ self.old ++ piece ∷ []) }
        ensures err { OnErr result (self.new ≡ self.old) }
    {
        self.items.push(piece)?;
        Ok(())
    }
}
