ghost use Rattle.std.specs.Prelude.{◌≡◌};

use crate::ticks::Ticks;
use std::marker::Model;

/// The marks that cut a round into intervals. Contracts see the list.
#[derive(Drop)]
pub struct Marks {
    items: Vec<u32>,
}

impl Model for Marks {
    ghost use Rattle.std.specs.Prelude.{ℕ, List};

    ghost Value = { List ℕ };

    ghost view = { λ marks. marks.items.items };
}

impl Marks {
    /// The list of these marks.
    pub fn of(items: Vec<u32>) -> Marks
        ensures { result ≡ items.items }
    {
        Marks { items }
    }

    /// The marks, in ticks, in rising order.
    pub fn items(&self) -> &[u32]
        ensures { result.now ≡ self.now }
    {
        &self.items
    }
}

/// For each interval the ticks that each vCPU gets there, by vCPU number. Contracts see the list of
/// lists.
#[derive(Drop)]
pub struct Rows {
    items: Vec<Ticks>,
}

impl Model for Rows {
    ghost use Rattle.std.specs.Prelude.{ℕ, List};

    ghost Value = { List (List ℕ) };

    ghost view = { λ rows. rows.items.items };
}

impl Rows {
    /// The list of these lists, by interval.
    pub fn of(items: Vec<Ticks>) -> Rows
        ensures { result ≡ items.items }
    {
        Rows { items }
    }

    /// The ticks of each interval, in the order of the intervals.
    pub fn items(&self) -> &[Ticks]
        ensures { result.now ≡ self.now }
    {
        &self.items
    }
}

/// How many ticks each vCPU gets in each interval between neighbouring marks: 0, the round, and all
/// multiples of the admitted vCPUs' periods between them.
#[derive(Drop)]
pub struct Allotment {
    pub marks: Marks,
    pub ticks: Rows,
}
