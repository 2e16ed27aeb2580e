ghost use Rattle.std.specs.Prelude.{◌≡◌, ◌≤◌, length};
ghost use Rattle.tab_core.specs.declared.TheConstants.{MAX_CORES};

use crate::number::CoreNo;
use std::marker::Model;

/// An overloaded interval of a core: the jobs whose windows lie in it cost more than its ticks.
#[derive(Clone, Copy, Debug, PartialEq, Eq)]
pub struct Over {
    pub core: CoreNo,
    /// The interval's first tick.
    pub from: u32,
    /// The tick after its last.
    pub to: u32,
    /// What the jobs inside it cost together, in ticks.
    pub demand: u64,
}

/// Overloaded intervals, one for a core. Contracts see the list.
#[derive(Debug, Drop)]
pub struct Overs {
    items: Vec<Over>,
}

impl Model for Overs {
    ghost use Rattle.std.specs.Prelude.{◌≤◌, List, length};
    ghost use Rattle.tab_core.specs.declared.over.Over.{Over};
    ghost use Rattle.tab_core.specs.declared.TheConstants.{MAX_CORES};

    ghost Value = { List Over };

    ghost view = { λ overs. overs.items.items };

    ghost invariant = { λ overs. length overs.items.items ≤ MAX_CORES };
}

impl Overs {
    /// The list of these intervals, at most one for each core.
    pub fn of(items: Vec<Over>) -> Overs
        requires { length items.items ≤ MAX_CORES }
        ensures { result ≡ items.items }
    {
        Overs { items }
    }

    /// The intervals, at most one for each core.
    pub fn items(&self) -> &[Over]
        ensures same { result.now ≡ self.now }
        ensures few { length self.now ≤ MAX_CORES }
    {
        &self.items
    }
}
