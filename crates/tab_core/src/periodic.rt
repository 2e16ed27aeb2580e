ghost use Rattle.std.specs.Prelude.{◌≡◌, ◌≤◌, length};
ghost use Rattle.tab_core.specs.declared.TheConstants.{MAX_VCPUS};
ghost use Rattle.tab_core.specs.Period.{IsPeriod};

use std::marker::Model;

/// A vCPU's budget: `cost` ticks in every `period` ticks. The period is one of `PERIODS`.
#[derive(Clone, Copy, PartialEq, Eq)]
pub struct Periodic {
    pub cost: u32,
    pub period: u32,
    pub ghost costs: { 1 ≤ cost },
    pub ghost within: { cost ≤ period },
    pub ghost listed: { IsPeriod period },
}

/// The budget of each vCPU by its number, or none where it isn't admitted. Contracts see the list.
#[derive(Drop)]
pub struct Tasks {
    items: Vec<Option<Periodic>>,
}

impl Model for Tasks {
    ghost use Rattle.std.specs.Prelude.{◌≤◌, List, Option, length};
    ghost use Rattle.tab_core.specs.declared.periodic.Periodic.{Periodic};
    ghost use Rattle.tab_core.specs.declared.TheConstants.{MAX_VCPUS};

    ghost Value = { List (Option Periodic) };

    ghost view = { λ tasks. tasks.items.items };

    ghost invariant = { λ tasks. length tasks.items.items ≤ MAX_VCPUS };
}

impl Tasks {
    /// The list of these budgets, by vCPU number.
    pub fn of(items: Vec<Option<Periodic>>) -> Tasks
        requires { length items.items ≤ MAX_VCPUS }
        ensures { result ≡ items.items }
    {
        Tasks { items }
    }

    /// The budget of each vCPU by its number, or none where it isn't admitted.
    pub fn items(&self) -> &[Option<Periodic>]
        ensures same { result.now ≡ self.now }
        ensures few { length self.now ≤ MAX_VCPUS }
    {
        &self.items
    }
}
