ghost use Rattle.std.specs.Prelude.{◌≡◌, ◌≤◌, length};
ghost use Rattle.tab_core.specs.declared.TheConstants.{MAX_VCPUS};

use std::marker::Model;
use tab_core::{CoreNo, VcpuNo};

/// The core of each vCPU by its number, or none where it is on none. Contracts see the list.
#[derive(Drop)]
pub struct PlacedCores {
    items: Vec<Option<CoreNo>>,
}

impl Model for PlacedCores {
    ghost use Rattle.std.specs.Prelude.{◌≤◌, ℕ, List, Option, length};
    ghost use Rattle.tab_core.specs.declared.TheConstants.{MAX_VCPUS};

    ghost Value = { List (Option ℕ) };

    ghost view = { λ cores. cores.items.items };

    ghost invariant = { λ cores. length cores.items.items ≤ MAX_VCPUS };
}

impl PlacedCores {
    /// The list of these cores, by vCPU number.
    pub fn of(items: Vec<Option<CoreNo>>) -> PlacedCores
        requires { length items.items ≤ MAX_VCPUS }
        ensures { result ≡ items.items }
    {
        PlacedCores { items }
    }

    /// The core of each vCPU by its number, or none where it is on none.
    pub fn items(&self) -> &[Option<CoreNo>]
        ensures same { result.now ≡ self.now }
        ensures few { length self.now ≤ MAX_VCPUS }
    {
        &self.items
    }
}

/// The vCPUs that no core has room for, in the order in which they were tried. Contracts see the
/// list.
#[derive(Drop)]
pub struct LeftOver {
    items: Vec<VcpuNo>,
}

impl Model for LeftOver {
    ghost use Rattle.std.specs.Prelude.{ℕ, List};

    ghost Value = { List ℕ };

    ghost view = { λ left. left.items.items };
}

impl LeftOver {
    /// The list of these vCPUs.
    pub fn of(items: Vec<VcpuNo>) -> LeftOver
        ensures { result ≡ items.items }
    {
        LeftOver { items }
    }

    /// The vCPUs that no core has room for, in the order in which they were tried.
    pub fn items(&self) -> &[VcpuNo]
        ensures { result.now ≡ self.now }
    {
        &self.items
    }
}

/// Where the vCPUs of a host are, and who is left over.
#[derive(Drop)]
pub struct Placed {
    /// The core of each vCPU by its number, or none.
    pub core_of: PlacedCores,
    /// The admitted vCPUs that are on no core.
    pub left: LeftOver,
}
