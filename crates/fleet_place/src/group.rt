ghost use Rattle.std.specs.Prelude.{◌≤◌};
ghost use Rattle.tab_core.specs.declared.TheConstants.{MAX_CORES};

use crate::vm::Vm;

/// A host of so many cores, and the VMs that were on it before.
#[derive(Drop)]
pub struct Group<'a> {
    pub cores: u32,
    pub vms: Vec<Vm<'a>>,
    pub ghost some_core: { 1 ≤ cores },
    pub ghost few_cores: { cores ≤ MAX_CORES },
}
