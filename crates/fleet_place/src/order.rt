ghost use Rattle.std.specs.Prelude.{OnOk};
ghost use Rattle.fleet_place.specs.Order.{IsFallingVmOrder};

use crate::vm::Vm;
use tab_core::NoMemory;

// Puts the VMs into the order in which they are dealt: by falling demand, ties to the lower number.
pub(crate) fn put_in_order(vms: &mut Vec<Vm<'_>>) -> Result<(), NoMemory>
    ensures { OnOk result (IsFallingVmOrder vms.old.items vms.new.items) }
{
    vms.sort_by_key(|vm| vm.number)?;
    vms.sort_by_key(|vm| u64::MAX - vm.demand)?;
    Ok(())
}
