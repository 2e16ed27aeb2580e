ghost use Rattle.std.specs.Prelude.{IfOk};
ghost use Rattle.cd_split.specs.Inside.Order.{IsOrderOf};

use crate::core_pieces::CorePieces;
use crate::load::load_of;
use std::alloc::Global;
use tab_core::{CoreNo, NoMemory};

// A core and its load. The lower load comes first, and of equal ones the lower core.
#[derive(Clone, Copy, PartialEq, Eq, PartialOrd, Ord)]
pub(crate) struct CoreLoad {
    pub(crate) load: u32,
    pub(crate) core: CoreNo,
}

// The cores in the order in which splitting tries them.
//
// Only cores that are used up change their load, so the order holds for all of a split.
pub(crate) fn order_of(alloc: Global, cores: &CorePieces) -> Result<Vec<CoreLoad>, NoMemory>
    ensures { IfOk result (λ order. IsOrderOf cores.now order.items) }
{
    let mut order = Vec::new(alloc);
    for number in 0..cores.cores() {
        let core = CoreNo(number);
        let load = load_of(cores.of_core(core));
        order.push(CoreLoad { load, core })?;
    }
    order.sort()?;
    Ok(order)
}
