ghost use Rattle.std.specs.Prelude.{◌≡◌, ◌≤◌, IfNone, IfOk, IfSome, length};
ghost use Rattle.tab_core.specs.declared.TheConstants.{MAX_CORES};
ghost use Rattle.table_check.specs.Inside.Parts.{IsShapeFault};
ghost use Rattle.table_check.specs.Shapes.{HaveGoodShapes, rows_of};

use crate::fault::CheckFault;
use std::alloc::Global;
use tab_core::{CoreNo, NoMemory};
use table_form::{CoreTable, Rows, Segments, first_bad_place};

// The fault of the lowest core whose segments make no row.
pub(crate) fn find_bad_shape(raw: &[Segments]) -> Option<CheckFault>
    requires { length raw.now ≤ MAX_CORES }
    ensures none { IfNone result (HaveGoodShapes raw.now) }
    ensures some { IfSome result (IsShapeFault raw.now) }
{
    for core in 0..raw.len() {
        if let Some(place) = first_bad_place(raw[core].items()) {
            return Some(CheckFault::BadShape {
                core: CoreNo(core as u32),
                place,
            });
        }
    }
    None
}

// The rows of the cores, whose segments make rows.
pub(crate) fn build_rows(alloc: Global, raw: &[Segments]) -> Result<Rows, NoMemory>
    requires few { length raw.now ≤ MAX_CORES }
    requires good { HaveGoodShapes raw.now }
    ensures { IfOk result (λ rows. rows ≡ rows_of raw.now) }
{
    let mut rows = Vec::with_capacity(alloc, raw.len())?;
    for segments in raw {
        let copy = Vec::from_slice(alloc, segments.items())?;
        rows.push(CoreTable::of_rising(copy))?;
    }
    Ok(Rows::of(rows))
}
