ghost use Rattle.std.specs.Prelude.{◌≡◌, ◌-◌, ◌≤◌, IfOk};
ghost use Rattle.size_fit.specs.Inside.Owned.{owned_ticks};
ghost use Rattle.size_fit.specs.Loads.{load_of_row, loads_of};

use std::alloc::Global;
use tab_core::NoMemory;
use table_form::{CoreTable, Segment};

// The load of each core.
pub(crate) fn loads_of(alloc: Global, rows: &[CoreTable]) -> Result<Vec<u32>, NoMemory>
    ensures { IfOk result (λ loads. loads.items ≡ loads_of rows.now) }
{
    let mut loads = Vec::with_capacity(alloc, rows.len())?;
    for row in rows {
        loads.push(load_of(row))?;
    }
    Ok(loads)
}

// The ticks of a round in which the core has an owner.
fn load_of(row: &CoreTable) -> u32
    ensures { result ≡ load_of_row row.now }
{
    let parts = row.segments();
    let mut load = 0;
    let mut from = 0;
    for segment in parts {
        load += ticks_of(segment, from);
        from = segment.end;
    }
    load
}

// What a segment that begins there adds to the load.
fn ticks_of(segment: &Segment, from: u32) -> u32
    requires { from ≤ segment.now.end }
    ensures { result ≡ owned_ticks (segment.now.end - from) segment.now.owner }
{
    match segment.owner.vcpu() {
        Some(_) => segment.end - from,
        None => 0,
    }
}
