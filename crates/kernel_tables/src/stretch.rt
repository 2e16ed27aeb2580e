ghost use Rattle.std.specs.Prelude.{◌≡◌, ◌≢◌, ◌<◌, ◌≤◌, ◌↔◌, ℕ, IsTrue, Some, false, slice_get, true};
ghost use Rattle.tab_core.specs.declared.TheConstants.{ROUND};
ghost use Rattle.table_form.specs.Tables.Views.{plan_view};
ghost use Rattle.slice_table.specs.Owners.{AreOwnersIn, AreRowOwners};
ghost use Rattle.kernel_tables.specs.Stretches.{IsAt, IsStretch};

use slice_table::RowOwners;
use std::cmp::min;
use tab_core::{CoreNo, ROUND, VcpuNo, VcpuSet};
use table_form::{CoreTable, Plan};

/// Where a vCPU is from a place of the round on.
#[derive(Clone, Copy)]
pub(crate) struct Stretch {
    /// The core in whose slot it is, or none.
    pub core: Option<CoreNo>,
    /// Until when, in ticks of the round.
    pub end: u32,
}

/// The stretch of the vCPU that begins at the place, where the owners in the plan's rows are known.
pub(crate) fn stretch_from(plan: &Plan, owners: &RowOwners, vcpu: VcpuNo, place: u32) -> Stretch
    requires place { place < ROUND }
    requires owners { AreRowOwners (plan_view plan.now) owners.now }
    ensures { IsStretch (plan_view plan.now) vcpu place result.core result.end }
{
    let mut stretch = look(plan, owners, vcpu, place);
    'growing: while stretch.end < ROUND {
        let next = look(plan, owners, vcpu, stretch.end);
        if !is_same(stretch.core, next.core) {
            return stretch;
        }
        stretch.end = next.end;
    }
    stretch
}

fn is_same(one: Option<CoreNo>, other: Option<CoreNo>) -> bool
    ensures { IsTrue result ↔ (one ≡ other) }
{
    one == other
}

// Where the vCPU is from the place on, up to an end of a segment after it.
fn look(plan: &Plan, owners: &RowOwners, vcpu: VcpuNo, place: u32) -> Stretch
    requires place { place < ROUND }
    requires owners { AreRowOwners (plan_view plan.now) owners.now }
    ensures after { place < result.end }
    ensures within { result.end ≤ ROUND }
    ensures there { (x : ℕ) → place ≤ x → x < result.end → IsAt (plan_view plan.now) vcpu x result.core }
{
    let rows = plan.tables.rows.items();
    let mut end = ROUND;
    for number in 0..rows.len() {
        let part = part_in(&rows[number], owners.of_row(number), vcpu, place);
        if part.is_own {
            return Stretch {
                core: Some(CoreNo(number as u32)),
                end: part.end,
            };
        }
        end = min(end, part.end);
    }
    Stretch { core: None, end }
}

// Whether a row has the vCPU from a place on, and until when at least that is so.
#[derive(Clone, Copy)]
struct Part {
    is_own: bool,
    end: u32,
}

// What the row has from the place on. A row that never has the vCPU isn't searched.
fn part_in(row: &CoreTable, owners: &VcpuSet, vcpu: VcpuNo, place: u32) -> Part
    requires place { place < ROUND }
    requires owners { AreOwnersIn row.now owners.now }
    ensures after { place < result.end }
    ensures within { result.end ≤ ROUND }
    ensures own { result.is_own ≡ true
        → (x : ℕ) → place ≤ x → x < result.end → slice_get row.now x ≡ Some (Some vcpu) }
    ensures other { result.is_own ≡ false
        → (x : ℕ) → place ≤ x → x < result.end → slice_get row.now x ≢ Some (Some vcpu) }
{
    if !owners.has(vcpu) {
        return Part {
            is_own: false,
            end: ROUND,
        };
    }
    let segment = row.segment_at(place);
    Part {
        is_own: segment.owner.vcpu() == Some(vcpu),
        end: segment.end,
    }
}
