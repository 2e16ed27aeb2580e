ghost use Rattle.std.specs.Prelude.{◌≡◌, ◌<◌, ◌↔◌, ◌⊎◌, ℕ, IsTrue, Some, false, length, min, slice_index};
ghost use Rattle.tab_core.specs.VcpuSets.{has_vcpu};
ghost use Rattle.tab_core.specs.declared.TheConstants.{MAX_VCPUS, ROUND};
ghost use Rattle.table_form.specs.Tables.Views.{plan_view};
ghost use Rattle.table_form.specs.Inside.Looks.{IsSpotSoFar};
ghost use Rattle.slice_table.specs.Inside.Sweeps.{ArePast, IsScope};

use crate::cursor::segment_from;
use crate::scope::Scope;
use std::cmp::min;
use tab_core::{ROUND, VcpuSet};
use table_form::{Plan, Segment, Spot};

/// Places for numbers of segments, one for each row.
pub(crate) const ROWS: usize = 32;

/// The numbers at which a sweep begins.
pub(crate) fn first_numbers() -> [usize; ROWS]
    ensures { (d : ℕ) → slice_index result d ≡ 0 }
{
    [0; ROWS]
}

/// What the place shows, up to the first end of a segment after it in the rows that matter.
///
/// `numbers` has for each row the number of a segment from which the one of the place is sought.
pub(crate) fn look(plan: &Plan, scope: &Scope, numbers: &mut [usize; ROWS], place: u32) -> Spot
    requires in_round { place < ROUND }
    requires scope { IsScope (plan_view plan.now) scope.now }
    requires past { ArePast plan.now.tables.rows place numbers.old }
    ensures part { IsSpotSoFar (plan_view plan.now) scope.now.core place result }
    ensures past { ArePast plan.now.tables.rows place numbers.new }
{
    let rows = plan.tables.rows.items();
    let core = scope.core.index();
    let (number, segment) = segment_from(&rows[core], numbers[core], place);
    numbers[core] = number;
    let mut spot = Spot {
        owner: segment.owner.vcpu(),
        away: nobody(),
        end: segment.end,
    };
    for at in 0..scope.others.len() {
        let other = scope.others[at];
        let (number, segment) = segment_from(&rows[other], numbers[other], place);
        numbers[other] = number;
        take_other(&mut spot, &scope.home, &segment);
    }
    spot
}

// Takes into account the segment that another row has at the place.
fn take_other(spot: &mut Spot, home: &VcpuSet, segment: &Segment)
    requires { length spot.old.away ≡ MAX_VCPUS }
    ensures end { spot.new.end ≡ min spot.old.end segment.now.end }
    ensures owner { spot.new.owner ≡ spot.old.owner }
    ensures size { length spot.new.away ≡ MAX_VCPUS }
    ensures away { (v : ℕ) → v < MAX_VCPUS → (IsTrue (has_vcpu spot.new.away v)
        ↔ (IsTrue (has_vcpu spot.old.away v) ⊎ (IsTrue (has_vcpu home.now v)
        × (segment.now.owner ≡ Some v)))) }
{
    spot.end = min(spot.end, segment.end);
    if let Some(vcpu) = segment.owner.vcpu() {
        if home.has(vcpu) {
            spot.away.put(vcpu);
        }
    }
}

pub(crate) fn nobody() -> VcpuSet
    ensures size { length result ≡ MAX_VCPUS }
    ensures none { (v : ℕ) → has_vcpu result v ≡ false }
{
    VcpuSet::empty()
}
