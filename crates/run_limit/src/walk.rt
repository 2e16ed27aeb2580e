ghost use Rattle.std.specs.Prelude.{◌≡◌, ◌-◌, ◌<◌, ◌≤◌, ℕ, length, map, slice_index};
ghost use Rattle.tab_core.specs.declared.TheConstants.{ROUND};
ghost use Rattle.run_limit.specs.declared.visits.TheConstants.{ROWS};
ghost use Rattle.table_form.specs.Tables.Segments.{AreMaximal, segment_view};
ghost use Rattle.table_form.specs.Tables.Spots.{HasSpans};
ghost use Rattle.table_form.specs.Tables.Views.{plan_view};
ghost use Rattle.run_limit.specs.Inside.Walks.{AreVisits, IsNobodyAway, passed};

use crate::changes::are_same;
use crate::lanes::{lanes_of, move_on, next_end};
use crate::visits::{ROWS, Visits, visits_of};
use tab_core::ROUND;
use table_form::{Plan, Segment};

/// How many spans each core's row has in the plan: as many as segments, and more only where one of the
/// core's vCPUs runs on another core.
pub(crate) fn spans_of_rows(plan: &Plan) -> [u32; ROWS]
    ensures { (c : ℕ) → c < length plan.now.tables.rows
        → HasSpans (plan_view plan.now) c ROUND (slice_index result c) }
{
    let visits = visits_of(plan);
    let mut counts = [0; ROWS];
    for row in 0..plan.tables.rows.items().len() {
        counts[row] = spans_of_row(plan, &visits, row);
    }
    counts
}

fn spans_of_row(plan: &Plan, visits: &Visits, row: usize) -> u32
    requires few { row < ROWS }
    requires visits { AreVisits (plan_view plan.now) visits.now }
    requires there { row < length plan.now.tables.rows }
    ensures { HasSpans (plan_view plan.now) row ROUND result }
{
    if visits.some[row] {
        walk(plan, visits, row)
    } else {
        segments_of_row(plan, row)
    }
}

// Where no vCPU of the core is ever on another one, its row has as many spans as segments.
fn segments_of_row(plan: &Plan, row: usize) -> u32
    requires home { IsNobodyAway (plan_view plan.now) row }
    requires there { row < length plan.now.tables.rows }
    ensures { HasSpans (plan_view plan.now) row ROUND result }
{
    plan.tables.rows.items()[row].segments().len() as u32
}

// By a walk over the places at which a vCPU of the core may come to another row or leave it: beside the
// row's own segments a span begins at each of them that changes who is away and ends no such segment.
fn walk(plan: &Plan, visits: &Visits, row: usize) -> u32
    requires few { row < ROWS }
    requires visits { AreVisits (plan_view plan.now) visits.now }
    requires there { row < length plan.now.tables.rows }
    ensures { HasSpans (plan_view plan.now) row ROUND result }
{
    let own = plan.tables.rows.items()[row].segments();
    let mut lanes = lanes_of(plan, visits, row);
    let mut at = 0;
    let mut more = 0;
    let mut place = next_end(&lanes);
    'walking: while place < ROUND {
        at = segment_before(own, at, place);
        move_on(plan, row, &mut lanes, place);
        if own[at].end != place && !are_same(&lanes) {
            more += 1;
        }
        place = next_end(&lanes);
    }
    own.len() as u32 + more
}

// The index of the segment that holds the tick before the place, from this index on.
fn segment_before(own: &[Segment], from: usize, place: u32) -> usize
    requires some { 0 < place }
    requires whole { AreMaximal 0 (map segment_view own.now) ROUND }
    requires in_round { place < ROUND }
    requires from { from ≤ passed (map segment_view own.now) (place - 1) }
    ensures { result ≡ passed (map segment_view own.now) (place - 1) }
{
    for at in from..own.len() {
        if own[at].end >= place {
            return at;
        }
    }
    own.len()
}
