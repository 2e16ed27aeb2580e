ghost use Rattle.std.specs.Prelude.{◌≡◌, ◌<◌, ◌≤◌, Some, length, slice_get, true};
ghost use Rattle.tab_core.specs.declared.TheConstants.{ROUND};
ghost use Rattle.stint_text.specs.StintLine.{first_owner};
ghost use Rattle.table_form.specs.Tables.Rows.{RisesTo, cells_from};
ghost use Rattle.stint_text.specs.Inside.Near.{CoversTick};

use tab_core::{CoreNo, ROUND, Stint, VcpuNo};
use table_form::{Course, Segment};

// An owner, and where in its row its segment is.
#[derive(Drop)]
pub(crate) struct Found {
    pub(crate) owner: Option<VcpuNo>,
    pub(crate) place: usize,
}

// The owner of the stint's first tick in the plan that it used. It is looked for at the segment `near` and
// the one after it before all others.
pub(crate) fn first_owner(course: &Course, core: CoreNo, stint: &Stint, near: usize) -> Found
    requires core { core < course.now.cores }
    requires used { stint.now.used ≤ length course.now.ticks }
    ensures { result.owner ≡ first_owner course.now core stint.now }
{
    let plan = course.plan_after(stint.used);
    let rows = plan.tables.rows.items();
    owner_near(rows[core.index()].segments(), stint.from % ROUND, near)
}

// The owner of the tick in the row of these segments.
fn owner_near(segments: &[Segment], tick: u32, near: usize) -> Found
    requires rises { RisesTo 0 segments.now ROUND }
    requires in_round { tick < ROUND }
    ensures { slice_get (cells_from 0 segments.now) tick ≡ Some result.owner }
{
    let place = place_near(segments, tick, near);
    Found {
        owner: segments[place].owner.vcpu(),
        place,
    }
}

// The place in its row of the segment that holds the tick.
fn place_near(segments: &[Segment], tick: u32, near: usize) -> usize
    requires rises { RisesTo 0 segments.now ROUND }
    requires in_round { tick < ROUND }
    ensures { CoversTick segments.now result tick }
{
    if holds(segments, near, tick) {
        return near;
    }
    let next = near.wrapping_add(1);
    if holds(segments, next, tick) {
        return next;
    }
    segments.partition_point(|segment| segment.end <= tick)
}

// The segment at the place holds the tick.
fn holds(segments: &[Segment], place: usize, tick: u32) -> bool
    ensures { result ≡ true → CoversTick segments.now place tick }
{
    if place >= segments.len() || segments[place].end <= tick {
        return false;
    }
    place == 0 || segments[place - 1].end <= tick
}
