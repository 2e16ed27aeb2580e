ghost use Rattle.std.specs.Prelude.{◌≡◌, ◌≢◌, ◌-◌, ◌<◌, ◌≤◌, ℕ, Some, length, min, slice_get};
ghost use Rattle.tab_core.specs.declared.TheConstants.{ROUND};
ghost use Rattle.table_form.specs.Tables.Homes.{IsHome};
ghost use Rattle.table_form.specs.Tables.Views.{plan_view};
ghost use Rattle.table_form.specs.declared.segment.Segment.{Segment};
ghost use Rattle.run_limit.specs.Inside.Walks.{AreAllLanes, AreBefore, AreLanes, ArePassed, AreVisits, EndFrom, IsLane, IsListed, Shows};
ghost use Rattle.run_limit.specs.declared.lanes.Lane.{Lane};
ghost use Rattle.run_limit.specs.declared.visits.TheConstants.{ROWS};

use crate::visits::{ROWS, Visits, is_of_core};
use std::cmp::min;
use tab_core::{CoreNo, ROUND};
use table_form::{Owner, Plan, Segment};

/// Another row in which a core's vCPUs have cells, at a place.
#[derive(Clone, Copy)]
pub(crate) struct Lane {
    pub row: usize,
    /// The index of the row's first segment that ends after the lane's end.
    pub next: usize,
    /// The tick up to which the row has the owner, or none of the core's vCPUs.
    pub end: u32,
    /// The core's vCPU that the row has at the place, if it has one.
    pub owner: Owner,
    /// The one that it had a tick before.
    pub was: Owner,
}

/// The other rows in which a core's vCPUs have cells.
#[derive(Drop)]
pub(crate) struct Lanes {
    pub items: [Lane; ROWS],
    pub count: usize,
}

/// Those of the core, at the first place.
pub(crate) fn lanes_of(plan: &Plan, visits: &Visits, core: usize) -> Lanes
    requires core { core < ROWS }
    requires visits { AreVisits (plan_view plan.now) visits.now }
    ensures few { result.count ≤ ROWS }
    ensures all { AreAllLanes (plan_view plan.now) core result }
    ensures lanes { AreLanes (plan_view plan.now) core 0 result }
{
    let nobody = Owner::of(None);
    let empty = Lane {
        row: 0,
        next: 0,
        end: 0,
        owner: nobody,
        was: nobody,
    };
    let mut lanes = Lanes {
        items: [empty; ROWS],
        count: 0,
    };
    for row in 0..plan.tables.rows.items().len() {
        if row != core && visits.rows[core][row] {
            lanes.items[lanes.count] = first_lane(plan, core, row);
            lanes.count += 1;
        }
    }
    lanes
}

/// Goes on to a place: only a row whose end isn't after it is looked at.
pub(crate) fn move_on(plan: &Plan, core: usize, lanes: &mut Lanes, place: u32)
    requires in_round { place < ROUND }
    requires few { lanes.old.count ≤ ROWS }
    requires lanes { AreLanes (plan_view plan.now) core (place - 1) lanes.old }
    requires ends { EndFrom place lanes.old }
    ensures count { lanes.new.count ≡ lanes.old.count }
    ensures all { AreAllLanes (plan_view plan.now) core lanes.old
        → AreAllLanes (plan_view plan.now) core lanes.new }
    ensures lanes { AreLanes (plan_view plan.now) core place lanes.new }
    ensures before { AreBefore (plan_view plan.now) core (place - 1) lanes.new }
{
    for at in 0..lanes.count {
        move_lane(plan, core, &mut lanes.items[at], place);
    }
}

// Goes on in one row.
fn move_lane(plan: &Plan, core: usize, lane: &mut Lane, place: u32)
    requires in_round { place < ROUND }
    requires lane { IsLane (plan_view plan.now) core (place - 1) lane.old }
    requires end { place ≤ lane.old.end }
    ensures row { lane.new.row ≡ lane.old.row }
    ensures lane { IsLane (plan_view plan.now) core place lane.new }
    ensures before { Shows (plan_view plan.now) core (place - 1) lane.new.row lane.new.was }
{
    lane.was = lane.owner;
    if lane.end <= place {
        enter(plan, core, lane, place);
    }
}

// The lane of a row at the first place.
fn first_lane(plan: &Plan, core: usize, row: usize) -> Lane
    requires there { row < length plan.now.tables.rows }
    requires other { row ≢ core }
    ensures row { result.row ≡ row }
    ensures lane { IsLane (plan_view plan.now) core 0 result }
{
    let nobody = Owner::of(None);
    let mut lane = Lane {
        row,
        next: 0,
        end: 0,
        owner: nobody,
        was: nobody,
    };
    enter(plan, core, &mut lane, 0);
    lane
}

// Takes over what the row shows from the place on, where its next segment begins.
fn enter(plan: &Plan, core: usize, lane: &mut Lane, place: u32)
    requires there { lane.old.row < length plan.now.tables.rows }
    requires other { lane.old.row ≢ core }
    requires in_round { place < ROUND }
    requires next { ArePassed plan.now.tables.rows lane.old.row place lane.old.next }
    ensures row { lane.new.row ≡ lane.old.row }
    ensures was { lane.new.was ≡ lane.old.was }
    ensures lane { IsLane (plan_view plan.now) core place lane.new }
{
    let homes = plan.tables.homes.items();
    let segments = plan.tables.rows.items()[lane.row].segments();
    let next = lane.next;
    let first = segments[next];
    if is_of_core(homes, first.owner, core) {
        lane.next = next + 1;
        lane.end = first.end;
        lane.owner = first.owner;
        return;
    }
    let behind = behind_others(homes, segments, core, next + 1);
    lane.next = behind;
    lane.end = segments[behind - 1].end;
    lane.owner = Owner::of(None);
}

// The index of the first segment from there on that is of the core's vCPUs, or the count of segments.
fn behind_others(homes: &[Option<CoreNo>], segments: &[Segment], core: usize, from: usize) -> usize
    requires { from ≤ length segments.now }
    ensures later { from ≤ result }
    ensures within { result ≤ length segments.now }
    ensures others { (k v : ℕ) (s : Segment) → from ≤ k → k < result → slice_get segments.now k ≡ Some s
        → s.owner ≡ Some v → IsHome homes.now core v → ⊥ }
{
    for at in from..segments.len() {
        if is_of_core(homes, segments[at].owner, core) {
            return at;
        }
    }
    segments.len()
}

/// The least end of a lane, or that of the round.
pub(crate) fn next_end(lanes: &Lanes) -> u32
    requires few { lanes.now.count ≤ ROWS }
    ensures least { EndFrom result lanes.now }
    ensures within { result ≤ ROUND }
    ensures behind { (place : ℕ) → place < ROUND
        → ((at : ℕ) (lane : Lane) → IsListed lanes.now at lane → place < lane.end) → place < result }
{
    let mut least = ROUND;
    for at in 0..lanes.count {
        least = earlier(least, lanes.items[at].end);
    }
    least
}

fn earlier(one: u32, other: u32) -> u32
    ensures { result ≡ min one other }
{
    min(one, other)
}
