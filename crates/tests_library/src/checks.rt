ghost use Rattle.std.specs.Prelude.{◌≡◌, ◌≤◌, true, IfOk, IsTrue, length};
ghost use Rattle.std.specs.Option.{ForSome};
ghost use Rattle.tab_core.specs.declared.TheConstants.{MAX_VCPUS};
ghost use Rattle.table_form.specs.Tables.Homes.{is_housed};
ghost use Rattle.table_form.specs.Tables.Serves.{has_task};
ghost use Rattle.table_check.specs.Shapes.{AreOfTasks, AreOwnedByTasks};

use std::alloc::{AllocError, Global};
use std::test::Fail;
use tab_core::{CoreNo, NoMemory, Periodic, Tasks, VcpuNo};
use table_check::{RowChecks, check};
use table_form::{Homes, Owner, RawRows, RawTables, Segment, Segments};

// A segment: its end, and the number of its owner.
type Part = (u32, Option<u32>);

const A: Option<u32> = Some(0);

const B: Option<u32> = Some(1);

const IDLE: Option<u32> = None;

// The owner, if it has a task.
fn owner_of(tasks: &[Option<Periodic>], owner: Option<u32>) -> Option<VcpuNo>
    requires { length tasks.now ≤ MAX_VCPUS }
    ensures { ForSome result (λ v. has_task tasks.now v ≡ true) }
{
    let Some(vcpu) = owner else {
        return None;
    };
    let at = vcpu as usize;
    if at < tasks.len() && tasks[at].is_some() {
        Some(VcpuNo(vcpu))
    } else {
        None
    }
}

fn segments_of(
    alloc: Global,
    tasks: &[Option<Periodic>],
    parts: &[Part],
) -> Result<Segments, AllocError>
    requires { length tasks.now ≤ MAX_VCPUS }
    ensures { IfOk result (AreOfTasks tasks.now) }
{
    let mut segments = Vec::new(alloc);
    for (end, owner) in parts {
        segments.push(Segment {
            owner: Owner::of(owner_of(tasks, *owner)),
            end: *end,
        })?;
    }
    Ok(Segments::of(segments))
}

fn rows_of(alloc: Global, tasks: &[Option<Periodic>], rows: &[&[Part]]) -> Result<RawRows, Fail>
    requires { length tasks.now ≤ MAX_VCPUS }
    ensures count { IfOk result (λ raw. length raw ≡ length rows.now) }
    ensures owned { IfOk result (AreOwnedByTasks tasks.now) }
{
    let mut raw = Vec::new(alloc);
    for row in rows {
        raw.push(segments_of(alloc, tasks, row)?)?;
    }
    Ok(RawRows::of(raw))
}

fn home_of(task: &Option<Periodic>, cores: usize) -> Option<CoreNo>
    requires { 1 ≤ cores }
    ensures { IsTrue (is_housed cores task.now result) }
{
    if task.is_some() {
        Some(CoreNo(0))
    } else {
        None
    }
}

// Half of each round.
#[tactic(auto, unfolding(tab_core::specs::Period::is_period))]
fn half() -> Option<Periodic> {
    Some(Periodic {
        cost: 51_300,
        period: 102_600,
    })
}

// 40 ticks of each half of a round.
#[tactic(auto, unfolding(tab_core::specs::Period::is_period))]
fn forty() -> Option<Periodic> {
    Some(Periodic {
        cost: 40,
        period: 51_300,
    })
}

// Whether the rows are seen to be good as they come.
fn are_seen_good(
    alloc: Global,
    tasks: &[Option<Periodic>],
    rows: &[Segments],
) -> Result<bool, NoMemory>
    requires { length tasks.now ≤ MAX_VCPUS }
{
    let mut checks = RowChecks::of(alloc, tasks)?;
    for row in rows {
        if !checks.take_row(row.items()) {
            return Ok(false);
        }
    }
    Ok(checks.are_good())
}

// Whether the rows of two cores are seen to be good for the tasks of a and b, and make a plan, with both at
// home on core 0.
fn are_good(alloc: Global, rows: &[&[Part]; 2]) -> Result<bool, Fail> {
    let tasks = [half(), forty()];
    let raw = RawTables {
        rows: rows_of(alloc, &tasks, rows)?,
        homes: Homes::of(vec![in alloc; home_of(&tasks[0], 2), home_of(&tasks[1], 2)]?),
    };
    let tasks = Tasks::of(Vec::from_array(alloc, tasks)?);
    Ok(are_seen_good(alloc, tasks.items(), raw.rows.items())? && check(alloc, &tasks, &raw).is_ok())
}

// What a and b need, on one core and on two.
const GOOD: [[&[Part]; 2]; 2] = [
    [
        &[(40, B), (51_340, A), (51_380, B), (102_600, IDLE)],
        &[(102_600, IDLE)],
    ],
    [
        &[(51_300, A), (102_600, IDLE)],
        &[(51_260, IDLE), (51_340, B), (102_600, IDLE)],
    ],
];

#[test]
fn good_tables(rt: HostRuntime) -> Result<(), Fail> {
    for rows in &GOOD {
        assert!(rt; are_good(rt.alloc(), rows)?);
    }
    Ok(())
}
