ghost use Rattle.std.specs.Prelude.{◌≡◌, ◌+◌, ◌*◌, ◌^◌, ◌<◌, ◌≤◌, ◌-◌, IfOk, Some, length, slice_get};
ghost use Rattle.tab_core.specs.declared.TheConstants.{MAX_CORES, MAX_VCPUS, ROUND};
ghost use Rattle.table_form.specs.Tables.Rows.{RisesTo, cells_from};
ghost use Rattle.table_form.specs.Tables.Serves.{cells_within};
ghost use Rattle.table_check.specs.Inside.Counters.{AreAtMost, CountSupply, GrowBy, ticks_given};
ghost use Rattle.table_check.specs.Shapes.{HaveGoodShapes, rows_of};
ghost use Rattle.table_check.specs.declared.counters.TheConstants.{MAX_PERIODS};

use std::alloc::Global;
use tab_core::{NoMemory, Periodic, ROUND, VcpuNo};
use table_form::{Segment, Segments};

// How many periods a round has at most.
pub(crate) const MAX_PERIODS: usize = 1026;

// Counts the ticks of [from, to) for the vCPU, in each of its periods that they meet.
fn add_run(
    counters: &mut Vec<u32>,
    tasks: &[Option<Periodic>],
    vcpu: VcpuNo,
    task: &Periodic,
    from: u32,
    to: u32,
)
    requires size { length counters.old.items ≡ length tasks.now * MAX_PERIODS }
    requires task { slice_get tasks.now vcpu ≡ Some (Some task.now) }
    requires room { AreAtMost tasks.now (2 ^ 32 - 1 - ROUND) counters.old.items }
    requires rises { from ≤ to }
    requires in_round { to ≤ ROUND }
    ensures size { length counters.new.items ≡ length counters.old.items }
    ensures grown { GrowBy tasks.now (ticks_given (Some vcpu) from to) counters.old.items counters.new.items }
{
    let mut tick = from;
    'cutting: while tick < to {
        let period_no = tick / task.period;
        let end = to.min((period_no + 1) * task.period);
        counters[vcpu.index() * MAX_PERIODS + period_no as usize] += end - tick;
        tick = end;
    }
}

// Counts the ticks of a segment that begins at `from` for its owner, if that has a task.
fn add_segment(counters: &mut Vec<u32>, tasks: &[Option<Periodic>], segment: &Segment, from: u32)
    requires size { length counters.old.items ≡ length tasks.now * MAX_PERIODS }
    requires room { AreAtMost tasks.now (2 ^ 32 - 1 - ROUND) counters.old.items }
    requires rises { from ≤ segment.now.end }
    requires in_round { segment.now.end ≤ ROUND }
    ensures size { length counters.new.items ≡ length counters.old.items }
    ensures grown { GrowBy tasks.now (ticks_given segment.now.owner from segment.now.end)
        counters.old.items counters.new.items }
{
    let Some(vcpu) = segment.owner.vcpu() else {
        return;
    };
    if vcpu.index() >= tasks.len() {
        return;
    }
    if let Some(task) = &tasks[vcpu.index()] {
        add_run(counters, tasks, vcpu, task, from, segment.end);
    }
}

// Counts the ticks of a row.
pub(crate) fn add_row(counters: &mut Vec<u32>, tasks: &[Option<Periodic>], segments: &[Segment])
    requires size { length counters.old.items ≡ length tasks.now * MAX_PERIODS }
    requires room { AreAtMost tasks.now (2 ^ 32 - 1 - 2 * ROUND) counters.old.items }
    requires rises { RisesTo 0 segments.now ROUND }
    ensures size { length counters.new.items ≡ length counters.old.items }
    ensures grown { GrowBy tasks.now (λ v. cells_within v (cells_from 0 segments.now))
        counters.old.items counters.new.items }
{
    let mut from = 0;
    for segment in segments {
        add_segment(counters, tasks, segment, from);
        from = segment.end;
    }
}

// What the rows give each vCPU in each of its periods.
pub(crate) fn count_supply(
    alloc: Global,
    tasks: &[Option<Periodic>],
    raw: &[Segments],
) -> Result<Vec<u32>, NoMemory>
    requires few { length tasks.now ≤ MAX_VCPUS }
    requires few_rows { length raw.now ≤ MAX_CORES }
    requires good { HaveGoodShapes raw.now }
    ensures size { IfOk result (λ counters. length counters.items ≡ length tasks.now * MAX_PERIODS) }
    ensures supply { IfOk result (λ counters. CountSupply tasks.now (rows_of raw.now) counters.items) }
{
    let mut counters = vec![in alloc; 0u32; tasks.len() * MAX_PERIODS]?;
    for row in raw {
        add_row(&mut counters, tasks, row.items());
    }
    Ok(counters)
}
