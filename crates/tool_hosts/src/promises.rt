ghost use Rattle.std.specs.Prelude.{◌≡◌, ◌≤◌, IfOk, length};
ghost use Rattle.tab_core.specs.declared.TheConstants.{MAX_TICK_NS, MAX_VCPUS, MIN_TICK_NS};

use host_judge::{Owed, owed_by_plan, owed_by_shares};
use std::alloc::Global;
use tab_core::{Vcpu, VcpuNo, WHOLE_PPM};
use tool_input::{Fault, Refusal, input_of, planned_in, shown};
use view_doc::{Task, View};
use view_schedulers::Unkept;

/// What the vCPUs of a host are owed of a window: by the plan in the file of this path, or by their shares where there is
/// none.
pub(crate) fn owed_of(
    rt: &HostRuntime,
    plan: Option<&str>,
    vcpus: &[Vcpu],
    tick_ns: u32,
) -> Result<Vec<Option<Owed>>, Fault>
    requires least { MIN_TICK_NS ≤ tick_ns }
    requires most { tick_ns ≤ MAX_TICK_NS }
    ensures { IfOk result (λ owed. length owed.items ≡ length vcpus.now) }
{
    let Some(path) = plan else {
        return Ok(owed_by_shares(rt.alloc(), vcpus, tick_ns)?);
    };
    let input = input_of(rt, Some(path))?;
    let planned = planned_in(rt.alloc(), &input)?;
    planned_for(rt.alloc(), &input.place, &planned.view, vcpus, tick_ns)
}

// What a plan owes them. The place is that of a fault.
fn planned_for(
    alloc: Global,
    place: &str,
    view: &View,
    vcpus: &[Vcpu],
    tick_ns: u32,
) -> Result<Vec<Option<Owed>>, Fault>
    requires few { length view.now.tasks.items ≤ MAX_VCPUS }
    requires tick { MIN_TICK_NS ≤ tick_ns }
    ensures { IfOk result (λ owed. length owed.items ≡ length vcpus.now) }
{
    let mut owed = Vec::with_capacity(alloc, vcpus.len())?;
    for number in 0..vcpus.len() {
        let one = planned_of(alloc, place, view, &vcpus[number], tick_ns)?;
        owed.push(one)?;
    }
    Ok(owed)
}

// What a plan owes a vCPU: the cost of each period, if that keeps the share that is reserved.
fn planned_of(
    alloc: Global,
    place: &str,
    view: &View,
    vcpu: &Vcpu,
    tick_ns: u32,
) -> Result<Option<Owed>, Fault>
    requires few { length view.now.tasks.items ≤ MAX_VCPUS }
    requires tick { MIN_TICK_NS ≤ tick_ns }
{
    let Some(reserved) = vcpu.reservation else {
        return Ok(None);
    };
    let name = vcpu.name.bytes();
    let Some((number, task)) = task_of(view, name) else {
        return Err(Fault::NotInPlan {
            place: String::from_str(alloc, place)?,
            name: shown(alloc, name)?,
        });
    };
    if is_share_planned(reserved.share_ppm, task.period, task.cost) {
        if let Some(by) = owed_by_plan(task.cost, task.period, tick_ns) {
            return Ok(Some(Owed::Plan(by)));
        }
    }
    Err(Fault::Unkept {
        place: String::from_str(alloc, place)?,
        fault: Refusal::of(alloc, &Unkept::NotKept(number), view)?,
    })
}

// The plan's vCPU of a name, with its number.
fn task_of(view: &View, name: &[u8]) -> Option<(VcpuNo, Task)>
    requires { length view.now.tasks.items ≤ MAX_VCPUS }
{
    for number in 0..view.tasks.len() {
        if let Some(one) = view.names.get(number) {
            if one.bytes() == name {
                return Some((VcpuNo(number as u32), view.tasks[number]));
            }
        }
    }
    None
}

// Whether the cost is the share of the period, or more.
fn is_share_planned(share_ppm: u32, period: u32, cost: u32) -> bool {
    u64::from(share_ppm) * u64::from(period) <= u64::from(cost) * u64::from(WHOLE_PPM)
}
