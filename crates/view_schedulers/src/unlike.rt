ghost use Rattle.std.specs.Prelude.{◌≡◌, ◌<◌, ◌≤◌, length};
ghost use Rattle.tab_core.specs.declared.TheConstants.{MAX_VCPUS};
ghost use Rattle.view_schedulers.specs.Unkept.{first_below};
ghost use Rattle.view_schedulers.specs.Unlike.{is_unlike, unlike_fault, unlike_of, unlike_pair};

use crate::budget::{budget_in, period_in};
use crate::guest::guest_of;
use crate::scheduler::Scheduler;
use crate::unkept::{Unkept, name_at};
use tab_core::{MAX_VCPUS, Name, VcpuNo};
use view_doc::{Task, View};

/// The first vCPU of a plan that has another period or another quota than one before it of its guest, where a guest has
/// one of each for all its vCPUs.
pub fn unlike_of(tick_ns: u32, view: &View) -> Option<Unkept>
    requires { length view.now.tasks.items ≤ MAX_VCPUS }
    ensures { result ≡ unlike_of tick_ns view.now.names.items view.now.tasks.items }
{
    first_unlike(tick_ns, &view.names, &view.tasks)
}

fn first_unlike(tick_ns: u32, names: &[Name], tasks: &[Task]) -> Option<Unkept>
    requires { length tasks.now ≤ MAX_VCPUS }
    ensures { result ≡ unlike_of tick_ns names.now tasks.now }
{
    for vcpu in 0..tasks.len() {
        if let Some(fault) = unlike_fault(tick_ns, names, tasks, vcpu) {
            return Some(fault);
        }
    }
    None
}

// The fault of the vCPU of this number.
fn unlike_fault(tick_ns: u32, names: &[Name], tasks: &[Task], vcpu: usize) -> Option<Unkept>
    requires few { length tasks.now ≤ MAX_VCPUS }
    requires low { vcpu < length tasks.now }
    ensures { result ≡ unlike_fault tick_ns names.now tasks.now vcpu }
{
    for other in 0..vcpu {
        if let Some(fault) = unlike_pair(tick_ns, names, tasks, vcpu, other) {
            return Some(fault);
        }
    }
    None
}

// The vCPU's fault beside another one.
fn unlike_pair(
    tick_ns: u32,
    names: &[Name],
    tasks: &[Task],
    vcpu: usize,
    other: usize,
) -> Option<Unkept>
    requires few { length tasks.now ≤ MAX_VCPUS }
    requires low { vcpu < length tasks.now }
    requires before { other < vcpu }
    ensures { result ≡ unlike_pair tick_ns names.now tasks.now vcpu other }
{
    let guest = guest_of(name_at(names, vcpu));
    let others = guest_of(name_at(names, other));
    if others == guest && is_unlike(tick_ns, &tasks[other], &tasks[vcpu]) {
        Some(Unkept::Unlike(VcpuNo(vcpu as u32)))
    } else {
        None
    }
}

// Whether the two have different periods or quotas.
fn is_unlike(tick_ns: u32, one: &Task, other: &Task) -> bool
    ensures { result ≡ is_unlike tick_ns one.now other.now }
{
    let scheduler = Scheduler::Quota;
    period_in(scheduler, tick_ns, one) != period_in(scheduler, tick_ns, other)
        || budget_in(scheduler, tick_ns, one) != budget_in(scheduler, tick_ns, other)
}
