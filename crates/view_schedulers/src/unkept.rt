ghost use Rattle.std.specs.Prelude.{◌≡◌, ◌<◌, ◌≤◌, ◌^◌, IfNone, length};
ghost use Rattle.tab_core.specs.declared.TheConstants.{MAX_CORES, MAX_VCPUS};
ghost use Rattle.vcpu_names.specs.Names.{name_at};
ghost use Rattle.view_schedulers.specs.Supply.{IsKeptThere};
ghost use Rattle.view_schedulers.specs.Unkept.{budget_fault, core_fault, first_below, kept_fault, slot_fault, split_fault, task_fault, unkept_of, unkept_vcpu};

use crate::budget::{budget_in, is_task, is_within, period_in};
use crate::guest::has_guest;
use crate::loads::load_on;
use crate::reserved::{is_kept, reserved_of};
use crate::scheduler::Scheduler;
use tab_core::{CoreNo, MAX_CORES, MAX_VCPUS, Name, Reservation, Vcpu, VcpuNo};
use view_doc::{Stretch, Task, Use, View};

/// Why the vCPUs of a plan aren't put on a scheduler.
#[derive(Clone, Copy, Debug, PartialEq, Eq)]
pub enum Unkept {
    /// The vCPU's name isn't a guest's with a number after a dot.
    NoGuest(VcpuNo),
    /// Its period and its cost are those of no plan.
    NoTask(VcpuNo),
    /// The scheduler takes no such period or budget.
    OutOfRange(VcpuNo),
    /// In the scheduler's unit the budget, rounded up, is more than the period, rounded down.
    RoundedOut(VcpuNo),
    /// The host admits no vCPU of its name.
    Stranger(VcpuNo),
    /// Its period and budget don't keep what the host's vCPU of its name has reserved.
    NotKept(VcpuNo),
    /// It has a slot on another core than its home.
    Split(VcpuNo),
    /// The core's budgets, rounded up, are together more than what the scheduler gives away of it.
    Overbooked(CoreNo),
    /// Its guest has one period and one quota for all vCPUs, and one before it has others.
    Unlike(VcpuNo),
}

/// Why a plan, beside the vCPUs of its host, isn't put on a scheduler: the first fault of a vCPU, else the first slot
/// away from home, else the first core that would be overbooked. A tick has so many nanoseconds.
///
/// Where there is none, each vCPU's budget in each of its periods keeps its reservation, and no core is to give more
/// than it has.
pub fn unkept_of(scheduler: Scheduler, tick_ns: u32, host: &[Vcpu], view: &View) -> Option<Unkept>
    requires { length view.now.tasks.items ≤ MAX_VCPUS }
    ensures value { result ≡ unkept_of scheduler tick_ns host.now view.now }
    ensures kept { IfNone result
        (IsKeptThere scheduler tick_ns host.now view.now.names.items view.now.tasks.items) }
{
    first_fault(scheduler, tick_ns, host, view)
}

// The first fault.
fn first_fault(scheduler: Scheduler, tick_ns: u32, host: &[Vcpu], view: &View) -> Option<Unkept>
    requires { length view.now.tasks.items ≤ MAX_VCPUS }
    ensures { result ≡ unkept_of scheduler tick_ns host.now view.now }
{
    if let Some(fault) = vcpus_fault(scheduler, tick_ns, host, &view.names, &view.tasks) {
        return Some(fault);
    }
    if let Some(fault) = split_fault(&view.tasks, &view.slots) {
        return Some(fault);
    }
    cores_fault(scheduler, tick_ns, &view.tasks)
}

// The first fault of a vCPU.
fn vcpus_fault(
    scheduler: Scheduler,
    tick_ns: u32,
    host: &[Vcpu],
    names: &[Name],
    tasks: &[Task],
) -> Option<Unkept>
    requires { length tasks.now ≤ MAX_VCPUS }
    ensures { result ≡ first_below (unkept_vcpu scheduler tick_ns host.now names.now tasks.now)
        (length tasks.now) }
{
    for vcpu in 0..tasks.len() {
        if let Some(fault) = vcpu_fault(scheduler, tick_ns, host, names, tasks, vcpu) {
            return Some(fault);
        }
    }
    None
}

// The fault of the vCPU of this number.
fn vcpu_fault(
    scheduler: Scheduler,
    tick_ns: u32,
    host: &[Vcpu],
    names: &[Name],
    tasks: &[Task],
    vcpu: usize,
) -> Option<Unkept>
    requires few { length tasks.now ≤ MAX_VCPUS }
    requires low { vcpu < length tasks.now }
    ensures { result ≡ unkept_vcpu scheduler tick_ns host.now names.now tasks.now vcpu }
{
    let number = VcpuNo(vcpu as u32);
    let name = name_at(names, vcpu);
    task_fault(scheduler, tick_ns, host, number, name, &tasks[vcpu])
}

// The name of a number, or nothing where there is none.
pub(crate) fn name_at(names: &[Name], vcpu: usize) -> &[u8]
    ensures { result.now ≡ name_at names.now vcpu }
{
    match names.get(vcpu) {
        Some(name) => name.bytes(),
        None => &[],
    }
}

fn task_fault(
    scheduler: Scheduler,
    tick_ns: u32,
    host: &[Vcpu],
    vcpu: VcpuNo,
    name: &[u8],
    task: &Task,
) -> Option<Unkept>
    ensures { result ≡ task_fault scheduler tick_ns host.now vcpu name.now task.now }
{
    if !has_guest(name) {
        return Some(Unkept::NoGuest(vcpu));
    }
    if !is_task(task) {
        return Some(Unkept::NoTask(vcpu));
    }
    let period = period_in(scheduler, tick_ns, task);
    let budget = budget_in(scheduler, tick_ns, task);
    budget_fault(scheduler, host, vcpu, name, period, budget)
}

fn budget_fault(
    scheduler: Scheduler,
    host: &[Vcpu],
    vcpu: VcpuNo,
    name: &[u8],
    period: u64,
    budget: u64,
) -> Option<Unkept>
    ensures { result ≡ budget_fault scheduler host.now vcpu name.now period budget }
{
    if !is_within(scheduler, period, budget) {
        return Some(Unkept::OutOfRange(vcpu));
    }
    if period < budget {
        return Some(Unkept::RoundedOut(vcpu));
    }
    kept_fault(scheduler, vcpu, period, budget, reserved_of(host, name))
}

fn kept_fault(
    scheduler: Scheduler,
    vcpu: VcpuNo,
    period: u64,
    budget: u64,
    reserved: Option<Reservation>,
) -> Option<Unkept>
    requires small { period < 2 ^ 32 }
    requires within { budget ≤ period }
    ensures { result ≡ kept_fault scheduler vcpu period budget reserved }
{
    let Some(reservation) = reserved else {
        return Some(Unkept::Stranger(vcpu));
    };
    if is_kept(scheduler, period, budget, &reservation) {
        None
    } else {
        Some(Unkept::NotKept(vcpu))
    }
}

// The first slot away from its vCPU's home.
fn split_fault(tasks: &[Task], slots: &[Stretch]) -> Option<Unkept>
    ensures { result ≡ split_fault tasks.now slots.now }
{
    for slot in slots {
        if let Some(fault) = slot_fault(tasks, slot.core, &slot.by) {
            return Some(fault);
        }
    }
    None
}

fn slot_fault(tasks: &[Task], core: CoreNo, by: &Use) -> Option<Unkept>
    ensures { result ≡ slot_fault tasks.now core by.now }
{
    let Use::Slot(vcpu) = *by else {
        return None;
    };
    match tasks.get(vcpu.index()) {
        Some(task) if task.home.0 != core.0 => Some(Unkept::Split(vcpu)),
        _ => None,
    }
}

// The first core that would be overbooked.
fn cores_fault(scheduler: Scheduler, tick_ns: u32, tasks: &[Task]) -> Option<Unkept>
    requires { length tasks.now ≤ MAX_VCPUS }
    ensures { result ≡ first_below (core_fault scheduler tick_ns tasks.now) MAX_CORES }
{
    for core in 0..MAX_CORES {
        if let Some(fault) = core_fault(scheduler, tick_ns, tasks, core) {
            return Some(fault);
        }
    }
    None
}

// The fault of the core of this number.
fn core_fault(scheduler: Scheduler, tick_ns: u32, tasks: &[Task], core: u32) -> Option<Unkept>
    requires few { length tasks.now ≤ MAX_VCPUS }
    requires low { core < MAX_CORES }
    ensures { result ≡ core_fault scheduler tick_ns tasks.now core }
{
    if scheduler.parts() < load_on(scheduler, tick_ns, core, tasks) {
        Some(Unkept::Overbooked(CoreNo(core)))
    } else {
        None
    }
}
