ghost use Rattle.std.specs.Prelude.{◌≡◌, ◌≤◌, ℕ, IfErr, IfOk, IsErrOf, IsTrue, List, Option, Some, slice_get};
ghost use Rattle.tab_core.specs.declared.TheConstants.{MAX_TICK_NS, MIN_TICK_NS};
ghost use Rattle.tab_core.specs.declared.periodic.Periodic.{Periodic};
ghost use Rattle.tab_core.specs.declared.vcpu.Vcpu.{Vcpu as VcpuValue};
ghost use Rattle.period_choice.specs.Inside.SoFar.{AreTasksSoFar};
ghost use Rattle.period_choice.specs.Tasks.{AreTasksOf, IsFirstWithoutPeriod, IsTaskOf, LacksPeriod};

use crate::choice::choose;
use crate::fault::TaskFault;
use std::alloc::Global;
use tab_core::{Host, Periodic, Reservation, Tasks, Vcpu, VcpuNo};

/// The budget of each of the host's vCPUs, by its number: the chosen one where it is admitted, with the
/// host's tick.
///
/// `NoPeriod` comes exactly where an admitted vCPU has no admissible period, and names the lowest. The
/// only other fault is out of memory, which may come in place of any answer.
pub fn tasks_of(alloc: Global, host: &Host) -> Result<Tasks, TaskFault>
    ensures ok { IfOk result (AreTasksOf host.now) }
    ensures only { IfOk result (λ tasks. (other : List (Option Periodic)) → AreTasksOf host.now other
        → other ≡ tasks) }
    ensures no_period { (vcpu : ℕ) → IsErrOf result (TaskFault.NoPeriod vcpu)
        → IsFirstWithoutPeriod host.now vcpu }
{
    tasks_by(alloc, host, &[], &[])
}

/// The budgets of a host's vCPUs as `tasks_of` gives them, where those are known that another host's
/// vCPUs have with the same tick: a vCPU whose reservation is that of its number there has its budget
/// too, and only the others' periods are chosen.
///
/// The faults are those of `tasks_of`.
pub fn tasks_after(
    alloc: Global,
    host: &Host,
    before: &Host,
    known: &Tasks,
) -> Result<Tasks, TaskFault>
    requires tick { before.now.tick_ns ≡ host.now.tick_ns }
    requires known { AreTasksOf before.now known.now }
    ensures ok { IfOk result (AreTasksOf host.now) }
    ensures only { IfOk result (λ tasks. (other : List (Option Periodic)) → AreTasksOf host.now other
        → other ≡ tasks) }
    ensures no_period { (vcpu : ℕ) → IsErrOf result (TaskFault.NoPeriod vcpu)
        → IsFirstWithoutPeriod host.now vcpu }
{
    tasks_by(alloc, host, before.vcpus.items(), known.items())
}

// The budgets of a host's vCPUs, where some with the host's tick are known, by their places.
fn tasks_by(
    alloc: Global,
    host: &Host,
    before: &[Vcpu],
    known: &[Option<Periodic>],
) -> Result<Tasks, TaskFault>
    requires { AreTasksSoFar before.now host.now.tick_ns known.now }
    ensures ok { IfOk result (AreTasksOf host.now) }
    ensures only { IfOk result (λ tasks. (other : List (Option Periodic)) → AreTasksOf host.now other
        → other ≡ tasks) }
    ensures no_period { (vcpu : ℕ) → IsErrOf result (TaskFault.NoPeriod vcpu)
        → IsFirstWithoutPeriod host.now vcpu }
{
    let vcpus = host.vcpus.items();
    let tick_ns = host.tick_ns;
    let mut tasks = Vec::with_capacity(alloc, vcpus.len())?;
    for (number, vcpu) in vcpus.iter().enumerate() {
        let no = VcpuNo(number as u32);
        tasks.push(task_by(before, known, no, vcpu.reservation, tick_ns)?)?;
    }
    Ok(Tasks::of(tasks))
}

// The vCPU's budget: the known one at its place, if the reservation there is its own, else the chosen one.
fn task_by(
    before: &[Vcpu],
    known: &[Option<Periodic>],
    vcpu: VcpuNo,
    reservation: Option<Reservation>,
    tick_ns: u32,
) -> Result<Option<Periodic>, TaskFault>
    requires at_least { MIN_TICK_NS ≤ tick_ns }
    requires at_most { tick_ns ≤ MAX_TICK_NS }
    requires known { AreTasksSoFar before.now tick_ns known.now }
    ensures ok { IfOk result (IsTaskOf reservation tick_ns) }
    ensures no_period { IfErr result (λ fault. (fault ≡ TaskFault.NoPeriod vcpu)
        × LacksPeriod reservation tick_ns) }
{
    let number = vcpu.index();
    if number < known.len() && is_reserved(before, number, reservation) {
        return Ok(known[number]);
    }
    task_of(vcpu, reservation, tick_ns)
}

// Whether there is a vCPU of the number, and this is its reservation.
fn is_reserved(vcpus: &[Vcpu], number: usize, reservation: Option<Reservation>) -> bool
    ensures { IsTrue result → (vcpu : VcpuValue) × (slice_get vcpus.now number ≡ Some vcpu)
        × (vcpu.reservation ≡ reservation) }
{
    number < vcpus.len() && are_same(&vcpus[number].reservation, &reservation)
}

fn are_same(a: &Option<Reservation>, b: &Option<Reservation>) -> bool
    ensures { IsTrue result → a.now ≡ b.now }
{
    match (a, b) {
        (Some(a), Some(b)) => is_same(a, b),
        (None, None) => true,
        _ => false,
    }
}

#[tactic(auto, using(tab_core::proofs::Alike::same_reservation))]
fn is_same(a: &Reservation, b: &Reservation) -> bool
    ensures { IsTrue result → a.now ≡ b.now }
{
    a.share_ppm == b.share_ppm && a.latency_ns == b.latency_ns
}

fn task_of(
    vcpu: VcpuNo,
    reservation: Option<Reservation>,
    tick_ns: u32,
) -> Result<Option<Periodic>, TaskFault>
    requires at_least { MIN_TICK_NS ≤ tick_ns }
    requires at_most { tick_ns ≤ MAX_TICK_NS }
    ensures ok { IfOk result (IsTaskOf reservation tick_ns) }
    ensures no_period { IfErr result (λ fault. (fault ≡ TaskFault.NoPeriod vcpu)
        × LacksPeriod reservation tick_ns) }
{
    match reservation {
        None => Ok(None),
        Some(r) => match choose(&r, tick_ns) {
            None => Err(TaskFault::NoPeriod { vcpu }),
            Some(task) => Ok(Some(task)),
        },
    }
}
