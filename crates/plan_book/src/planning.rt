ghost use Rattle.std.specs.Prelude.{◌≡◌, ℕ, IfErr, IfOk, IsErrOf, List};
ghost use Rattle.tab_core.specs.declared.over.Over.{Over};
ghost use Rattle.table_form.specs.Tables.Plans.{IsPlanFor};
ghost use Rattle.table_form.specs.Tables.Views.{plan_view};
ghost use Rattle.period_choice.specs.Tasks.{AreTasksOf, IsFirstWithoutPeriod};
ghost use Rattle.plan_make.specs.Planned.{IsFirstWithoutRoom, IsPlanned};
ghost use Rattle.plan_book.specs.Changes.{IsUnplanned};
ghost use Rattle.plan_book.specs.Inside.Making.{outcome_of_fault};

use crate::outcome::Outcome;
use period_choice::tasks_after;
use plan_make::{PlanFault, plan, plan_with};
use std::alloc::{AllocError, Global};
use tab_core::{Host, NoMemory, Tasks};
use table_form::Plan;

/// The plan of a host, or why it has none, as the outcome of a change that makes this host.
///
/// Fails only when memory runs out.
pub fn planned(alloc: Global, host: &Host) -> Result<Result<Plan, Outcome>, NoMemory>
    ensures planned { IfOk result (λ made. IfOk made (λ plan. IsPlanned host.now (plan_view plan))) }
    ensures fits { IfOk result (λ made. IfOk made (λ plan. IsPlanFor host.now (plan_view plan))) }
    ensures unplanned { IfOk result (λ made. IfErr made (IsUnplanned host.now)) }
{
    match plan(alloc, host) {
        Ok(plan) => Ok(Ok(plan)),
        Err(fault) => match outcome_of(&fault) {
            Some(outcome) => Ok(Err(outcome)),
            None => Err(AllocError),
        },
    }
}

// The plan of a host after a change, where the budgets with this tick of the host before the change are
// known.
pub(crate) fn planned_after(
    alloc: Global,
    host: &Host,
    before: &Host,
    known: &Tasks,
) -> Result<Result<Plan, Outcome>, NoMemory>
    requires tick { before.now.tick_ns ≡ host.now.tick_ns }
    requires known { AreTasksOf before.now known.now }
    ensures planned { IfOk result (λ made. IfOk made (λ plan. IsPlanned host.now (plan_view plan))) }
    ensures fits { IfOk result (λ made. IfOk made (λ plan. IsPlanFor host.now (plan_view plan))) }
    ensures unplanned { IfOk result (λ made. IfErr made (IsUnplanned host.now)) }
{
    match plan_after(alloc, host, before, known) {
        Ok(plan) => Ok(Ok(plan)),
        Err(fault) => match outcome_of(&fault) {
            Some(outcome) => Ok(Err(outcome)),
            None => Err(AllocError),
        },
    }
}

// The plan of a host, of whose vCPUs only those whose reservation isn't the one before get a new period.
fn plan_after(alloc: Global, host: &Host, before: &Host, known: &Tasks) -> Result<Plan, PlanFault>
    requires tick { before.now.tick_ns ≡ host.now.tick_ns }
    requires known { AreTasksOf before.now known.now }
    ensures ok { IfOk result (λ plan. IsPlanned host.now (plan_view plan)) }
    ensures fits { IfOk result (λ plan. IsPlanFor host.now (plan_view plan)) }
    ensures no_period { (vcpu : ℕ) → IsErrOf result (PlanFault.NoPeriod vcpu)
        → IsFirstWithoutPeriod host.now vcpu }
    ensures no_room { (vcpu rest : ℕ) (over : List Over) → IsErrOf result (PlanFault.NoRoom vcpu rest over)
        → IsFirstWithoutRoom host.now vcpu rest over }
{
    let tasks = tasks_after(alloc, host, before, known)?;
    plan_with(alloc, host, tasks)
}

// The outcome that a refusal of the host's plan is, but when memory runs out.
fn outcome_of(fault: &PlanFault) -> Option<Outcome>
    ensures { result ≡ outcome_of_fault fault.now }
{
    match fault {
        PlanFault::NoPeriod { vcpu } => Some(Outcome::NoPeriod { vcpu: *vcpu }),
        PlanFault::NoRoom { vcpu, .. } => Some(Outcome::NoRoom { vcpu: *vcpu }),
        PlanFault::NoMemory => None,
    }
}
