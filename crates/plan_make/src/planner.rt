ghost use Rattle.std.specs.Prelude.{◌≡◌, ℕ, IfErr, IfOk, IsErr, IsErrOf, List, Option};
ghost use Rattle.tab_core.specs.declared.over.Over.{Over};
ghost use Rattle.tab_core.specs.declared.periodic.Periodic.{Periodic};
ghost use Rattle.table_form.specs.Tables.Plans.{IsPlanFor, PlanView};
ghost use Rattle.table_form.specs.Tables.Views.{plan_view};
ghost use Rattle.period_choice.specs.Tasks.{AreTasksOf, IsFirstWithoutPeriod};
ghost use Rattle.worst_fit.specs.Bound.{IsWithinBound};
ghost use Rattle.worst_fit.specs.Staying.{LeaveForNeed, StayWhereAllFit};
ghost use Rattle.plan_make.specs.Inside.StayingAnswer.{IsStayingAnswer};
ghost use Rattle.plan_make.specs.Planned.{IsFirstStayingWithoutRoom, IsFirstWithoutRoom, IsPlanned, IsStayingPlan};

use crate::draft::draft_of;
use crate::fault::PlanFault;
use crate::layout::lay_out;
use coalesce::join_slivers;
use period_choice::tasks_of;
use std::alloc::Global;
use tab_core::{CoreNo, Host, Tasks};
use table_form::Plan;

/// The plan of a host: its vCPUs are placed unsplit by worst fit, the left-over ones are split, each
/// core's row is made by earliest deadline first, and the row's slivers are joined. Its capped vCPUs
/// are the host's. A host has at most one such plan.
///
/// `NoPeriod` comes where an admitted vCPU has no admissible period, and `NoRoom` where each has
/// one but a left-over vCPU can't be split: then and only then, though `NoMemory` may come in place
/// of any answer. So a host that has a plan is refused only when memory runs out, and none within
/// the bound of worst fit is without room.
///
/// All is made in the calling thread.
///
/// Source: the planner of M. Vanga, A. Gujarati and B. B. Brandenburg, EuroSys 2018.
pub fn plan(alloc: Global, host: &Host) -> Result<Plan, PlanFault>
    ensures ok { IfOk result (λ plan. IsPlanned host.now (plan_view plan)) }
    ensures only { IfOk result (λ plan. (other : PlanView) → IsPlanned host.now other
        → other ≡ plan_view plan) }
    ensures fits_host { IfOk result (λ plan. IsPlanFor host.now (plan_view plan)) }
    ensures chosen { IfOk result (λ plan. AreTasksOf host.now plan.tasks) }
    ensures no_period { (vcpu : ℕ) → IsErrOf result (PlanFault.NoPeriod vcpu)
        → IsFirstWithoutPeriod host.now vcpu }
    ensures without_period { (vcpu : ℕ) → IsFirstWithoutPeriod host.now vcpu → IsErr result }
    ensures no_room { (vcpu rest : ℕ) (over : List Over) → IsErrOf result (PlanFault.NoRoom vcpu rest over)
        → IsFirstWithoutRoom host.now vcpu rest over }
    ensures without_room { (vcpu rest : ℕ) (over : List Over)
        → IsFirstWithoutRoom host.now vcpu rest over → IsErr result }
    ensures bound { (tasks : List (Option Periodic)) → AreTasksOf host.now tasks
        → IsWithinBound tasks host.now.cores
        → IfErr result (λ fault. fault ≡ PlanFault.NoMemory) }
    ensures planned { (plan : PlanView) → IsPlanned host.now plan
        → IfErr result (λ fault. fault ≡ PlanFault.NoMemory) }
{
    plan_staying(alloc, host, &[])
}

/// The plan of a host as `plan` makes it, where the budgets of the host's vCPUs are known.
///
/// `NoRoom` comes as from `plan`, and `NoPeriod` never, since each admitted vCPU has a budget.
/// `NoMemory` may come in place of any answer.
pub fn plan_with(alloc: Global, host: &Host, tasks: Tasks) -> Result<Plan, PlanFault>
    requires { AreTasksOf host.now tasks }
    ensures ok { IfOk result (λ plan. IsPlanned host.now (plan_view plan)) }
    ensures only { IfOk result (λ plan. (other : PlanView) → IsPlanned host.now other
        → other ≡ plan_view plan) }
    ensures fits_host { IfOk result (λ plan. IsPlanFor host.now (plan_view plan)) }
    ensures chosen { IfOk result (λ plan. AreTasksOf host.now plan.tasks) }
    ensures no_period { (vcpu : ℕ) → IsErrOf result (PlanFault.NoPeriod vcpu) → ⊥ }
    ensures no_room { (vcpu rest : ℕ) (over : List Over) → IsErrOf result (PlanFault.NoRoom vcpu rest over)
        → IsFirstWithoutRoom host.now vcpu rest over }
    ensures without_room { (vcpu rest : ℕ) (over : List Over)
        → IsFirstWithoutRoom host.now vcpu rest over → IsErr result }
    ensures bound { (tasks : List (Option Periodic)) → AreTasksOf host.now tasks
        → IsWithinBound tasks host.now.cores
        → IfErr result (λ fault. fault ≡ PlanFault.NoMemory) }
    ensures planned { (plan : PlanView) → IsPlanned host.now plan
        → IfErr result (λ fault. fault ≡ PlanFault.NoMemory) }
{
    plan_staying_with(alloc, host, tasks, &[])
}

/// The plan of a host that moves nobody without need: as `plan` makes it, but that vCPUs stay at their
/// old homes where they can.
///
/// `old_homes` has the old home of each of the host's vCPUs by its number. A vCPU beyond its end has
/// none, and a home at or beyond the count of cores is none. The admitted vCPUs are taken by falling
/// demand, ties to the lower number. Each stays whole at its old home if the load there is then at
/// most a round, and moves otherwise. Those that move and those without an old home are placed next,
/// by worst fit beside these, and what is left over is split. From no old homes that is `plan`.
///
/// `NoPeriod` comes as from `plan`, and `NoRoom` where a left-over vCPU can't be split beside those
/// that stay: then and only then, though `NoMemory` may come in place of any answer. Within the
/// bound of worst fit none is without room, as with `plan`. Beyond it, a host that has a plan may
/// have none that moves nobody.
pub fn plan_staying(
    alloc: Global,
    host: &Host,
    old_homes: &[Option<CoreNo>],
) -> Result<Plan, PlanFault>
    ensures ok { IfOk result (λ plan. IsStayingPlan old_homes.now host.now (plan_view plan)) }
    ensures only { IfOk result (λ plan. (other : PlanView) → IsStayingPlan old_homes.now host.now other
        → other ≡ plan_view plan) }
    ensures fits_host { IfOk result (λ plan. IsPlanFor host.now (plan_view plan)) }
    ensures chosen { IfOk result (λ plan. AreTasksOf host.now plan.tasks) }
    ensures stay { IfOk result (λ plan. StayWhereAllFit old_homes.now plan.tasks host.now.cores
        plan.tables.homes) }
    ensures need { IfOk result (λ plan. LeaveForNeed old_homes.now plan.tasks host.now.cores
        plan.tables.homes) }
    ensures no_period { (vcpu : ℕ) → IsErrOf result (PlanFault.NoPeriod vcpu)
        → IsFirstWithoutPeriod host.now vcpu }
    ensures without_period { (vcpu : ℕ) → IsFirstWithoutPeriod host.now vcpu → IsErr result }
    ensures no_room { (vcpu rest : ℕ) (over : List Over) → IsErrOf result (PlanFault.NoRoom vcpu rest over)
        → IsFirstStayingWithoutRoom old_homes.now host.now vcpu rest over }
    ensures without_room { (vcpu rest : ℕ) (over : List Over)
        → IsFirstStayingWithoutRoom old_homes.now host.now vcpu rest over → IsErr result }
    ensures bound { (tasks : List (Option Periodic)) → AreTasksOf host.now tasks
        → IsWithinBound tasks host.now.cores
        → IfErr result (λ fault. fault ≡ PlanFault.NoMemory) }
    ensures planned { (plan : PlanView) → IsStayingPlan old_homes.now host.now plan
        → IfErr result (λ fault. fault ≡ PlanFault.NoMemory) }
{
    let tasks = tasks_of(alloc, host)?;
    plan_staying_with(alloc, host, tasks, old_homes)
}

// The plan of a host, where the budgets of the host's vCPUs are known. So `NoPeriod` never comes.
fn plan_staying_with(
    alloc: Global,
    host: &Host,
    tasks: Tasks,
    old_homes: &[Option<CoreNo>],
) -> Result<Plan, PlanFault>
    requires { AreTasksOf host.now tasks }
    ensures answer { IsStayingAnswer old_homes.now host.now result }
    ensures no_period { (vcpu : ℕ) → IsErrOf result (PlanFault.NoPeriod vcpu) → ⊥ }
{
    let layout = lay_out(alloc, host, &tasks, old_homes)?;
    let draft = draft_of(alloc, tasks, layout, host.vcpus.capped())?;
    Ok(join_slivers(alloc, &draft, host.sliver)?)
}
