ghost use Rattle.std.specs.Prelude.{◌≡◌, ◌≢◌, ℕ, ◌+◌, ◌*◌, ◌≤◌, IfErr, IfOk, IsErr, IsErrOf, List, Option, map};
ghost use Rattle.tab_core.specs.declared.TheConstants.{ROUND};
ghost use Rattle.tab_core.specs.declared.periodic.Periodic.{Periodic};
ghost use Rattle.table_form.specs.Tables.Plans.{IsPlanFor};
ghost use Rattle.table_form.specs.Tables.Views.{plan_view};
ghost use Rattle.period_choice.specs.Tasks.{AreTasksOf, IsFirstWithoutPeriod};
ghost use Rattle.flow_net.specs.Allotments.{AreMarks, demands, load_of_tasks, period_of_task};
ghost use Rattle.flow_net.specs.Counts.{admitted, edges};
ghost use Rattle.wrap_table.specs.Whole.{IsBeyondRoom, IsWholePlan};

use crate::fault::WholeFault;
use crate::wrapping::wrap;
use flow_net::{allot, demand_sum};
use period_choice::tasks_of;
use std::alloc::Global;
use std::sync::ledger::Ledger;
use tab_core::{Host, ROUND, Steps};
use table_form::Plan;

/// A plan of the whole host: the vCPUs' ticks are allotted to the intervals between the ends of
/// periods, for all cores together, and laid along the cores. Its capped vCPUs are the host's.
///
/// `NoPeriod` comes where an admitted vCPU has no admissible period, and `NoFit` where each has one
/// but their demands sum to more than the cores have: then and only then, though `NoMemory` may
/// come in place of any answer. So a host whose demands fit is refused when memory runs out alone,
/// and one whose demands don't fit has no allotment of ticks to its vCPUs.
///
/// The call tells at most two steps for each edge of the flow network, for each pair of an admitted
/// vCPU and an interval, and none where it answers `NoPeriod` or `NoFit`.
///
/// Sources: W. A. Horn, "Some simple scheduling algorithms", Naval Research Logistics Quarterly 21,
/// 1974, and R. McNaughton, "Scheduling with deadlines and loss functions", Management Science 6,
/// 1959.
pub fn plan_whole<L: Ledger>(
    alloc: Global,
    host: &Host,
    steps: &mut Steps<L>,
) -> Result<Plan, WholeFault>
    ensures ok { IfOk result (λ plan. IsWholePlan host.now (plan_view plan)) }
    ensures fits_host { IfOk result (λ plan. IsPlanFor host.now (plan_view plan)) }
    ensures no_period { (vcpu : ℕ) → IsErrOf result (WholeFault.NoPeriod vcpu)
        → IsFirstWithoutPeriod host.now vcpu }
    ensures without_period { (vcpu : ℕ) → IsFirstWithoutPeriod host.now vcpu → IsErr result }
    ensures no_fit { (demand room : ℕ) → IsErrOf result (WholeFault.NoFit demand room)
        → IsBeyondRoom host.now demand room }
    ensures without_fit { (demand room : ℕ) → IsBeyondRoom host.now demand room → IsErr result }
    ensures planned { (tasks : List (Option Periodic)) → AreTasksOf host.now tasks
        → demands tasks ≤ host.now.cores * ROUND
        → IfErr result (λ fault. fault ≡ WholeFault.NoMemory) }
    ensures cost { (tasks : List (Option Periodic)) (marks : List ℕ) → AreTasksOf host.now tasks
        → AreMarks (map period_of_task tasks) marks → (let l = load_of_tasks tasks marks host.now.cores in
        steps.new ≤ steps.old + 2 * (admitted l * l.count) * edges l) }
    ensures untold { IfErr result (λ fault. fault ≢ WholeFault.NoMemory → steps.new ≡ steps.old) }
{
    let tasks = tasks_of(alloc, host)?;
    let demand = demand_sum(tasks.items());
    let room = u64::from(host.cores) * u64::from(ROUND);
    if demand > room {
        return Err(WholeFault::NoFit { demand, room });
    }
    let allotment = allot(alloc, &tasks, host.cores, steps)?;
    Ok(wrap(alloc, &tasks, &allotment, host.cores, host.vcpus.capped())?)
}
