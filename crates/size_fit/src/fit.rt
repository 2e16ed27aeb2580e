ghost use Rattle.std.specs.Prelude.{◌≡◌, ℕ, ◌≤◌, All, IfErr, IfOk, IsErr, IsErrOf, List, length, map};
ghost use Rattle.period_choice.specs.Tasks.{AreTasksOf};
ghost use Rattle.tab_core.specs.declared.TheConstants.{MAX_VCPUS};
ghost use Rattle.tab_core.specs.declared.over.Over.{Over};
ghost use Rattle.table_form.specs.Tables.Plans.{PlanView};
ghost use Rattle.period_choice.specs.Tasks.{IsFirstWithoutPeriod};
ghost use Rattle.plan_make.specs.Planned.{IsFirstWithoutRoom, IsPlanned};
ghost use Rattle.size_fit.specs.Fits.{AreSplit, FitMore, IsFit};

use crate::load::loads_of;
use crate::more::more_of;
use plan_make::{PlanFault, plan};
use sizes_doc::Size;
use std::alloc::Global;
use tab_core::{Host, NoMemory, Tasks, VcpuNo};
use worst_fit::place;

/// How the VMs of a host fit it.
#[derive(Drop)]
pub struct Fit<'a> {
    /// The load of each core by its number: of the ticks of a round those that a vCPU has.
    pub loads: Vec<u32>,
    /// The vCPUs that the plan splits: each has slots on several cores.
    pub split: Vec<VcpuNo>,
    /// For each size, in their order, how many more of its VMs fit.
    pub rooms: Vec<Room<'a>>,
}

/// How many more VMs of a size fit a host.
#[derive(Clone, Copy)]
pub struct Room<'a> {
    pub size: Size<'a>,
    /// With so many more of them the host has room for all, and with one more it doesn't, or has more than 256 vCPUs.
    pub more: u32,
}

/// How the VMs of a host fit it, and how many more of each of these sizes would fit beside them.
///
/// They fit where the host has a plan. `NoPeriod` and `NoRoom` are those of its refusal, and come then and only then,
/// but that out of memory may come in place of any answer.
///
/// More VMs are planned after the host's own. With `no_split` a host whose plan splits a vCPU has no room for more, and
/// the answer for this very host has the vCPUs that are split, so that the caller refuses it. A count of more VMs is
/// searched by doubling and halving: it is one that fits where one more doesn't. Whether each lower count fits too, and
/// how many plans the search makes, isn't proved.
pub fn fit_sizes<'a>(
    alloc: Global,
    host: &Host,
    no_split: bool,
    sizes: &[Size<'a>],
) -> Result<Fit<'a>, PlanFault>
    ensures fits { IfOk result (λ fit. IsFit no_split host.now sizes.now fit.loads.items fit.split.items fit.rooms.items) }
    ensures cores { IfOk result (λ fit. length fit.loads.items ≡ host.now.cores) }
    ensures no_period { (vcpu : ℕ) → IsErrOf result (PlanFault.NoPeriod vcpu)
        → IsFirstWithoutPeriod host.now vcpu }
    ensures without_period { (vcpu : ℕ) → IsFirstWithoutPeriod host.now vcpu → IsErr result }
    ensures no_room { (vcpu rest : ℕ) (over : List Over) → IsErrOf result (PlanFault.NoRoom vcpu rest over)
        → IsFirstWithoutRoom host.now vcpu rest over }
    ensures without_room { (vcpu rest : ℕ) (over : List Over)
        → IsFirstWithoutRoom host.now vcpu rest over → IsErr result }
    ensures planned { (plan : PlanView) → IsPlanned host.now plan
        → IfErr result (λ fault. fault ≡ PlanFault.NoMemory) }
{
    let planned = match plan(alloc, host) {
        Ok(planned) => planned,
        Err(fault) => return Err(fault),
    };
    let loads = loads_of(alloc, planned.tables.rows.items())?;
    let split = split_of(alloc, host, &planned.tasks)?;
    let rooms = rooms_of(alloc, host, no_split, sizes)?;
    Ok(Fit {
        loads,
        split,
        rooms,
    })
}

/// The vCPUs that a plan of the host splits, whose tasks these are: those that worst fit leaves over, in its order.
pub fn split_of(alloc: Global, host: &Host, tasks: &Tasks) -> Result<Vec<VcpuNo>, NoMemory>
    requires { AreTasksOf host.now tasks.now }
    ensures split { IfOk result (λ split. AreSplit host.now split.items) }
    ensures few { IfOk result (λ split. length split.items ≤ MAX_VCPUS) }
{
    // (there are at most 256 tasks)
    let _ = tasks.items();
    let placed = place(alloc, tasks, host.cores)?;
    let split = placed.left.items().to_vec(alloc)?;
    Ok(split)
}

// How many more of each size fit.
fn rooms_of<'a>(
    alloc: Global,
    host: &Host,
    no_split: bool,
    sizes: &[Size<'a>],
) -> Result<Vec<Room<'a>>, NoMemory>
    ensures sizes { IfOk result (λ rooms. map (λ room. room.size) rooms.items ≡ sizes.now) }
    ensures more { IfOk result (λ rooms. All (λ room. FitMore no_split host.now room.size room.more) rooms.items) }
{
    let mut rooms = Vec::with_capacity(alloc, sizes.len())?;
    for size in sizes {
        let more = more_of(alloc, host, no_split, size)?;
        rooms.push(Room { size: *size, more })?;
    }
    Ok(rooms)
}
