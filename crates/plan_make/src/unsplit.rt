ghost use Rattle.std.specs.Prelude.{◌≡◌, ℕ, ◌+◌, ◌<◌, ◌≤◌, IfOk, OnOk, Some, length, slice_get, take};
ghost use Rattle.tab_core.specs.declared.TheConstants.{MAX_CORES, MAX_VCPUS};
ghost use Rattle.table_form.specs.Planning.Jobs.{subtask_of};
ghost use Rattle.worst_fit.specs.Load.{FitsEachCore};
ghost use Rattle.plan_make.specs.Unsplit.{StandUnsplit, unsplit};

use cd_split::CorePieces;
use std::alloc::Global;
use tab_core::{CoreNo, NoMemory, Periodic, Piece, VcpuNo};

// All of a vCPU as one piece on a core.
fn unsplit_piece(vcpu: VcpuNo, core: CoreNo, task: &Periodic) -> Piece
    ensures subtask { subtask_of result ≡ unsplit vcpu task.now }
    ensures core { result.core ≡ core }
{
    Piece {
        vcpu,
        core,
        cost: task.cost,
        from: 0,
        to: task.period,
        period: task.period,
    }
}

// Adds the vCPU of this number to those of lower numbers that are unsplit.
fn add_unsplit(
    cores: &mut CorePieces,
    tasks: &[Option<Periodic>],
    core_of: &[Option<CoreNo>],
    number: usize,
) -> Result<(), NoMemory>
    requires known { number < length tasks.now }
    requires as_many { length core_of.now ≡ length tasks.now }
    requires few { length tasks.now ≤ MAX_VCPUS }
    requires there { (vcpu core : ℕ) → slice_get core_of.now vcpu ≡ Some (Some core)
        → core < length cores.old }
    requires fits { FitsEachCore tasks.now (length cores.old) core_of.now }
    requires before { StandUnsplit (take number tasks.now) (take number core_of.now)
        (length cores.old) cores.old }
    ensures { OnOk result (StandUnsplit (take (number + 1) tasks.now) (take (number + 1) core_of.now)
        (length cores.old) cores.new) }
{
    if let Some(task) = &tasks[number] {
        if let Some(core) = core_of[number] {
            cores.add(unsplit_piece(VcpuNo(number as u32), core, task))?;
        }
    }
    Ok(())
}

// The cores with the pieces of the vCPUs that are unsplit there, by rising number.
pub(crate) fn place_unsplit(
    alloc: Global,
    tasks: &[Option<Periodic>],
    core_of: &[Option<CoreNo>],
    count: u32,
) -> Result<CorePieces, NoMemory>
    requires as_many { length core_of.now ≡ length tasks.now }
    requires few { length tasks.now ≤ MAX_VCPUS }
    requires few_cores { count ≤ MAX_CORES }
    requires there { (vcpu core : ℕ) → slice_get core_of.now vcpu ≡ Some (Some core) → core < count }
    requires fits { FitsEachCore tasks.now count core_of.now }
    ensures { IfOk result (StandUnsplit tasks.now core_of.now count) }
{
    let mut cores = CorePieces::empty(alloc, count)?;
    for number in 0..tasks.len() {
        add_unsplit(&mut cores, tasks, core_of, number)?;
    }
    Ok(cores)
}
