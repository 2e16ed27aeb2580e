ghost use Rattle.std.specs.Prelude.{◌≡◌, ◌<◌, [], All, IfErr, IfOk, OnOk, Some, length, slice_get};
ghost use Rattle.cd_split.specs.Cores.{LackVcpu, pieces_on};
ghost use Rattle.cd_split.specs.Faults.{IsSplitFault};
ghost use Rattle.cd_split.specs.Shares.{FitTheirCores, StandApart};
ghost use Rattle.worst_fit.specs.Placement.{IsAdmitted};
ghost use Rattle.plan_make.specs.Inside.Allotted.{AreLaidOut};
ghost use Rattle.plan_make.specs.Inside.Splits.{AddsPieces, IsRefusedNext, IsStuckFault, SplitsNext};
ghost use Rattle.plan_make.specs.SplitInTurn.{SplitsEach, home_of, with_pieces};

use cd_split::{CorePieces, SplitFault, split};
use std::alloc::Global;
use tab_core::{CoreNo, NoMemory, Periodic, Piece, VcpuNo};

// The core of the last piece.
fn home_in(pieces: &[Piece]) -> CoreNo
    requires { 0 < length pieces.now }
    ensures { result ≡ home_of pieces.now }
{
    pieces[pieces.len() - 1].core
}

// Adds the pieces of a split vCPU, each after the others of its core.
fn add_each(cores: &mut CorePieces, pieces: &[Piece]) -> Result<(), NoMemory>
    requires new { All (λ p. LackVcpu p.vcpu (pieces_on cores.old p.core)) pieces.now }
    requires fit { FitTheirCores cores.old pieces.now }
    requires apart { StandApart pieces.now }
    ensures { OnOk result (cores.new ≡ with_pieces cores.old pieces.now) }
{
    for piece in pieces {
        cores.add(*piece)?;
    }
    Ok(())
}

// Splits a vCPU over the cores, and gives its home.
fn add_split(
    alloc: Global,
    vcpu: VcpuNo,
    task: Periodic,
    cores: &mut CorePieces,
) -> Result<CoreNo, SplitFault>
    requires { All (LackVcpu vcpu) cores.old }
    ensures ok { IfOk result (AddsPieces cores.old vcpu task cores.new) }
    ensures fault { IfErr result (IsSplitFault cores.old vcpu task) }
{
    let pieces = split(alloc, vcpu, task, cores)?;
    add_each(cores, pieces.items())?;
    Ok(home_in(pieces.items()))
}

// The task of an admitted vCPU.
fn task_of(tasks: &[Option<Periodic>], vcpu: VcpuNo) -> Periodic
    requires { IsAdmitted tasks.now vcpu }
    ensures { slice_get tasks.now vcpu ≡ Some (Some result) }
{
    if let Some(task) = tasks[vcpu.index()] {
        task
    } else {
        unreachable!()
    }
}

// Splits the next left-over vCPU.
fn split_next(
    alloc: Global,
    tasks: &[Option<Periodic>],
    vcpu: VcpuNo,
    cores: &mut CorePieces,
    homes: &mut [Option<CoreNo>],
) -> Result<(), SplitFault>
    requires admitted { IsAdmitted tasks.now vcpu }
    requires known { vcpu < length homes.old }
    requires new { All (LackVcpu vcpu) cores.old }
    ensures ok { OnOk result (SplitsNext tasks.now cores.old homes.old vcpu cores.new homes.new) }
    ensures fault { IfErr result (IsRefusedNext tasks.now cores.old vcpu) }
{
    let home = add_split(alloc, vcpu, task_of(tasks, vcpu), cores)?;
    homes[vcpu.index()] = Some(home);
    Ok(())
}

// Splits the left-over vCPUs one after the other, in their order.
pub(crate) fn split_each(
    alloc: Global,
    tasks: &[Option<Periodic>],
    left: &[VcpuNo],
    cores: &mut CorePieces,
    homes: &mut [Option<CoreNo>],
) -> Result<(), SplitFault>
    requires { AreLaidOut tasks.now cores.old homes.old left.now }
    ensures split { OnOk result (SplitsEach tasks.now cores.old homes.old left.now cores.new homes.new) }
    ensures laid_out { OnOk result (AreLaidOut tasks.now cores.new homes.new []) }
    ensures count { OnOk result (length cores.new ≡ length cores.old) }
    ensures fault { IfErr result (IsStuckFault tasks.now cores.old homes.old left.now) }
{
    for vcpu in left {
        split_next(alloc, tasks, *vcpu, cores, homes)?;
    }
    Ok(())
}
