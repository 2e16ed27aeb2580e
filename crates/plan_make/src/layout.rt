ghost use Rattle.std.specs.Prelude.{◌≡◌, IfErr, IfOk, [], length};
ghost use Rattle.cd_split.specs.declared.fault.SplitFault.TheVariants.{NoMemory};
ghost use Rattle.period_choice.specs.Tasks.{AreTasksOf};
ghost use Rattle.worst_fit.specs.Bound.{IsWithinBound};
ghost use Rattle.plan_make.specs.Inside.Allotted.{AreLaidOut};
ghost use Rattle.plan_make.specs.Inside.Splits.{IsLayoutFault};
ghost use Rattle.plan_make.specs.Layout.{IsStayingLayout};

use crate::splitting::split_each;
use crate::unsplit::place_unsplit;
use cd_split::{CorePieces, SplitFault};
use std::alloc::Global;
use tab_core::{CoreNo, Host, Tasks};
use worst_fit::place_staying;

// Where the vCPUs of a host are: the pieces on each core, and the home of each vCPU.
#[derive(Drop)]
pub(crate) struct Layout {
    pub(crate) cores: CorePieces,
    pub(crate) homes: Vec<Option<CoreNo>>,
}

// Places the vCPUs unsplit, beside those that stay at their old homes, and then splits those that
// are left over.
pub(crate) fn lay_out(
    alloc: Global,
    host: &Host,
    tasks: &Tasks,
    old_homes: &[Option<CoreNo>],
) -> Result<Layout, SplitFault>
    requires { AreTasksOf host.now tasks.now }
    ensures layout { IfOk result (λ layout. IsStayingLayout old_homes.now host.now tasks.now
        layout.cores layout.homes.items) }
    ensures laid_out { IfOk result (λ layout. AreLaidOut tasks.now layout.cores layout.homes.items []) }
    ensures count { IfOk result (λ layout. length layout.cores ≡ host.now.cores) }
    ensures fault { IfErr result (IsLayoutFault old_homes.now host.now) }
    ensures bound { IsWithinBound tasks.now host.now.cores → IfErr result (λ fault. fault ≡ NoMemory) }
{
    let placed = place_staying(alloc, tasks, host.cores, old_homes)?;
    let core_of = placed.core_of.items();
    let mut cores = place_unsplit(alloc, tasks.items(), core_of, host.cores)?;
    let mut homes = Vec::from_slice(alloc, core_of)?;
    split_each(
        alloc,
        tasks.items(),
        placed.left.items(),
        &mut cores,
        &mut homes,
    )?;
    Ok(Layout { cores, homes })
}
