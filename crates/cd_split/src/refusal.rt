ghost use Rattle.std.specs.Prelude.{◌<◌, ◌≤◌, All, IfOk, length};
ghost use Rattle.std.specs.List.{AllZip};
ghost use Rattle.tab_core.specs.declared.TheConstants.{MAX_CORES};
ghost use Rattle.cd_split.specs.Cores.{LackVcpu};
ghost use Rattle.cd_split.specs.Inside.Search.{IsHomeless, left_of};
ghost use Rattle.cd_split.specs.Splitting.{IsOverloadWith, TakesRest, rest_of};

use crate::core_pieces::CorePieces;
use crate::left::Left;
use crate::trial::overload_with;
use std::alloc::Global;
use tab_core::{CoreNo, NoMemory, Over, Overs};

// The reported overloaded interval of a core that doesn't take what is left.
fn overload_on(
    alloc: Global,
    left: &Left,
    cores: &CorePieces,
    core: CoreNo,
) -> Result<Over, NoMemory>
    requires there { core < length cores.now }
    requires new { All (LackVcpu left.now.vcpu) cores.now }
    requires over { TakesRest cores.now (left_of left.now) core → ⊥ }
    ensures { IfOk result (IsOverloadWith cores.now (rest_of (left_of left.now)) core) }
{
    match overload_with(alloc, cores, left.rest_on(core))? {
        Some(over) => Ok(over),
        None => unreachable!(),
    }
}

// The reported overloaded intervals of the unused cores, none of which takes what is left.
pub(crate) fn overloads_of(
    alloc: Global,
    left: &Left,
    cores: &CorePieces,
    unused: &[CoreNo],
) -> Result<Overs, NoMemory>
    requires there { All (λ core. core < length cores.now) unused.now }
    requires few { length unused.now ≤ MAX_CORES }
    requires new { All (LackVcpu left.now.vcpu) cores.now }
    requires homeless { IsHomeless cores.now (left_of left.now) unused.now }
    ensures { IfOk result
        (AllZip (IsOverloadWith cores.now (rest_of (left_of left.now))) unused.now) }
{
    let mut overs = Vec::with_capacity(alloc, unused.len())?;
    for core in unused {
        overs.push(overload_on(alloc, left, cores, *core)?)?;
    }
    Ok(Overs::of(overs))
}
