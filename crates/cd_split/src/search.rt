ghost use Rattle.std.specs.Prelude.{◌↔◌, ◌<◌, All, Contains, IfOk, IsTrue, MatchOption, length};
ghost use Rattle.cd_split.specs.Cores.{LackVcpu};
ghost use Rattle.cd_split.specs.Inside.Order.{IsCoreLoad, IsOrderOf};
ghost use Rattle.cd_split.specs.Inside.Search.{IsCutPiece, IsHomePiece, IsHomeless, IsUncut, left_of};
ghost use Rattle.cd_split.specs.Splitting.{TakesRest};

use crate::core_pieces::CorePieces;
use crate::cut::greatest_cut;
use crate::left::Left;
use crate::load::most_by_load;
use crate::order::CoreLoad;
use crate::trial::overload_with;
use std::alloc::Global;
use tab_core::{CoreNo, NoMemory, Piece};

fn is_unused(unused: &[CoreNo], core: CoreNo) -> bool
    ensures { IsTrue result ↔ Contains unused.now core }
{
    unused.contains(&core)
}

// Whether the core takes all that is left.
fn takes_rest(
    alloc: Global,
    left: &Left,
    cores: &CorePieces,
    rank: &CoreLoad,
) -> Result<bool, NoMemory>
    requires rank { IsCoreLoad cores.now rank.now }
    requires new { All (LackVcpu left.now.vcpu) cores.now }
    ensures { IfOk result (λ takes. IsTrue takes ↔ TakesRest cores.now (left_of left.now) rank.now.core) }
{
    if most_by_load(rank.load, left.period) < left.rest {
        return Ok(false);
    }
    let overload = overload_with(alloc, cores, left.rest_on(rank.core))?;
    Ok(overload.is_none())
}

// The first unused core that takes all that is left, as the piece that it takes.
pub(crate) fn find_home(
    alloc: Global,
    left: &Left,
    cores: &CorePieces,
    order: &[CoreLoad],
    unused: &[CoreNo],
) -> Result<Option<Piece>, NoMemory>
    requires order { IsOrderOf cores.now order.now }
    requires there { All (λ core. core < length cores.now) unused.now }
    requires new { All (LackVcpu left.now.vcpu) cores.now }
    ensures { IfOk result (λ found. MatchOption found (IsHomeless cores.now (left_of left.now) unused.now)
        (IsHomePiece cores.now (left_of left.now) unused.now)) }
{
    for rank in order {
        if is_unused(unused, rank.core) {
            if takes_rest(alloc, left, cores, rank)? {
                return Ok(Some(left.rest_on(rank.core)));
            }
        }
    }
    Ok(None)
}

// The first unused core that takes a cut of what is left, as the piece that it takes.
pub(crate) fn find_cut(
    alloc: Global,
    left: &Left,
    cores: &CorePieces,
    order: &[CoreLoad],
    unused: &[CoreNo],
) -> Result<Option<Piece>, NoMemory>
    requires order { IsOrderOf cores.now order.now }
    requires there { All (λ core. core < length cores.now) unused.now }
    requires new { All (LackVcpu left.now.vcpu) cores.now }
    ensures { IfOk result (λ found. MatchOption found (IsUncut cores.now (left_of left.now) unused.now)
        (IsCutPiece cores.now (left_of left.now) unused.now)) }
{
    if unused.len() < 2 {
        return Ok(None);
    }
    for rank in order {
        if is_unused(unused, rank.core) {
            if let Some(cost) = greatest_cut(alloc, left, cores, rank)? {
                return Ok(Some(left.cut_on(rank.core, cost)));
            }
        }
    }
    Ok(None)
}
