ghost use Rattle.std.specs.Prelude.{◌≡◌, ℕ, ◌≤◌, All, IfErr, IfOk, List};
ghost use Rattle.std.specs.List.{AllZip, range_with_len, sum_by};
ghost use Rattle.tab_core.specs.declared.TheConstants.{MAX_CORES};
ghost use Rattle.tab_core.specs.declared.over.Over.{Over};
ghost use Rattle.tab_core.specs.declared.piece.Piece.{Piece};
ghost use Rattle.cd_split.specs.Cores.{LackVcpu};
ghost use Rattle.cd_split.specs.Faults.{IsSplitFault};
ghost use Rattle.cd_split.specs.Shares.{AreOf, FitTheirCores, HaveAdjacentWindows, IsSamePiece, StandApart};
ghost use Rattle.cd_split.specs.Splitting.{IsSplit, IsSplitRefused};

use crate::core_pieces::CorePieces;
use crate::fault::SplitFault;
use crate::left::Left;
use crate::order::order_of;
use crate::refusal::overloads_of;
use crate::search::{find_cut, find_home};
use std::alloc::Global;
use tab_core::{CoreNo, NoMemory, Periodic, Pieces, VcpuNo};

// The numbers of so many cores, rising.
fn numbers_of(alloc: Global, count: u32) -> Result<Vec<CoreNo>, NoMemory>
    requires { count ≤ MAX_CORES }
    ensures { IfOk result (λ numbers. numbers.items ≡ range_with_len 0 count) }
{
    let mut numbers = Vec::new(alloc);
    for number in 0..count {
        numbers.push(CoreNo(number))?;
    }
    Ok(numbers)
}

/// The pieces of a vCPU that is split over the cores, the last of them on its home.
///
/// The first unused core, by rising load and then number, that takes all that is left is the home.
/// Otherwise, if two or more are unused, the first on which `LEAST_CUT` or more of these ticks, but
/// not all, fit without slack takes as many as fit, and the rest goes on in the same way. `NoRoom`
/// comes exactly where neither step finds a core. The vCPU has no piece yet.
///
/// Source: C=D splitting of A. Burns, R. I. Davis, P. Wang and F. Zhang, Real-Time Systems 48, 2012.
pub fn split(
    alloc: Global,
    vcpu: VcpuNo,
    task: Periodic,
    cores: &CorePieces,
) -> Result<Pieces, SplitFault>
    requires { All (LackVcpu vcpu) cores.now }
    ensures pieces { IfOk result (IsSplit cores.now vcpu task) }
    ensures only { IfOk result (λ pieces. (other : List Piece) → IsSplit cores.now vcpu task other
        → AllZip IsSamePiece other pieces) }
    ensures room { IfOk result (λ _. (rest : ℕ) (over : List Over)
        → IsSplitRefused cores.now vcpu task rest over → ⊥) }
    ensures fault { IfErr result (IsSplitFault cores.now vcpu task) }
    ensures of { IfOk result (AreOf vcpu task.period) }
    ensures fit { IfOk result (FitTheirCores cores.now) }
    ensures apart { IfOk result StandApart }
    ensures windows { IfOk result (HaveAdjacentWindows 0 task.period) }
    ensures cost { IfOk result (λ pieces. sum_by (λ p. p.cost) pieces ≡ task.cost) }
{
    let order = order_of(alloc, cores)?;
    let mut unused = numbers_of(alloc, cores.cores())?;
    let mut left = Left::all_of(vcpu, &task);
    let mut pieces = Vec::new(alloc);
    loop {
        if let Some(piece) = find_home(alloc, &left, cores, &order, &unused)? {
            pieces.push(piece)?;
            return Ok(Pieces::of(pieces));
        }
        match find_cut(alloc, &left, cores, &order, &unused)? {
            None => {
                let over = overloads_of(alloc, &left, cores, &unused)?;
                let rest = left.rest;
                return Err(SplitFault::NoRoom { vcpu, rest, over });
            }
            Some(piece) => {
                unused.retain(|core| *core != piece.core);
                left = left.behind(piece.cost);
                pieces.push(piece)?;
            }
        }
    }
}
