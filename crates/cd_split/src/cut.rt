ghost use Rattle.std.specs.Prelude.{ℕ, ◌-◌, ◌<◌, ◌≤◌, All, IfOk, List, MatchOption, length};
ghost use Rattle.tab_core.specs.declared.piece.Piece.{Piece};
ghost use Rattle.edf_table.specs.Beside.{tight};
ghost use Rattle.cd_split.specs.Cores.{LackVcpu, pieces_on};
ghost use Rattle.cd_split.specs.Inside.Order.{IsCoreLoad};
ghost use Rattle.cd_split.specs.Inside.Search.{IsTooMuch, left_of};
ghost use Rattle.cd_split.specs.Splitting.{FitsWith, IsGreatestCut, IsOverloadWith, cut_of};

use crate::core_pieces::CorePieces;
use crate::left::Left;
use crate::load::most_by_load;
use crate::order::CoreLoad;
use crate::trial::overload_with;
use std::alloc::Global;
use tab_core::{CoreNo, NoMemory, Over};

/// The least number of ticks that is cut off in one piece.
pub const LEAST_CUT: u32 = 10;

// A cost from which each one up to `cost` overloads the interval that `cost` overloads.
//
// Of a piece of `cost` ticks at most `windows` windows lie inside the interval, so each tick less
// takes at most so many from its demand.
fn still_too_much(overload: &Over, cost: u32, period: u32) -> u32
    requires some { 1 ≤ period }
    requires over { overload.now.from < overload.now.to }
    requires demand { overload.now.to - overload.now.from < overload.now.demand }
    ensures lower { result ≤ cost }
    ensures still { (cores : List (List Piece)) (core vcpu from less : ℕ)
        → IsOverloadWith cores (tight vcpu cost from period) core overload.now → result ≤ less
        → less ≤ cost → FitsWith (pieces_on cores core) (tight vcpu less from period) → ⊥ }
{
    let length = overload.to - overload.from;
    let excess = overload.demand - u64::from(length);
    let windows = u64::from(length.saturating_sub(cost) / period) + 1;
    u64::from(cost).saturating_sub((excess - 1) / windows) as u32
}

// None where a cut of `cost` ticks fits, and else a cost from which none below the rest fits.
fn try_cut(
    alloc: Global,
    left: &Left,
    cores: &CorePieces,
    core: CoreNo,
    cost: u32,
) -> Result<Option<u32>, NoMemory>
    requires there { core < length cores.now }
    requires new { All (LackVcpu left.now.vcpu) cores.now }
    requires some { 1 ≤ cost }
    requires below { cost < left.now.rest }
    ensures { IfOk result (λ found. MatchOption found
        (FitsWith (pieces_on cores.now core) (cut_of (left_of left.now) cost))
        (λ high. (high ≤ cost) × IsTooMuch cores.now (left_of left.now) core high)) }
{
    match overload_with(alloc, cores, left.cut_on(core, cost))? {
        None => Ok(None),
        Some(overload) => Ok(Some(still_too_much(&overload, cost, left.period))),
    }
}

// The greatest cut that fits on the core, if that is at least `LEAST_CUT` ticks.
//
// It is found by bisection, which in every other turn tries the greatest cost that is left: a miss
// tells how much is too much for its interval.
pub(crate) fn greatest_cut(
    alloc: Global,
    left: &Left,
    cores: &CorePieces,
    rank: &CoreLoad,
) -> Result<Option<u32>, NoMemory>
    requires rank { IsCoreLoad cores.now rank.now }
    requires new { All (LackVcpu left.now.vcpu) cores.now }
    ensures { IfOk result (λ found. MatchOption found
        (IsTooMuch cores.now (left_of left.now) rank.now.core LEAST_CUT)
        (λ cost. (LEAST_CUT ≤ cost)
        × IsGreatestCut cores.now (left_of left.now) rank.now.core cost)) }
{
    let mut low = LEAST_CUT - 1;
    let mut high = left.rest.min(most_by_load(rank.load, left.period) + 1);
    let mut at_top = true;
    while low + 1 < high {
        let cost = if at_top {
            high - 1
        } else {
            low + (high - low) / 2
        };
        match try_cut(alloc, left, cores, rank.core, cost)? {
            None => low = cost,
            Some(too_much) => high = too_much.max(low + 1),
        }
        at_top = !at_top;
    }
    if low < LEAST_CUT {
        Ok(None)
    } else {
        Ok(Some(low))
    }
}
