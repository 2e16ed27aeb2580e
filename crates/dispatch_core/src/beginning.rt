ghost use Rattle.std.specs.Prelude.{◌≡◌, ◌+◌, ◌*◌, ◌/◌, ◌<◌, ◌≤◌, ◌^◌, ◌↔◌, All, IsTrue, Some, length, slice_get, true, vec_capacity};
ghost use Rattle.tab_core.specs.declared.TheConstants.{ROUND};
ghost use Rattle.tab_core.specs.declared.entry.Entry.{Entry as EntryValue};
ghost use Rattle.table_form.specs.Running.Courses.{CourseView};
ghost use Rattle.table_form.specs.Running.Outlines.{IsOutline};
ghost use Rattle.round_words.specs.Shown.{HoldsCore};
ghost use Rattle.round_words.specs.Changes.{ChangesOnly};
ghost use Rattle.round_words.specs.Seats.{view_of, IsSeatOf};
ghost use Rattle.round_words.specs.Views.{part};
ghost use Rattle.dispatch_core.specs.Inside.Logs.{IsLog, log_view};
ghost use Rattle.dispatch_core.specs.Parts.{HasEvents, used_counts};
ghost use Rattle.dispatch_core.specs.States.{AgreesWithoutPlan, FollowsPlans, IsSameCore};
ghost use Rattle.dispatch_core.specs.Told.{BegunTold, ComesToEnter};

use crate::answer::Begun;
use crate::log::CoreLog;
use round_words::{RoundBoard, RoundSeat};
use tab_core::{CoreNo, ROUND};
use table_form::Outline;

// Whether the count has each event of tick at most the clock less the lag.
#[inline(always)]
pub(crate) fn has_events(outline: &Outline, count: u32, clock: u32) -> bool
    requires { count ≤ length outline.now.ticks }
    ensures known { IsTrue result ↔ HasEvents outline.now count clock }
    ensures kept { IsOutline outline.now }
{
    if count == outline.count() {
        return true;
    }
    outline.tick_of(count) as u64 + outline.lag() as u64 > clock as u64
}

// Enters the round of the core's clock, unless it has, and answers the round's count.
#[inline(always)]
pub(crate) fn enter(
    board: &RoundBoard,
    seat: &mut RoundSeat,
    core: u32,
    clock: u32,
    used: &mut Vec<u32>,
) -> u32
    requires board { IsSeatOf board.now seat.old }
    requires started { (view_of seat.old).started ≡ true }
    requires core { HoldsCore (view_of seat.old) core × (core < 32) }
    requires clock { (part (view_of seat.old) core).clock ≡ clock }
    requires small { clock ≤ 2 ^ 31 }
    requires sight { 0 < length (part (view_of seat.old) core).sights }
    requires counts { All (λ (e : EntryValue). e.used ≤ (view_of seat.old).events) (part (view_of seat.old) core).entries }
    requires used { used.old.items ≡ used_counts (part (view_of seat.old) core).entries }
    requires room { clock / ROUND < vec_capacity used.old }
    ensures board { IsSeatOf board.now seat.new }
    ensures changes { ChangesOnly (view_of seat.old) (view_of seat.new) core }
    ensures enters { ComesToEnter (part (view_of seat.old) core) (part (view_of seat.new) core) }
    ensures used { used.new.items ≡ used_counts (part (view_of seat.new) core).entries }
    ensures room { vec_capacity used.new ≡ vec_capacity used.old }
    ensures within { result ≤ (view_of seat.old).events }
    ensures count { slice_get used.new.items (clock / ROUND) ≡ Some result }
{
    seat.shown();
    let rounds = used.len();
    if rounds as u32 * ROUND == clock {
        let count = board.decide(seat, CoreNo(core));
        used.push_reserved(count);
        return count;
    }
    used[rounds - 1]
}

// The begin of a step, on what a state keeps inside.
#[inline(always)]
pub(crate) fn begin(
    board: &RoundBoard,
    seat: &mut RoundSeat,
    outline: &Outline,
    log: &mut CoreLog,
) -> Begun
    requires board { IsSeatOf board.now seat.old }
    requires log { IsLog log.old }
    requires stands { AgreesWithoutPlan outline.now (log_view log.old) (view_of seat.old) }
    ensures board { IsSeatOf board.now seat.new }
    ensures log { IsLog log.new }
    ensures stands { AgreesWithoutPlan outline.now (log_view log.new) (view_of seat.new) }
    ensures same { IsSameCore (log_view log.old) (log_view log.new) }
    ensures changes { ChangesOnly (view_of seat.old) (view_of seat.new) log.old.core }
    ensures told { BegunTold outline.now log.old.rounds log.old.core (view_of seat.old) result (log_view log.new)
        (view_of seat.new) }
    ensures plans { (course : CourseView)
        → FollowsPlans course (log_view log.old) (part (view_of seat.old) log.old.core)
        → FollowsPlans course (log_view log.new) (part (view_of seat.new) log.old.core) }
{
    if log.clock == log.rounds * ROUND {
        return Begun::Finished;
    }
    let seen = board.see(seat, CoreNo(log.core));
    if !has_events(outline, seen, log.clock) {
        return Begun::Behind {
            seen,
            tick: outline.tick_of(seen),
        };
    }
    let used = enter(board, seat, log.core, log.clock, &mut log.used);
    Begun::At { seen, used }
}
