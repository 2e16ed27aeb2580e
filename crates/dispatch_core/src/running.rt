ghost use Rattle.std.specs.Prelude.{◌≡◌, ◌-◌, ◌*◌, ◌%◌, ◌<◌, ◌≤◌, Some, length, slice_get};
ghost use Rattle.tab_core.specs.declared.TheConstants.{ROUND};
ghost use Rattle.table_form.specs.Running.Courses.{InEachCourse};
ghost use Rattle.table_form.specs.Tables.Plans.{PlanView};
ghost use Rattle.round_words.specs.Changes.{ChangesOnly};
ghost use Rattle.round_words.specs.Seats.{view_of, IsSeatOf};
ghost use Rattle.round_words.specs.Views.{part};
ghost use Rattle.slice_table.specs.Slices.{IsTableOf};
ghost use Rattle.dispatch_core.specs.Inside.Logs.{IsLog, log_view};
ghost use Rattle.dispatch_core.specs.Inside.Running.{GoesBySpan, IsToRun};
ghost use Rattle.dispatch_core.specs.States.{AgreesWithoutPlan, FollowsPlans, IsSameCore};
ghost use Rattle.dispatch_core.specs.Told.{RunsTo};

use crate::answer::{CoreAnswer, Ended};
use crate::beginning::has_events;
use crate::ending::{number_behind, run_at};
use crate::log::CoreLog;
use crate::state::CoreState;
use crate::way::Way;
use crew_turns::Pass;
use round_words::{RoundBoard, RoundSeat};
use tab_core::{Actor, CoreNo, ROUND};
use table_form::Span;

/// Further steps of a core in the round that it entered last, each as `begin_step` and `end_step` make it, and after a pass.
/// Each begins where the clock is at the limit at most (ticks of the run). They go on until the core waits, its clock is above
/// the limit, or the round is at its end.
///
/// The seat holds the core, and the state agrees with the core's part in all that needs no plan, which it does
/// again afterwards.
#[inline(always)]
pub fn run_on<P: Pass>(
    board: &RoundBoard,
    seat: &mut RoundSeat,
    passing: &mut P,
    limit: u32,
    way: &Way<'_>,
    state: &mut CoreState,
)
    requires board { IsSeatOf board.now seat.old }
    requires stands { AgreesWithoutPlan way.now.outline.now state.old (view_of seat.old) }
    requires used { slice_get state.old.used (length state.old.used - 1) ≡ Some way.now.used }
    ensures board { IsSeatOf board.now seat.new }
    ensures stands { AgreesWithoutPlan way.now.outline.now state.new (view_of seat.new) }
    ensures same { IsSameCore state.old state.new }
    ensures changes { ChangesOnly (view_of seat.old) (view_of seat.new) state.old.core }
    ensures told { RunsTo way.now.outline.now state.old.rounds state.old.core limit (length state.old.used * ROUND)
        (view_of seat.old) (view_of seat.new) state.new.clock }
    ensures plans { (plan : PlanView) → IsTableOf plan state.old.core way.now.table.now
        → InEachCourse way.now.outline.now way.now.used plan
        (λ course. FollowsPlans course state.old (part (view_of seat.old) state.old.core)
        → FollowsPlans course state.new (part (view_of seat.new) state.old.core)) }
{
    run_log(
        board,
        seat,
        passing,
        limit,
        way,
        &mut state.log,
        &mut state.place,
    );
}

// Further steps, on what a state keeps inside. `place` is a guess at the number of the span.
#[inline(always)]
fn run_log<P: Pass>(
    board: &RoundBoard,
    seat: &mut RoundSeat,
    passing: &mut P,
    limit: u32,
    way: &Way<'_>,
    log: &mut CoreLog,
    place: &mut u32,
)
    requires board { IsSeatOf board.now seat.old }
    requires log { IsLog log.old }
    requires stands { AgreesWithoutPlan way.now.outline.now (log_view log.old) (view_of seat.old) }
    requires used { slice_get log.old.used.items (length log.old.used.items - 1) ≡ Some way.now.used }
    ensures board { IsSeatOf board.now seat.new }
    ensures log { IsLog log.new }
    ensures stands { AgreesWithoutPlan way.now.outline.now (log_view log.new) (view_of seat.new) }
    ensures same { IsSameCore (log_view log.old) (log_view log.new) }
    ensures changes { ChangesOnly (view_of seat.old) (view_of seat.new) log.old.core }
    ensures told { RunsTo way.now.outline.now log.old.rounds log.old.core limit (length log.old.used.items * ROUND)
        (view_of seat.old) (view_of seat.new) log.new.clock }
    ensures plans { (plan : PlanView) → IsTableOf plan log.old.core way.now.table.now
        → InEachCourse way.now.outline.now way.now.used plan
        (λ course. FollowsPlans course (log_view log.old) (part (view_of seat.old) log.old.core)
        → FollowsPlans course (log_view log.new) (part (view_of seat.new) log.old.core)) }
{
    seat.shown();
    // the last round that was entered; the core may be at its end
    let start = (log.used.len() as u32 - 1) * ROUND;
    let last = limit.min(start + (ROUND - 1));
    if log.clock > last {
        return;
    }
    let mut number = way.table.number_near(log.clock - start, *place as usize);
    'running: while log.clock <= last {
        passing.pass(log.clock);
        let span = way.table.numbered(number, log.clock - start);
        match go_on(board, seat, log, way, start, &span) {
            CoreAnswer::Ran(stint) => {
                number = number_behind(number, &stint, start + span.end);
            }
            CoreAnswer::Behind { .. } | CoreAnswer::Finished => {
                *place = number as u32;
                return;
            }
        }
    }
    *place = number as u32;
}

// A step in the round that was entered last, at this span.
#[inline(always)]
fn go_on(
    board: &RoundBoard,
    seat: &mut RoundSeat,
    log: &mut CoreLog,
    way: &Way<'_>,
    start: u32,
    span: &Span<'_>,
) -> CoreAnswer
    requires to_run { IsToRun board.now way.now seat.old log.old }
    requires start { start ≡ log.old.clock - log.old.clock % ROUND }
    requires after { log.old.clock % ROUND < span.now.end }
    requires inside { span.now.end ≤ ROUND }
    ensures { GoesBySpan board.now way.now span.now seat.old log.old result seat.new log.new }
{
    let seen = board.see(seat, CoreNo(log.core));
    if !has_events(way.outline, seen, log.clock) {
        return CoreAnswer::Behind {
            who: Actor::Controller,
            tick: way.outline.tick_of(seen),
        };
    }
    match run_at(board, seat, log, way, seen, start, span) {
        Ended::Ran(stint) => CoreAnswer::Ran(stint),
        Ended::Behind { core, tick } => CoreAnswer::Behind {
            who: Actor::Core(core),
            tick,
        },
    }
}
