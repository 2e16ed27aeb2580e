ghost use Rattle.std.specs.Prelude.{◌≡◌, ◌≢◌, ◌+◌, ◌-◌, ◌*◌, ◌/◌, ◌%◌, ◌<◌, ◌≤◌, length, true};
ghost use Rattle.tab_core.specs.declared.TheConstants.{ROUND};
ghost use Rattle.round_words.specs.Hearing.{HasHeardTo};
ghost use Rattle.round_words.specs.Shown.{HoldsCore};
ghost use Rattle.round_words.specs.Changes.{ChangesOnly};
ghost use Rattle.round_words.specs.Seats.{view_of, IsSeatOf};
ghost use Rattle.round_words.specs.Views.{part, with_stint};
ghost use Rattle.dispatch_core.specs.Inside.Ending.{BySpan, ByTable, EndsStep, IsToEnd};
ghost use Rattle.dispatch_core.specs.Inside.Running.{EndsInside};
ghost use Rattle.dispatch_core.specs.Told.{BeginsNext};

use crate::answer::Ended;
use crate::log::{CoreLog, note};
use crate::way::Way;
use round_words::{RoundBoard, RoundSeat, hear_all};
use second_level::{Begin, next_stint_in};
use tab_core::{CoreNo, ROUND, Stint};
use table_form::Span;

// The end of a step, on what a state keeps inside. `place` is a guess at the number of the span.
#[inline(always)]
pub(crate) fn end(
    board: &RoundBoard,
    seat: &mut RoundSeat,
    log: &mut CoreLog,
    place: &mut u32,
    way: &Way<'_>,
    seen: u32,
) -> Ended
    requires { IsToEnd board.now way.now seen seat.old log.old }
    ensures { EndsStep board.now way.now (ByTable way.now log.old) seat.old log.old result seat.new log.new }
{
    seat.shown();
    // the clock's round is the last one that was entered
    let start = (log.used.len() as u32 - 1) * ROUND;
    let number = way.table.number_near(log.clock - start, *place as usize);
    let span = way.table.numbered(number, log.clock - start);
    match run_at(board, seat, log, way, seen, start, &span) {
        Ended::Ran(stint) => {
            *place = number_behind(number, &stint, start + span.end) as u32;
            Ended::Ran(stint)
        }
        Ended::Behind { core, tick } => {
            *place = number as u32;
            Ended::Behind { core, tick }
        }
    }
}

// The number of the span at which the next stint begins, which is the next one where the stint ends this one, whose end is
// given. Counted and not branched on, since whether a stint ends its span can't be foreseen.
#[inline(always)]
pub(crate) fn number_behind(number: usize, stint: &Stint, end: u32) -> usize
    requires { number < ROUND }
    ensures ended { stint.now.end ≡ end → result ≡ number + 1 }
    ensures inside { stint.now.end ≢ end → result ≡ number }
{
    number + (stint.end == end) as usize
}

// The core hears the others and runs its next stint, at this span, if no clock of theirs is too low.
#[inline(always)]
pub(crate) fn run_at(
    board: &RoundBoard,
    seat: &mut RoundSeat,
    log: &mut CoreLog,
    way: &Way<'_>,
    seen: u32,
    start: u32,
    span: &Span<'_>,
) -> Ended
    requires start { start ≡ log.old.clock - log.old.clock % ROUND }
    requires to_end { IsToEnd board.now way.now seen seat.old log.old }
    requires after { log.old.clock % ROUND < span.now.end }
    requires within { span.now.end ≤ ROUND }
    ensures ends { EndsStep board.now way.now (BySpan span.now log.old) seat.old log.old result seat.new log.new }
    ensures inside { EndsInside (start + span.now.end) result }
{
    let begin = Begin {
        from: log.clock,
        seen,
        used: way.used,
        last: log.last,
    };
    let next = next_stint_in(way.outline, CoreNo(log.core), &begin, start, span);
    match hear_all(
        board,
        seat,
        log.core,
        &mut log.known,
        way.outline.cores(),
        way.outline.lag(),
        next.stint.end,
    ) {
        Some(low) => Ended::Behind {
            core: low.core,
            tick: low.clock,
        },
        None => {
            advance(board, seat, log.core, &next.stint);
            note(log, &next);
            Ended::Ran(next.stint)
        }
    }
}

// The core runs its next stint.
#[inline(always)]
fn advance(board: &RoundBoard, seat: &mut RoundSeat, core: u32, stint: &Stint)
    requires board { IsSeatOf board.now seat.old }
    requires started { (view_of seat.old).started ≡ true }
    requires core { HoldsCore (view_of seat.old) core × (core < 32) }
    requires sight { 0 < length (part (view_of seat.old) core).sights }
    requires begins { BeginsNext (part (view_of seat.old) core) stint.now }
    requires end { (stint.now.from < stint.now.end) × (stint.now.end ≤ (stint.now.from / ROUND + 1) * ROUND) }
    requires heard { HasHeardTo (view_of seat.old) core (view_of seat.old).cores stint.now.end }
    ensures board { IsSeatOf board.now seat.new }
    ensures changes { ChangesOnly (view_of seat.old) (view_of seat.new) core }
    ensures becomes { part (view_of seat.new) core ≡ with_stint (part (view_of seat.old) core) stint.now }
{
    board.advance(seat, CoreNo(core), stint.end, stint.ran);
}
