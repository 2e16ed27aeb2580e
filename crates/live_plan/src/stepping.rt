ghost use Rattle.std.specs.Prelude.{◌≡◌, ◌-◌, ◌≤◌, ℕ, Some, length, slice_get};
ghost use Rattle.round_words.specs.Changes.{ChangesOnly};
ghost use Rattle.round_words.specs.Seats.{view_of, IsSeatOf};
ghost use Rattle.dispatch_core.specs.States.{HasBegun, IsSameCore};
ghost use Rattle.dispatch_core.specs.Told.{MakesSteps};
ghost use Rattle.live_plan.specs.Actors.{IsLiveActorOf, LiveAgrees};
ghost use Rattle.live_plan.specs.Books.{changes_before};
ghost use Rattle.live_plan.specs.Inside.Finishing.{LiveFinishTold, WaitTold};
ghost use Rattle.live_plan.specs.Inside.Keeping.{IsTableKept};
ghost use Rattle.live_plan.specs.Inside.Seeking.{IsSliceAt};
ghost use Rattle.live_plan.specs.Shelves.{Grows};
ghost use Rattle.live_plan.specs.Told.{LiveTold};

use crate::actor::LiveActor;
use crate::answer::LiveAnswer;
use crate::book::LiveBook;
use crate::kept::{Kept, keep};
use crate::seeking::Unmade;
use crate::shelf::Shelf;
use crew_turns::Pass;
use dispatch_core::{Begun, CoreState, Ended, Way, begin_step, end_step, run_on};
use round_words::{RoundBoard, RoundSeat};
use tab_core::Actor;

/// One step of a core by a live book: `core_step`, with the plans that the shelf gives.
///
/// The seat holds the core, the actor is of the book and agrees with the core's part, and the shelf is of the
/// book; all are so afterwards. `Ran`, `Behind` and `Finished` come as those of `core_step` by each course of
/// the book. `NotMade` names a change among the events of the round's used count, a look at which missed in
/// this call. `Stopped` names such a change for which the look gave out of memory, or where the core would
/// wait, the first change beyond what it saw. After these two the core has run nothing, and an entry that was
/// made stays.
pub fn live_core_step<'a, H: Shelf<'a>>(
    board: &RoundBoard,
    seat: &mut RoundSeat,
    actor: &mut LiveActor,
    book: &'a LiveBook,
    shelf: &mut H,
) -> LiveAnswer
    requires board { IsSeatOf board.now seat.old }
    requires actor { IsLiveActorOf book.now actor.old }
    requires agrees { LiveAgrees book.now actor.old.state (view_of seat.old) }
    requires shelf { H.is_of shelf.old book.now }
    ensures board { IsSeatOf board.now seat.new }
    ensures actor { IsLiveActorOf book.now actor.new }
    ensures agrees { LiveAgrees book.now actor.new.state (view_of seat.new) }
    ensures same { IsSameCore actor.old.state actor.new.state }
    ensures changes { ChangesOnly (view_of seat.old) (view_of seat.new) actor.old.state.core }
    ensures shelf { H.is_of shelf.new book.now }
    ensures grows { Grows (H.state shelf.old) (H.state shelf.new) }
    ensures told { LiveTold book.now actor.old.state.rounds actor.old.state.core (view_of seat.old)
        (H.state shelf.old) result (view_of seat.new) (H.state shelf.new) }
{
    let mut kept = Kept::nothing(book);
    step_keeping(board, seat, actor, book, shelf, &mut kept)
}

// One step of a live core, where what the last step found is kept: the shelf is asked for a plan only where the round
// has another used count.
#[inline(always)]
pub(crate) fn step_keeping<'a, H: Shelf<'a>>(
    board: &RoundBoard,
    seat: &mut RoundSeat,
    actor: &mut LiveActor,
    book: &'a LiveBook,
    shelf: &mut H,
    kept: &mut Kept<'a>,
) -> LiveAnswer
    requires board { IsSeatOf board.now seat.old }
    requires actor { IsLiveActorOf book.now actor.old }
    requires agrees { LiveAgrees book.now actor.old.state (view_of seat.old) }
    requires shelf { H.is_of shelf.old book.now }
    requires kept { IsTableKept book.now actor.old.state.core kept.old }
    ensures board { IsSeatOf board.now seat.new }
    ensures actor { IsLiveActorOf book.now actor.new }
    ensures agrees { LiveAgrees book.now actor.new.state (view_of seat.new) }
    ensures same { IsSameCore actor.old.state actor.new.state }
    ensures changes { ChangesOnly (view_of seat.old) (view_of seat.new) actor.old.state.core }
    ensures shelf { H.is_of shelf.new book.now }
    ensures grows { Grows (H.state shelf.old) (H.state shelf.new) }
    ensures told { LiveTold book.now actor.old.state.rounds actor.old.state.core (view_of seat.old)
        (H.state shelf.old) result (view_of seat.new) (H.state shelf.new) }
    ensures kept { IsTableKept book.now actor.old.state.core kept.new }
{
    match begin_step(board, seat, book.outline(), &mut actor.state) {
        Begun::Finished => LiveAnswer::Finished,
        Begun::Behind { seen, tick } => wait(book, shelf, seen, Actor::Controller, tick),
        Begun::At { seen, used } => { finish(board, seat, actor, book, shelf, kept, seen, used) },
    }
}

// The end of a step, with the plan that the shelf gives for the used count.
#[inline(always)]
fn finish<'a, H: Shelf<'a>>(
    board: &RoundBoard,
    seat: &mut RoundSeat,
    actor: &mut LiveActor,
    book: &'a LiveBook,
    shelf: &mut H,
    kept: &mut Kept<'a>,
    seen: u32,
    used: u32,
) -> LiveAnswer
    requires board { IsSeatOf board.now seat.old }
    requires actor { IsLiveActorOf book.now actor.old }
    requires agrees { LiveAgrees book.now actor.old.state (view_of seat.old) }
    requires begun { HasBegun book.now.outline actor.old.state (view_of seat.old) seen used }
    requires shelf { H.is_of shelf.old book.now }
    requires kept { IsTableKept book.now actor.old.state.core kept.old }
    ensures board { IsSeatOf board.now seat.new }
    ensures actor { IsLiveActorOf book.now actor.new }
    ensures agrees { LiveAgrees book.now actor.new.state (view_of seat.new) }
    ensures same { IsSameCore actor.old.state actor.new.state }
    ensures changes { ChangesOnly (view_of seat.old) (view_of seat.new) actor.old.state.core }
    ensures shelf { H.is_of shelf.new book.now }
    ensures grows { Grows (H.state shelf.old) (H.state shelf.new) }
    ensures told { LiveFinishTold book.now actor.old.state.core seen used (view_of seat.old)
        (H.state shelf.old) result (view_of seat.new) (H.state shelf.new) }
    ensures kept { IsTableKept book.now actor.old.state.core kept.new }
{
    match keep(book, shelf, &mut actor.taken, kept, actor.core, used) {
        Err(Unmade::NotMade { change }) => LiveAnswer::NotMade { change },
        Err(Unmade::Stopped { change }) => LiveAnswer::Stopped { change },
        Ok(()) => {
            let way = Way {
                outline: book.outline(),
                used,
                table: kept.table_or(&actor.table),
            };
            run(board, seat, &mut actor.state, &way, book, shelf, seen)
        }
    }
}

// The end of a step by this slice table, which is the core's of the plan that its round uses.
#[inline(always)]
fn run<'a, H: Shelf<'a>>(
    board: &RoundBoard,
    seat: &mut RoundSeat,
    state: &mut CoreState,
    way: &Way<'_>,
    book: &'a LiveBook,
    shelf: &mut H,
    seen: u32,
) -> LiveAnswer
    requires board { IsSeatOf board.now seat.old }
    requires agrees { LiveAgrees book.now state.old (view_of seat.old) }
    requires outline { way.now.outline.now ≡ book.now.outline }
    requires begun { HasBegun book.now.outline state.old (view_of seat.old) seen way.now.used }
    requires table { IsSliceAt book.now (changes_before book.now way.now.used) state.old.core way.now.table.now }
    requires shelf { H.is_of shelf.old book.now }
    ensures board { IsSeatOf board.now seat.new }
    ensures agrees { LiveAgrees book.now state.new (view_of seat.new) }
    ensures same { IsSameCore state.old state.new }
    ensures changes { ChangesOnly (view_of seat.old) (view_of seat.new) state.old.core }
    ensures shelf { H.is_of shelf.new book.now }
    ensures grows { Grows (H.state shelf.old) (H.state shelf.new) }
    ensures told { LiveFinishTold book.now state.old.core seen way.now.used (view_of seat.old) (H.state shelf.old)
        result (view_of seat.new) (H.state shelf.new) }
{
    match end_step(board, seat, way, state, seen) {
        Ended::Ran(stint) => LiveAnswer::Ran(stint),
        Ended::Behind { core, tick } => wait(book, shelf, seen, Actor::Core(core), tick),
    }
}

// Further steps of a live core, by what its steps found last, where its round uses that.
#[inline(always)]
pub(crate) fn run_further<P: Pass>(
    board: &RoundBoard,
    seat: &mut RoundSeat,
    passing: &mut P,
    limit: u32,
    actor: &mut LiveActor,
    book: &LiveBook,
    kept: &Kept<'_>,
)
    requires board { IsSeatOf board.now seat.old }
    requires actor { IsLiveActorOf book.now actor.old }
    requires agrees { LiveAgrees book.now actor.old.state (view_of seat.old) }
    requires kept { IsTableKept book.now actor.old.state.core kept.now }
    ensures board { IsSeatOf board.now seat.new }
    ensures actor { IsLiveActorOf book.now actor.new }
    ensures agrees { LiveAgrees book.now actor.new.state (view_of seat.new) }
    ensures same { IsSameCore actor.old.state actor.new.state }
    ensures changes { ChangesOnly (view_of seat.old) (view_of seat.new) actor.old.state.core }
    ensures told { (count : ℕ) × MakesSteps book.now.outline actor.old.state.rounds actor.old.state.core count
        (view_of seat.old) (view_of seat.new) }
{
    // before a table is looked up, since most turns of long stints are over here
    if actor.state.clock() > limit {
        return;
    }
    let outline = book.outline();
    let Some(used) = actor.state.last_used(outline) else {
        return;
    };
    if used != kept.used {
        return;
    }
    let way = Way {
        outline,
        used,
        table: kept.table_or(&actor.table),
    };
    run_by(board, seat, passing, limit, &way, book, &mut actor.state);
}

// Further steps by this slice table, which is the core's of the plan that its round uses. `book` is for the proof alone.
#[inline(always)]
fn run_by<P: Pass>(
    board: &RoundBoard,
    seat: &mut RoundSeat,
    passing: &mut P,
    limit: u32,
    way: &Way<'_>,
    book: &LiveBook,
    state: &mut CoreState,
)
    requires board { IsSeatOf board.now seat.old }
    requires agrees { LiveAgrees book.now state.old (view_of seat.old) }
    requires outline { way.now.outline.now ≡ book.now.outline }
    requires used { slice_get state.old.used (length state.old.used - 1) ≡ Some way.now.used }
    requires within { way.now.used ≤ length book.now.outline.ticks }
    requires table { IsSliceAt book.now (changes_before book.now way.now.used) state.old.core way.now.table.now }
    ensures board { IsSeatOf board.now seat.new }
    ensures agrees { LiveAgrees book.now state.new (view_of seat.new) }
    ensures same { IsSameCore state.old state.new }
    ensures changes { ChangesOnly (view_of seat.old) (view_of seat.new) state.old.core }
    ensures told { (count : ℕ) × MakesSteps book.now.outline state.old.rounds state.old.core count (view_of seat.old)
        (view_of seat.new) }
{
    let _ = book;
    run_on(board, seat, passing, limit, way, state);
}

// The core waits for this actor, unless memory ran out for the first change beyond what it saw.
#[inline(never)]
fn wait<'a, H: Shelf<'a>>(
    book: &'a LiveBook,
    shelf: &mut H,
    seen: u32,
    who: Actor,
    tick: u32,
) -> LiveAnswer
    requires seen { seen ≤ length book.now.outline.ticks }
    requires shelf { H.is_of shelf.old book.now }
    ensures shelf { H.is_of shelf.new book.now }
    ensures grows { Grows (H.state shelf.old) (H.state shelf.new) }
    ensures told { WaitTold book.now seen who tick (H.state shelf.old) result (H.state shelf.new) }
{
    let change = book.changes_before(seen);
    if change as usize >= book.changes().len() {
        return LiveAnswer::Behind { who, tick };
    }
    match shelf.look(book, change) {
        None => LiveAnswer::Behind { who, tick },
        Some(made) => {
            if made.found().is_stopped() {
                return LiveAnswer::Stopped { change };
            }
            LiveAnswer::Behind { who, tick }
        }
    }
}
