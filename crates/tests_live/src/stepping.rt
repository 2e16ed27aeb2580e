//! Single steps of a live core and a live controller, by shelves that know a change's plan, that know nothing of it and
//! that know that memory ran out for it.
ghost use Rattle.std.specs.Prelude.{◌≡◌, IfOk, IfSome, length};
ghost use Rattle.round_words.specs.Seats.{view_of, IsSeatOf};
ghost use Rattle.plan_switch.specs.Controllers.{HasPosted};
ghost use Rattle.live_plan.specs.Actors.{IsLiveActorOf, LiveAgrees};
ghost use Rattle.live_plan.specs.Books.{IsMadeFor};
ghost use Rattle.live_plan.specs.Inside.Lists.{AreMadeFor};

use live_plan::{
    CellShelf, ListShelf, LiveActor, LiveAnswer, LiveBook, LiveControl, LiveController,
    LivePlanner, Made, PlannerAnswer, Shelf, live_control_step, live_core_step, planner_step,
};
use round_words::{RoundBoard, RoundSeat};
use script_doc::read_script;
use std::alloc::Global;
use std::test::Fail;
use tab_core::{
    Actor, CoreNo, Host, Name, NoMemory, Reservation, Stint, TICK_NS, Vcpu, VcpuNo, Vcpus,
};

// The live book of a core with a vCPU of one half, whose share changes at tick 20,000, which is the lag too.
fn book_of(alloc: Global) -> Result<LiveBook, Fail>
    ensures { IfOk result (λ book. length book.changes ≡ 1) }
{
    let mut vcpus = Vec::new(alloc);
    vcpus.push(Vcpu {
        name: Name::of(alloc, b"a")?,
        reservation: Some(Reservation {
            share_ppm: 500_000,
            latency_ns: 102_702_600,
        }),
        runnable: true,
        capped: false,
    })?;
    let host = Host {
        tick_ns: TICK_NS,
        cores: 1,
        lag: 20_000,
        sliver: 30,
        quantum: 102_600,
        vcpus: Vcpus::of(vcpus),
    };
    let script = read_script(alloc, b"20000 change set a 250000 102702600", &host, 2)?;
    let book = LiveBook::make(alloc, &host, &script)?;
    if book.changes().len() == 1 {
        Ok(book)
    } else {
        Err(Fail::from("not one change"))
    }
}

// A board that is started for the book, with the actors of core 0 and of the controller.
fn start(
    alloc: Global,
    book: &LiveBook,
) -> Result<(RoundBoard, RoundSeat, LiveActor, LiveController), NoMemory>
    ensures board { IfOk result (λ s. IsSeatOf s.0 s.1) }
    ensures actor { IfOk result (λ s. IsLiveActorOf book.now s.2) }
    ensures first { IfOk result (λ s. s.2.state.core ≡ 0) }
    ensures agrees { IfOk result (λ s. LiveAgrees book.now s.2.state (view_of s.1)) }
    ensures posted { IfOk result (λ s. HasPosted book.now.outline s.3 (view_of s.1)) }
{
    let (board, mut seat) = RoundBoard::make(alloc)?;
    // (it tells what every live book keeps)
    let _ = book.host();
    let outline = book.outline();
    board.start(&mut seat, outline.lag(), outline.cores(), outline.count());
    let actor = LiveActor::make(alloc, book, CoreNo(0), 2)?;
    let controller = LiveController::make(book);
    Ok((board, seat, actor, controller))
}

// What a shelf in memory has for a book of one change.
fn listed(alloc: Global, book: &LiveBook, made: Option<Made>) -> Result<Vec<Option<Made>>, NoMemory>
    requires one { length book.now.changes ≡ 1 }
    requires for_it { IfSome made (IsMadeFor book.now 0) }
    ensures { IfOk result (λ list. AreMadeFor book.now list.items) }
{
    let _ = book;
    let mut list = Vec::new(alloc);
    list.push(made)?;
    Ok(list)
}

// Whether a step of the core has this answer.
fn steps<'a, H: Shelf<'a>>(
    board: &RoundBoard,
    seat: &mut RoundSeat,
    actor: &mut LiveActor,
    book: &'a LiveBook,
    shelf: &mut H,
    wanted: LiveAnswer,
) -> bool
    requires board { IsSeatOf board.now seat.old }
    requires actor { IsLiveActorOf book.now actor.old }
    requires agrees { LiveAgrees book.now actor.old.state (view_of seat.old) }
    requires shelf { H.is_of shelf.old book.now }
    ensures board { IsSeatOf board.now seat.new }
    ensures actor { IsLiveActorOf book.now actor.new }
    ensures agrees { LiveAgrees book.now actor.new.state (view_of seat.new) }
    ensures shelf { H.is_of shelf.new book.now }
{
    live_core_step(board, seat, actor, book, shelf) == wanted
}

// Whether a step of the controller has this answer.
fn posts<'a, H: Shelf<'a>>(
    board: &RoundBoard,
    seat: &mut RoundSeat,
    controller: &mut LiveController,
    book: &'a LiveBook,
    shelf: &mut H,
    wanted: LiveControl,
) -> bool
    requires board { IsSeatOf board.now seat.old }
    requires posted { HasPosted book.now.outline controller.old (view_of seat.old) }
    requires shelf { H.is_of shelf.old book.now }
    ensures board { IsSeatOf board.now seat.new }
    ensures posted { HasPosted book.now.outline controller.new (view_of seat.new) }
    ensures shelf { H.is_of shelf.new book.now }
{
    live_control_step(board, seat, controller, book, shelf) == wanted
}

// That memory ran out for the change.
const NO_MEMORY: LiveAnswer = LiveAnswer::Stopped { change: 0 };

// The controller hasn't posted the event of tick 20,000.
const BEHIND: LiveAnswer = LiveAnswer::Behind {
    who: Actor::Controller,
    tick: 20_000,
};

// The core runs its vCPU in these ticks, with so many events.
fn stint(from: u32, end: u32, count: u32) -> LiveAnswer {
    LiveAnswer::Ran(Stint {
        from,
        end,
        seen: count,
        used: count,
        ran: Some(VcpuNo(0)),
    })
}

// A core runs for the lag at most, and up to the lag beyond the event. There it waits for the controller where its shelf
// knows nothing of the change, and stops where it knows that memory ran out for it.
fn a_core_waits_or_stops(alloc: Global, book: &LiveBook) -> Result<bool, NoMemory>
    requires { length book.now.changes ≡ 1 }
{
    let nothing = listed(alloc, book, None)?;
    let blank = listed(alloc, book, Some(Made::blank(alloc, book, 0)?))?;
    let (board, mut seat, mut actor, _) = start(alloc, book)?;
    let mut empty = ListShelf::of(book, &nothing);
    let mut stopped = ListShelf::of(book, &blank);
    let early = stint(0, 20_000, 0);
    let late = stint(20_000, 40_000, 0);
    let first = steps(&board, &mut seat, &mut actor, book, &mut empty, early);
    let second = steps(&board, &mut seat, &mut actor, book, &mut empty, late);
    let third = steps(&board, &mut seat, &mut actor, book, &mut empty, BEHIND);
    let fourth = steps(&board, &mut seat, &mut actor, book, &mut stopped, NO_MEMORY);
    Ok(first && second && third && fourth)
}

// A change that is posted is needed by the core that enters its round. Where its shelf knows nothing of the change, or
// that memory ran out for it, the core runs nothing; then it finds the plan, in which the vCPU has a quarter of 51,300
// ticks.
fn a_core_needs_what_is_posted(alloc: Global, book: &LiveBook) -> Result<bool, NoMemory>
    requires { length book.now.changes ≡ 1 }
{
    let mut made = Made::blank(alloc, book, 0)?;
    made.fill(alloc);
    let nothing = listed(alloc, book, None)?;
    let blank = listed(alloc, book, Some(Made::blank(alloc, book, 0)?))?;
    let planned = listed(alloc, book, Some(made))?;
    let (board, mut seat, mut actor, mut controller) = start(alloc, book)?;
    let mut empty = ListShelf::of(book, &nothing);
    let mut stopped = ListShelf::of(book, &blank);
    let mut full = ListShelf::of(book, &planned);
    post(&board, &mut seat, &actor, &mut controller, book, &mut full);
    let missed = LiveAnswer::NotMade { change: 0 };
    let quarter = stint(0, 12_825, 1);
    let first = steps(&board, &mut seat, &mut actor, book, &mut empty, missed);
    let second = steps(&board, &mut seat, &mut actor, book, &mut stopped, NO_MEMORY);
    let third = steps(&board, &mut seat, &mut actor, book, &mut full, quarter);
    Ok(first && second && third)
}

// A step of the controller, after which the core agrees with its part as before.
fn post<'a, H: Shelf<'a>>(
    board: &RoundBoard,
    seat: &mut RoundSeat,
    actor: &LiveActor,
    controller: &mut LiveController,
    book: &'a LiveBook,
    shelf: &mut H,
)
    requires board { IsSeatOf board.now seat.old }
    requires agrees { LiveAgrees book.now actor.now.state (view_of seat.old) }
    requires first { actor.now.state.core ≡ 0 }
    requires posted { HasPosted book.now.outline controller.old (view_of seat.old) }
    requires shelf { H.is_of shelf.old book.now }
    ensures board { IsSeatOf board.now seat.new }
    ensures agrees { LiveAgrees book.now actor.now.state (view_of seat.new) }
    ensures shelf { H.is_of shelf.new book.now }
{
    let _ = actor;
    live_control_step(board, seat, controller, book, shelf);
}

// A controller posts no change for which memory ran out.
fn a_controller_stops(alloc: Global, book: &LiveBook) -> Result<bool, NoMemory>
    requires { length book.now.changes ≡ 1 }
{
    let blank = listed(alloc, book, Some(Made::blank(alloc, book, 0)?))?;
    let (board, mut seat, _, mut controller) = start(alloc, book)?;
    let mut shelf = ListShelf::of(book, &blank);
    let wanted = LiveControl::Stopped { change: 0 };
    let stops = posts(&board, &mut seat, &mut controller, book, &mut shelf, wanted);
    Ok(stops && controller.posted() == 0)
}

// A controller whose shelf over the cells misses a change twice posts it once the planner has put its value.
fn a_controller_finds_what_it_missed(alloc: Global, book: &LiveBook) -> Result<bool, NoMemory> {
    let mut planner = LivePlanner::make(alloc, book)?;
    let (board, mut seat, _, mut controller) = start(alloc, book)?;
    let mut own = CellShelf::of(book);
    let mut shelf = CellShelf::of(book);
    let missed = LiveControl::NotMade { change: 0 };
    let posted = LiveControl::Posted { count: 1 };
    let first = posts(&board, &mut seat, &mut controller, book, &mut shelf, missed);
    let second = posts(&board, &mut seat, &mut controller, book, &mut shelf, missed);
    let told = planner_step(alloc, book, &mut planner, &mut own);
    let third = posts(&board, &mut seat, &mut controller, book, &mut shelf, posted);
    Ok(first && second && third && told == PlannerAnswer::Told { change: 0 })
}

#[test]
fn steps_go_by_what_their_shelves_know(rt: HostRuntime) -> Result<(), Fail> {
    let book = book_of(rt.alloc())?;
    assert!(rt; a_core_waits_or_stops(rt.alloc(), &book)?);
    assert!(rt; a_core_needs_what_is_posted(rt.alloc(), &book)?);
    assert!(rt; a_controller_stops(rt.alloc(), &book)?);
    // (it puts the change's value into its cell)
    assert!(rt; a_controller_finds_what_it_missed(rt.alloc(), &book)?);
    Ok(())
}
