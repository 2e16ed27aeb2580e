ghost use Rattle.std.specs.Prelude.{◌≡◌, ◌<◌, ◌≤◌, length, vec_capacity};
ghost use denote.Param.Send.{IsSync};
ghost use Rattle.round_words.specs.Seats.{view_of, IsSeatOf};
ghost use Rattle.crew_turns.specs.Going.{SameActors};
ghost use Rattle.crew_turns.specs.Groups.{AgreeApart, AreFurther};
ghost use Rattle.crew_turns.specs.Troops.{AreHeld, AreSame};

use crate::gate::Gate;
use crate::mask::mask_from;
use crate::patience::Patience;
use crate::phase::Phase;
use crate::player::Player;
use crate::stepper::{CoreStepper, Site, Stepper};
use crate::widths::Widths;
use crate::working::{work_all, work_cores};
use round_words::RoundSeat;
use std::sync::atomic::AtomicBool;
use std::thread::{Threads, available_parallelism, join_mut};
use std::time::{Clock, Duration, Instant};

/// The cores and the controller step side by side for as long as it pays, in phases: by a worker for each core and one thread for the
/// controller, by as many threads as there are processors, by half as many, down to one. All seats meet after each phase.
///
/// A phase ends once a thread has been in it, or has waited, for longer than it allows (`Phase::allows`). Each number of threads is
/// tried for some milliseconds, and then the fastest goes on, for as long as it is the fastest (`Widths`). A phase for which not
/// all threads could be made is the last. `ready` says whether time counts yet. What is left is for the caller to drive. It may
/// wait for the threads that it has started.
pub fn work_beside<
    R: Threads + Clock + Sync,
    C: CoreStepper + Drop + Send,
    L: Stepper + Drop + Send,
    G: Gate,
>(
    rt: &R,
    site: &Site<'_, G>,
    mut seat: RoundSeat,
    mut cores: Vec<Player<C>>,
    mut lead: Player<L>,
    ready: &AtomicBool,
) -> (RoundSeat, Vec<Player<C>>, Player<L>)
    requires board { IsSeatOf site.now.board.now seat }
    requires held { AreHeld C.kind L.kind cores.items lead (view_of seat) }
    ensures board { IsSeatOf site.now.board.now result.0 }
    ensures held { AreHeld C.kind L.kind result.1.items result.2 (view_of result.0) }
    ensures same { AreSame C.kind L.kind cores.items lead result.1.items result.2 }
    ensures actors { SameActors (view_of seat) (view_of result.0) }
    ensures room { vec_capacity result.1 ≡ vec_capacity cores }
{
    let mut widths = Widths::of(cores.len() as u32, processors(rt));
    let mut left = u64::MAX;
    'phases: while left > 0 {
        let (before, begun) = (together(&cores), Instant::now(rt).ok());
        let phase = widths.phase(ready);
        make_phase(rt, site, &phase, &mut seat, &mut cores, &mut lead);
        let ticks = together(&cores).saturating_sub(before);
        let goes_on = widths.go_on(&phase, ticks, since(rt, begun));
        left = if goes_on { left - 1 } else { 0 };
    }
    site.gate.dealt(1, together(&cores));
    (seat, cores, lead)
}

// The threads of a phase go on as far as it allows.
fn make_phase<
    R: Threads + Clock + Sync,
    C: CoreStepper + Drop + Send,
    L: Stepper + Drop + Send,
    G: Gate,
>(
    rt: &R,
    site: &Site<'_, G>,
    phase: &Phase<'_>,
    seat: &mut RoundSeat,
    cores: &mut Vec<Player<C>>,
    lead: &mut Player<L>,
)
    requires board { IsSeatOf site.now.board.now seat.old }
    requires held { AreHeld C.kind L.kind cores.old.items lead.old (view_of seat.old) }
    ensures board { IsSeatOf site.now.board.now seat.new }
    ensures held { AreHeld C.kind L.kind cores.new.items lead.new (view_of seat.new) }
    ensures same { AreSame C.kind L.kind cores.old.items lead.old cores.new.items lead.new }
    ensures actors { SameActors (view_of seat.old) (view_of seat.new) }
    ensures room { vec_capacity cores.new ≡ vec_capacity cores.old }
{
    let (board, lag, gate) = (site.board, site.lag, site.gate);
    let threads = phase.threads();
    gate.dealt(threads, together(cores));
    let site = Site { board, lag, gate };
    spread(&*rt, &site, &*phase, threads, seat, cores, lead);
}

// How far the cores are together, in ticks.
fn together<C: CoreStepper + Drop>(cores: &[Player<C>]) -> u64 {
    let mut ticks = 0u64;
    for player in cores {
        ticks = ticks.saturating_add(u64::from(player.actor.place()));
    }
    ticks
}

// How long it is since then, or nothing where that isn't known.
fn since<K: Clock>(clock: &K, begun: Option<Instant>) -> Duration {
    match begun {
        Some(begun) => begun.elapsed(clock).unwrap_or(Duration::ZERO),
        None => Duration::ZERO,
    }
}

// How many processors there are, or 1 where that isn't known.
fn processors<R: Threads>(rt: &R) -> u32 {
    match available_parallelism(rt) {
        Ok(count) => u32::try_from(count.get()).unwrap_or(u32::MAX),
        Err(_) => 1,
    }
}

// So many threads step the cores, each its group of neighbours. The thread of the call has the lowest numbers, and the controller.
fn spread<
    'x,
    R: Threads + Clock + Sync,
    C: CoreStepper + Drop + Send,
    L: Stepper + Drop + Send,
    G: Gate,
>(
    rt: &'x R,
    site: &'x Site<'x, G>,
    phase: &'x Phase<'x>,
    threads: u32,
    seat: &mut RoundSeat,
    cores: &mut [Player<C>],
    lead: &mut Player<L>,
)
    requires board { IsSeatOf site.now.board.now seat.old }
    requires held { AreHeld C.kind L.kind cores.old lead.old (view_of seat.old) }
    ensures board { IsSeatOf site.now.board.now seat.new }
    ensures held { AreHeld C.kind L.kind cores.new lead.new (view_of seat.new) }
    ensures same { AreSame C.kind L.kind cores.old lead.old cores.new lead.new }
    ensures actors { SameActors (view_of seat.old) (view_of seat.new) }
{
    if threads <= 1 || cores.is_empty() {
        let patience = Patience::of(rt, phase);
        work_all(site, patience, seat, cores, lead);
        return;
    }
    let count = cores.len();
    let size = count.div_ceil(threads as usize);
    let first = count - size;
    let (rest, group) = cores.split_at_mut(first);
    let mut own = site.board.part(seat, mask_from(first as u32, size as u32));
    join_mut(
        rt,
        &mut ||
            requires { IsSync R.row × IsSync G.row × IsSeatOf site.now.board.now own × (length group.now ≤ 32)
                × AgreeApart C.kind group.now (view_of own) }
            ensures { IsSeatOf site.entry.now.board.now own.exit × AgreeApart C.kind group.exit.now (view_of own.exit)
                × AreFurther C.kind group.entry.now group.exit.now × SameActors (view_of own.entry) (view_of own.exit) }
        { work_cores(site, Patience::of(rt, phase), &mut own, group) },
        &mut ||
            requires { IsSync R.row × IsSync G.row × IsSeatOf site.now.board.now seat.now
                × AreHeld C.kind L.kind rest.now lead.now (view_of seat.now) × (1 < threads) }
            ensures { IsSeatOf site.entry.now.board.now seat.exit.now
                × AreHeld C.kind L.kind rest.exit.now lead.exit.now (view_of seat.exit.now)
                × AreSame C.kind L.kind rest.entry.now lead.entry.now rest.exit.now lead.exit.now
                × SameActors (view_of seat.entry.now) (view_of seat.exit.now) }
        { spread(rt, site, phase, threads - 1, seat, rest, lead) },
    );
    site.board.meet(seat, own);
}
