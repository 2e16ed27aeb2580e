ghost use Rattle.std.specs.Prelude.{◌<◌, ◌≤◌, length};
ghost use Rattle.round_words.specs.Seats.{view_of, IsSeatOf};
ghost use Rattle.crew_turns.specs.Going.{SameActors};
ghost use Rattle.crew_turns.specs.Groups.{AgreeApart, AreFurther, ChangesAmong};
ghost use Rattle.crew_turns.specs.Troops.{AreHeld, AreSame};

use crate::clocks::{OUT, find_least};
use crate::gate::Gate;
use crate::patience::Patience;
use crate::player::{Player, step_player};
use crate::running::{Reached, run_player};
use crate::stepper::{CoreStepper, Site, Stepper, Turn};
use crate::turning::{Progress, or_stops, or_waits};
use round_words::RoundSeat;
use std::time::Clock;

// What a thread's turns go by: by place in its group the clocks of the cores that are to go on, and OUT for each other; whether
// its controller is to go on; and how many turns were made since the controller's last step.
#[derive(Drop)]
struct Shift {
    ticks: [u32; 32],
    posting: bool,
    turns: u32,
}

impl Shift {
    // That of a thread with these cores that begins.
    fn of<C: CoreStepper + Drop>(cores: &[Player<C>]) -> Shift
        requires { length cores.now ≤ 32 }
    {
        let mut ticks = [OUT; 32];
        for place in 0..cores.len() {
            ticks[place] = cores[place].actor.place();
        }
        Shift {
            ticks,
            posting: true,
            turns: 0,
        }
    }
}

// A thread's turns over a group of cores: until all of them have ended, one waits for what won't come, or the patience is over.
pub(crate) fn work_cores<K: Clock, C: CoreStepper + Drop, G: Gate>(
    site: &Site<'_, G>,
    mut patience: Patience<'_, K>,
    seat: &mut RoundSeat,
    cores: &mut [Player<C>],
)
    requires board { IsSeatOf site.now.board.now seat.old }
    requires few { length cores.old ≤ 32 }
    requires agree { AgreeApart C.kind cores.old (view_of seat.old) }
    ensures board { IsSeatOf site.now.board.now seat.new }
    ensures agree { AgreeApart C.kind cores.new (view_of seat.new) }
    ensures further { AreFurther C.kind cores.old cores.new }
    ensures actors { SameActors (view_of seat.old) (view_of seat.new) }
{
    let mut shift = Shift::of(cores);
    for _ in 0..u64::MAX {
        let progress = turn_core(site, seat, &mut shift, cores);
        if !patience.goes_on(progress) {
            return;
        }
    }
}

// A thread's turns over the cores of the lowest numbers and the controller, in the same way.
pub(crate) fn work_all<K: Clock, C: CoreStepper + Drop, L: Stepper + Drop, G: Gate>(
    site: &Site<'_, G>,
    mut patience: Patience<'_, K>,
    seat: &mut RoundSeat,
    cores: &mut [Player<C>],
    lead: &mut Player<L>,
)
    requires board { IsSeatOf site.now.board.now seat.old }
    requires held { AreHeld C.kind L.kind cores.old lead.old (view_of seat.old) }
    ensures board { IsSeatOf site.now.board.now seat.new }
    ensures held { AreHeld C.kind L.kind cores.new lead.new (view_of seat.new) }
    ensures same { AreSame C.kind L.kind cores.old lead.old cores.new lead.new }
    ensures actors { SameActors (view_of seat.old) (view_of seat.new) }
{
    let mut shift = Shift::of(cores);
    for _ in 0..u64::MAX {
        let progress = turn_all(site, seat, &mut shift, cores, lead);
        if !patience.goes_on(progress) {
            return;
        }
    }
}

// A core of least clock runs on until it is stuck, or half a lag ahead of the group's others.
fn turn_core<C: CoreStepper + Drop, G: Gate>(
    site: &Site<'_, G>,
    seat: &mut RoundSeat,
    shift: &mut Shift,
    cores: &mut [Player<C>],
) -> Progress
    requires board { IsSeatOf site.now.board.now seat.old }
    requires few { length cores.old ≤ 32 }
    requires agree { AgreeApart C.kind cores.old (view_of seat.old) }
    ensures board { IsSeatOf site.now.board.now seat.new }
    ensures agree { AgreeApart C.kind cores.new (view_of seat.new) }
    ensures further { AreFurther C.kind cores.old cores.new }
    ensures changes { ChangesAmong C.kind cores.old (view_of seat.old) (view_of seat.new) }
{
    if cores.is_empty() {
        return Progress::Done;
    }
    let least = find_least(&shift.ticks, cores.len() as u32);
    let place = least.core as usize;
    let tick = shift.ticks[place];
    if tick == OUT {
        return Progress::Done;
    }
    let limit = if least.next == OUT {
        OUT
    } else {
        least.next.saturating_add(site.lag / 2)
    };
    let reached = run_at(site, seat, cores, place, limit);
    if reached.clock == tick {
        return match reached.turn {
            Turn::Waits => Progress::Waits,
            Turn::Moved | Turn::Stopped | Turn::Ended => Progress::Stopped,
        };
    }
    shift.ticks[place] = reached.clock;
    Progress::Moved
}

// A core of least clock runs on. The controller makes a step where it didn't get on, and where as many turns were made as there
// are cores.
fn turn_all<C: CoreStepper + Drop, L: Stepper + Drop, G: Gate>(
    site: &Site<'_, G>,
    seat: &mut RoundSeat,
    shift: &mut Shift,
    cores: &mut [Player<C>],
    lead: &mut Player<L>,
) -> Progress
    requires board { IsSeatOf site.now.board.now seat.old }
    requires held { AreHeld C.kind L.kind cores.old lead.old (view_of seat.old) }
    ensures board { IsSeatOf site.now.board.now seat.new }
    ensures held { AreHeld C.kind L.kind cores.new lead.new (view_of seat.new) }
    ensures same { AreSame C.kind L.kind cores.old lead.old cores.new lead.new }
    ensures actors { SameActors (view_of seat.old) (view_of seat.new) }
{
    let progress = turn_core(site, seat, shift, cores);
    if !shift.posting {
        return progress;
    }
    shift.turns = shift.turns.saturating_add(1);
    if progress == Progress::Moved && (shift.turns as usize) < cores.len() {
        return Progress::Moved;
    }
    shift.turns = 0;
    match step_player(site, seat, lead, 0) {
        Turn::Moved => Progress::Moved,
        Turn::Waits => or_waits(progress),
        Turn::Stopped => or_stops(progress),
        Turn::Ended => {
            shift.posting = false;
            Progress::Moved
        }
    }
}

// The core at this place runs on, as far as the limit.
fn run_at<C: CoreStepper + Drop, G: Gate>(
    site: &Site<'_, G>,
    seat: &mut RoundSeat,
    players: &mut [Player<C>],
    place: usize,
    limit: u32,
) -> Reached
    requires board { IsSeatOf site.now.board.now seat.old }
    requires agree { AgreeApart C.kind players.old (view_of seat.old) }
    requires place { place < length players.old }
    ensures board { IsSeatOf site.now.board.now seat.new }
    ensures agree { AgreeApart C.kind players.new (view_of seat.new) }
    ensures further { AreFurther C.kind players.old players.new }
    ensures changes { ChangesAmong C.kind players.old (view_of seat.old) (view_of seat.new) }
{
    let player = &mut players[place];
    let limit = limit.max(player.actor.place());
    run_player(site, seat, player, limit)
}
