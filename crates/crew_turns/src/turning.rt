ghost use Rattle.std.specs.Prelude.{◌≡◌, ◌≢◌, ◌<◌, ◌≤◌, length, slice_index};
ghost use Rattle.round_words.specs.Seats.{view_of, IsSeatOf};
ghost use Rattle.crew_turns.specs.declared.clocks.TheConstants.{OUT as THE_OUT};
ghost use Rattle.crew_turns.specs.Going.{PartsGoOn, SameActors};
ghost use Rattle.crew_turns.specs.Inside.Clocks.{AreTicks, IsPosting};
ghost use Rattle.crew_turns.specs.Inside.Turns.{AreCores, CoresAgree, CoresGoOn, CoresTold, GuessTold, RunTold, TurnTold, left_to_do, or_stops, or_waits};
ghost use Rattle.crew_turns.specs.Troops.{AreAgreed, AreSame};

use crate::clocks::{OUT, find_least};
use crate::gate::Gate;
use crate::guess::Guess;
use crate::player::{Player, step_player};
use crate::running::run_player;
use crate::stepper::{CoreStepper, Site, Stepper, Turn};
use round_words::RoundSeat;

/// What became of a turn.
#[derive(Clone, Copy, PartialEq, Eq)]
pub(crate) enum Progress {
    /// Somebody got on.
    Moved,
    /// Nobody got on, and somebody waits.
    Waits,
    /// Nobody got on, and somebody waits for what won't come in this run.
    Stopped,
    /// There is nothing left to do.
    Done,
}

/// What turns go by: by number the clocks of those cores that are to go on, and OUT for each other; whether the controller is to
/// go on; a guess which core has the least clock; and how many turns were made since the controller's last step.
#[derive(Drop)]
pub(crate) struct Roster {
    pub(crate) ticks: [u32; 32],
    pub(crate) posting: bool,
    pub(crate) guess: Guess,
    pub(crate) turns: u32,
}

// A core runs on: the one that is guessed to be least, or else one of least clock. The controller makes a step where
// none got on, and where as many turns were made as there are cores.
#[inline(always)]
pub(crate) fn turn<C: CoreStepper + Drop, L: Stepper + Drop, G: Gate>(
    site: &Site<'_, G>,
    seat: &mut RoundSeat,
    cores: &mut [Player<C>],
    lead: &mut Player<L>,
    roster: &mut Roster,
) -> Progress
    requires board { IsSeatOf site.now.board.now seat.old }
    requires agreed { AreAgreed C.kind L.kind cores.old lead.old (view_of seat.old) }
    requires ticks { AreTicks C.kind cores.old (view_of seat.old) roster.old.ticks }
    requires posting { IsPosting L.kind lead.old (view_of seat.old) roster.old.posting }
    ensures board { IsSeatOf site.now.board.now seat.new }
    ensures agreed { AreAgreed C.kind L.kind cores.new lead.new (view_of seat.new) }
    ensures ticks { AreTicks C.kind cores.new (view_of seat.new) roster.new.ticks }
    ensures posting { IsPosting L.kind lead.new (view_of seat.new) roster.new.posting }
    ensures same { AreSame C.kind L.kind cores.old lead.old cores.new lead.new }
    ensures actors { SameActors (view_of seat.old) (view_of seat.new) }
    ensures parts { PartsGoOn (view_of seat.old) (view_of seat.new) }
    ensures told { TurnTold C.kind L.kind (left_to_do L.kind roster.old.ticks lead.old roster.old.posting) (view_of seat.old) result
        cores.new lead.new (left_to_do L.kind roster.new.ticks lead.new roster.new.posting) (view_of seat.new) }
{
    let progress = turn_cores(site, seat, cores, roster);
    if !roster.posting {
        return progress;
    }
    roster.turns = roster.turns.saturating_add(1);
    if progress == Progress::Moved && (roster.turns as usize) < cores.len() {
        return Progress::Moved;
    }
    roster.turns = 0;
    match step_player(site, seat, lead, 0) {
        Turn::Moved => Progress::Moved,
        Turn::Waits => or_waits(progress),
        Turn::Stopped => or_stops(progress),
        Turn::Ended => {
            roster.posting = false;
            Progress::Moved
        }
    }
}

// What a turn is in which the controller waits.
pub(crate) fn or_waits(cores: Progress) -> Progress
    ensures { result ≡ or_waits cores }
{
    match cores {
        Progress::Moved => Progress::Moved,
        Progress::Stopped => Progress::Stopped,
        Progress::Waits | Progress::Done => Progress::Waits,
    }
}

// What a turn is in which the controller waits for what won't come.
pub(crate) fn or_stops(cores: Progress) -> Progress
    ensures { result ≡ or_stops cores }
{
    match cores {
        Progress::Moved => Progress::Moved,
        Progress::Stopped | Progress::Waits | Progress::Done => Progress::Stopped,
    }
}

// The core that is guessed runs on, or else one of least clock.
#[inline(always)]
fn turn_cores<C: CoreStepper + Drop, G: Gate>(
    site: &Site<'_, G>,
    seat: &mut RoundSeat,
    cores: &mut [Player<C>],
    roster: &mut Roster,
) -> Progress
    requires board { IsSeatOf site.now.board.now seat.old }
    requires cores { AreCores C.kind cores.old }
    requires agree { CoresAgree C.kind cores.old (view_of seat.old) }
    requires ticks { AreTicks C.kind cores.old (view_of seat.old) roster.old.ticks }
    ensures board { IsSeatOf site.now.board.now seat.new }
    ensures cores { AreCores C.kind cores.new }
    ensures ticks { AreTicks C.kind cores.new (view_of seat.new) roster.new.ticks }
    ensures posting { roster.new.posting ≡ roster.old.posting }
    ensures goes { CoresGoOn C.kind cores.old (view_of seat.old) cores.new (view_of seat.new) }
    ensures told { CoresTold C.kind roster.old.ticks (view_of seat.old) result cores.new roster.new.ticks (view_of seat.new) }
{
    if turn_guessed(site, seat, cores, roster) {
        return Progress::Moved;
    }
    turn_least(site, seat, cores, roster)
}

// The core that is guessed runs on. The answer is whether it got on.
#[inline(always)]
fn turn_guessed<C: CoreStepper + Drop, G: Gate>(
    site: &Site<'_, G>,
    seat: &mut RoundSeat,
    cores: &mut [Player<C>],
    roster: &mut Roster,
) -> bool
    requires board { IsSeatOf site.now.board.now seat.old }
    requires cores { AreCores C.kind cores.old }
    requires agree { CoresAgree C.kind cores.old (view_of seat.old) }
    requires ticks { AreTicks C.kind cores.old (view_of seat.old) roster.old.ticks }
    ensures board { IsSeatOf site.now.board.now seat.new }
    ensures cores { AreCores C.kind cores.new }
    ensures ticks { AreTicks C.kind cores.new (view_of seat.new) roster.new.ticks }
    ensures posting { roster.new.posting ≡ roster.old.posting }
    ensures goes { CoresGoOn C.kind cores.old (view_of seat.old) cores.new (view_of seat.new) }
    ensures told { GuessTold roster.old.ticks result roster.new.ticks }
{
    let core = roster.guess.core();
    if core as usize >= cores.len() {
        return false;
    }
    let clock = roster.ticks[core as usize];
    if clock == OUT {
        return false;
    }
    let limit = roster.guess.limit(clock);
    run_core(site, seat, cores, roster, core, limit) == Progress::Moved
}

// A core of least clock runs on until it is stuck, or too far ahead of the others.
#[inline(never)]
fn turn_least<C: CoreStepper + Drop, G: Gate>(
    site: &Site<'_, G>,
    seat: &mut RoundSeat,
    cores: &mut [Player<C>],
    roster: &mut Roster,
) -> Progress
    requires board { IsSeatOf site.now.board.now seat.old }
    requires cores { AreCores C.kind cores.old }
    requires agree { CoresAgree C.kind cores.old (view_of seat.old) }
    requires ticks { AreTicks C.kind cores.old (view_of seat.old) roster.old.ticks }
    ensures board { IsSeatOf site.now.board.now seat.new }
    ensures cores { AreCores C.kind cores.new }
    ensures ticks { AreTicks C.kind cores.new (view_of seat.new) roster.new.ticks }
    ensures posting { roster.new.posting ≡ roster.old.posting }
    ensures goes { CoresGoOn C.kind cores.old (view_of seat.old) cores.new (view_of seat.new) }
    ensures told { CoresTold C.kind roster.old.ticks (view_of seat.old) result cores.new roster.new.ticks (view_of seat.new) }
{
    if cores.is_empty() {
        return Progress::Done;
    }
    let least = find_least(&roster.ticks, cores.len() as u32);
    let clock = roster.ticks[least.core as usize];
    if clock == OUT {
        return Progress::Done;
    }
    let limit = least
        .next
        .min(clock.saturating_add(site.lag))
        .saturating_add(site.lag);
    run_core(site, seat, cores, roster, least.core, limit)
}

// The core, which is to go on, does so up to the limit.
#[inline(always)]
fn run_core<C: CoreStepper + Drop, G: Gate>(
    site: &Site<'_, G>,
    seat: &mut RoundSeat,
    cores: &mut [Player<C>],
    roster: &mut Roster,
    core: u32,
    limit: u32,
) -> Progress
    requires board { IsSeatOf site.now.board.now seat.old }
    requires cores { AreCores C.kind cores.old }
    requires agree { CoresAgree C.kind cores.old (view_of seat.old) }
    requires ticks { AreTicks C.kind cores.old (view_of seat.old) roster.old.ticks }
    requires core { core < length cores.old }
    requires on { slice_index roster.old.ticks core ≢ THE_OUT }
    requires limit { slice_index roster.old.ticks core ≤ limit }
    ensures board { IsSeatOf site.now.board.now seat.new }
    ensures cores { AreCores C.kind cores.new }
    ensures ticks { AreTicks C.kind cores.new (view_of seat.new) roster.new.ticks }
    ensures posting { roster.new.posting ≡ roster.old.posting }
    ensures goes { CoresGoOn C.kind cores.old (view_of seat.old) cores.new (view_of seat.new) }
    ensures told { RunTold C.kind core roster.old.ticks (view_of seat.old) result cores.new roster.new.ticks (view_of seat.new) }
{
    let player = &mut cores[core as usize];
    let reached = run_player(site, seat, player, limit);
    if reached.clock == roster.ticks[core as usize] {
        return match reached.turn {
            Turn::Waits => Progress::Waits,
            Turn::Moved | Turn::Stopped | Turn::Ended => Progress::Stopped,
        };
    }
    roster.ticks[core as usize] = reached.clock;
    roster
        .guess
        .note(core, reached.clock, reached.turn != Turn::Moved);
    Progress::Moved
}
