ghost use Rattle.std.specs.Prelude.{◌≡◌};
ghost use Rattle.round_words.specs.Seats.{view_of, IsSeatOf};
ghost use Rattle.crew_turns.specs.Going.{PartsGoOn, SameActors};
ghost use Rattle.crew_turns.specs.Troops.{AllHaveEnded, AreAgreed, AreAtRest, AreSame};
ghost use Rattle.crew_turns.specs.declared.driving.Rest.TheVariants.{Ended as HasEnded};

use crate::clocks::read_clocks;
use crate::gate::Gate;
use crate::guess::Guess;
use crate::patience::PATIENCE;
use crate::player::Player;
use crate::stepper::{CoreStepper, Site, Stepper};
use crate::turning::{Progress, Roster, turn};
use crossbeam_utils::Backoff;
use round_words::RoundSeat;

// the controller's number as an actor
const CONTROLLER: u32 = 32;

/// What leaves the actors at rest that were driven.
#[derive(Clone, Copy, PartialEq, Eq)]
pub enum Rest {
    /// All of them have ended.
    Ended,
    /// None got on in `PATIENCE` turns in a row.
    Waits,
    /// None gets on, and one of them waits for what won't come in this run.
    Stopped,
}

/// Turns of those actors whose parts the seat holds, until all of them have ended, or none of them got on in `PATIENCE` turns in
/// a row, or none gets on since one waits for what won't come.
///
/// Each actor whose part is held agrees with it, which it does again afterwards. At the end these actors are at rest.
pub fn drive_all<C: CoreStepper + Drop, L: Stepper + Drop, G: Gate>(
    site: &Site<'_, G>,
    seat: &mut RoundSeat,
    cores: &mut [Player<C>],
    lead: &mut Player<L>,
) -> Rest
    requires board { IsSeatOf site.now.board.now seat.old }
    requires agreed { AreAgreed C.kind L.kind cores.old lead.old (view_of seat.old) }
    ensures board { IsSeatOf site.now.board.now seat.new }
    ensures agreed { AreAgreed C.kind L.kind cores.new lead.new (view_of seat.new) }
    ensures same { AreSame C.kind L.kind cores.old lead.old cores.new lead.new }
    ensures actors { SameActors (view_of seat.old) (view_of seat.new) }
    ensures parts { PartsGoOn (view_of seat.old) (view_of seat.new) }
    ensures rests { AreAtRest C.kind L.kind cores.new lead.new (view_of seat.old) (view_of seat.new) }
    ensures ended { result ≡ HasEnded → AllHaveEnded C.kind L.kind cores.new lead.new (view_of seat.new) }
{
    let ticks = read_clocks(seat, cores);
    let guess = Guess::of(&ticks, cores.len() as u32, site.lag);
    let mut roster = Roster {
        ticks,
        posting: seat.holds(CONTROLLER),
        guess,
        turns: 0,
    };
    let backoff = Backoff::new();
    let mut left = PATIENCE;
    'driving: while left > 0 {
        match turn(site, seat, cores, lead, &mut roster) {
            Progress::Moved => {
                left = PATIENCE;
                backoff.reset();
            }
            Progress::Waits => {
                left -= 1;
                backoff.snooze();
            }
            Progress::Stopped => return Rest::Stopped,
            Progress::Done => return Rest::Ended,
        }
    }
    Rest::Waits
}
