ghost use Rattle.std.specs.Prelude.{◌≡◌, ◌≤◌};
ghost use Rattle.round_words.specs.Changes.{ChangesOnly};
ghost use Rattle.round_words.specs.Seats.{view_of, IsSeatOf};
ghost use Rattle.crew_turns.specs.Going.{PartsGoOn};
ghost use Rattle.crew_turns.specs.Inside.Turns.{RunsOn};

use crate::clocks::OUT;
use crate::gate::Gate;
use crate::player::{Player, step_player};
use crate::stepper::{CoreStepper, Site, Turn};
use round_words::RoundSeat;

/// Where a core is after it ran on: its clock, or OUT if it has ended, and what came of its last step.
#[derive(Clone, Copy)]
pub(crate) struct Reached {
    pub(crate) clock: u32,
    pub(crate) turn: Turn,
}

// Steps of the core while it gets on and its clock is at most the limit.
#[inline(always)]
pub(crate) fn run_player<C: CoreStepper + Drop, G: Gate>(
    site: &Site<'_, G>,
    seat: &mut RoundSeat,
    player: &mut Player<C>,
    limit: u32,
) -> Reached
    requires board { IsSeatOf site.now.board.now seat.old }
    requires agrees { C.kind.agrees player.old.actor (view_of seat.old) }
    requires limit { C.kind.place player.old.actor ≤ limit }
    ensures board { IsSeatOf site.now.board.now seat.new }
    ensures agrees { C.kind.agrees player.new.actor (view_of seat.new) }
    ensures same { C.kind.same player.old.actor player.new.actor }
    ensures changes { ChangesOnly (view_of seat.old) (view_of seat.new) (C.kind.number player.old.actor) }
    ensures parts { PartsGoOn (view_of seat.old) (view_of seat.new) }
    ensures runs { RunsOn C.kind player.old.actor (view_of seat.old) result.clock player.new.actor (view_of seat.new) }
{
    let mut clock = player.actor.place();
    'running: while clock <= limit {
        let turn = step_player(site, seat, player, limit);
        match turn {
            Turn::Moved => clock = player.actor.place(),
            Turn::Waits | Turn::Stopped => return Reached { clock, turn },
            Turn::Ended => return Reached { clock: OUT, turn },
        }
    }
    Reached {
        clock,
        turn: Turn::Moved,
    }
}
