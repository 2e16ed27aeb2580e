ghost use Rattle.std.specs.Prelude.{◌≡◌};
ghost use Rattle.round_words.specs.Changes.{ChangesOnly};
ghost use Rattle.round_words.specs.Seats.{view_of, IsSeatOf};
ghost use Rattle.crew_turns.specs.Going.{PartsGoOn};
ghost use Rattle.crew_turns.specs.Kinds.{Stepped};

use crate::gate::{Gate, Pass, Passage};
use crate::stepper::{Site, Stepper, Turn};
use round_words::RoundSeat;

/// An actor, and how many steps it has made.
#[derive(Drop)]
pub struct Player<A: Drop> {
    pub actor: A,
    pub(crate) steps: u64,
}

impl<A: Drop> Player<A> {
    /// The actor that has made no step.
    pub fn of(actor: A) -> Player<A>
        ensures { result.actor ≡ actor }
    {
        Player { actor, steps: 0 }
    }
}

// A step of the player, before which it passes the gate, and further ones of its own while it is at the limit at most.
#[inline(always)]
pub(crate) fn step_player<A: Stepper + Drop, G: Gate>(
    site: &Site<'_, G>,
    seat: &mut RoundSeat,
    player: &mut Player<A>,
    limit: u32,
) -> Turn
    requires board { IsSeatOf site.now.board.now seat.old }
    requires agrees { A.kind.agrees player.old.actor (view_of seat.old) }
    ensures board { IsSeatOf site.now.board.now seat.new }
    ensures agrees { A.kind.agrees player.new.actor (view_of seat.new) }
    ensures same { A.kind.same player.old.actor player.new.actor }
    ensures changes { ChangesOnly (view_of seat.old) (view_of seat.new) (A.kind.number player.old.actor) }
    ensures parts { PartsGoOn (view_of seat.old) (view_of seat.new) }
    ensures told { Stepped A.kind player.old.actor (view_of seat.old) result player.new.actor (view_of seat.new) }
{
    let mut passage = Passage {
        gate: site.gate,
        actor: player.actor.number(),
        steps: player.steps,
    };
    passage.pass(player.actor.place());
    let turn = player.actor.step(site.board, seat);
    if turn == Turn::Moved {
        player.actor.run_on(site.board, seat, &mut passage, limit);
    }
    player.steps = passage.steps;
    turn
}
