ghost use Rattle.std.specs.Prelude.{◌≡◌, ◌<◌, ◌≤◌};
ghost use Rattle.round_words.specs.declared.view.View.{View as ViewValue};
ghost use Rattle.round_words.specs.Changes.{ChangesOnly};
ghost use Rattle.round_words.specs.Seats.{view_of, IsSeatOf};
ghost use Rattle.crew_turns.specs.declared.clocks.TheConstants.{OUT as THE_OUT};
ghost use Rattle.crew_turns.specs.Going.{PartsGoOn};
ghost use Rattle.crew_turns.specs.Kinds.{IsLawful, Kind, Stepped};

use crate::gate::{Gate, Pass};
use round_words::{RoundBoard, RoundSeat};

/// What came of an actor's step.
#[derive(Clone, Copy, PartialEq, Eq)]
pub enum Turn {
    /// It got on.
    Moved,
    /// It waits for another actor.
    Waits,
    /// It waits for what won't come in this run.
    Stopped,
    /// It has done all.
    Ended,
}

/// An actor that steps by a seat.
pub trait Stepper {
    /// What is said of it.
    ghost kind: { Kind Self };

    /// By these laws steps of others leave it in peace, and what it waits for.
    ghost lawful: { IsLawful kind };

    /// Its number: its core's, or 32 for the controller.
    fn number(&self) -> u32
        ensures { result ≡ kind.number self.now };

    /// How far it is: a core's clock, in ticks, or how many events the controller has posted.
    fn place(&self) -> u32
        ensures { result ≡ kind.place self.now };

    /// One step.
    fn step(&mut self, board: &RoundBoard, seat: &mut RoundSeat) -> Turn
        requires board { IsSeatOf board.now seat.old }
        requires agrees { kind.agrees self.old (view_of seat.old) }
        ensures board { IsSeatOf board.now seat.new }
        ensures agrees { kind.agrees self.new (view_of seat.new) }
        ensures same { kind.same self.old self.new }
        ensures changes { ChangesOnly (view_of seat.old) (view_of seat.new) (kind.number self.old) }
        ensures parts { PartsGoOn (view_of seat.old) (view_of seat.new) }
        ensures told { Stepped kind self.old (view_of seat.old) result self.new (view_of seat.new) };

    /// Further steps, after one in which it got on. Each is to begin at this place at most, and after a pass as `step` does; no
    /// clause asks for either. None is owed, and none is made unless an actor says otherwise.
    #[inline(always)]
    fn run_on<P: Pass>(
        &mut self,
        board: &RoundBoard,
        seat: &mut RoundSeat,
        passing: &mut P,
        limit: u32,
    )
        requires board { IsSeatOf board.now seat.old }
        requires agrees { kind.agrees self.old (view_of seat.old) }
        ensures board { IsSeatOf board.now seat.new }
        ensures agrees { kind.agrees self.new (view_of seat.new) }
        ensures same { kind.same self.old self.new }
        ensures changes { ChangesOnly (view_of seat.old) (view_of seat.new) (kind.number self.old) }
        ensures parts { PartsGoOn (view_of seat.old) (view_of seat.new) }
        ensures place { kind.place self.old ≤ kind.place self.new }
    {
        let _ = limit;
    }
}

/// A core that steps by a seat: its place is its clock.
pub trait CoreStepper: Stepper {
    /// No run is as long as `OUT` ticks.
    ghost is_short: { (a : Self) (v : ViewValue) → Self.Stepper.kind.agrees a v → Self.Stepper.kind.end a < THE_OUT };
}

/// What the actors of a run share: the board, the lag in ticks, and the gate.
#[derive(Drop)]
pub struct Site<'a, G: Gate> {
    pub board: &'a RoundBoard,
    pub lag: u32,
    pub gate: &'a G,
}
