ghost use Rattle.std.specs.Prelude.{◌<◌, ◌≤◌, length, slice_index};
ghost use Rattle.round_words.specs.Seats.{view_of};
ghost use Rattle.crew_turns.specs.Inside.Clocks.{AreTicks};
ghost use Rattle.crew_turns.specs.Inside.Turns.{CoresAgree};
ghost use Rattle.crew_turns.specs.Numbers.{IsFirst, IsLeastBut, IsLeastOfFirst};

use crate::player::Player;
use crate::stepper::CoreStepper;
use round_words::RoundSeat;

/// The clock of a core that isn't to go on.
pub const OUT: u32 = u32::MAX;

// By number the clocks of those cores whose parts the seat holds, and OUT for each other.
pub(crate) fn read_clocks<C: CoreStepper + Drop>(seat: &RoundSeat, cores: &[Player<C>]) -> [u32; 32]
    requires few { length cores.now ≤ 32 }
    requires agree { CoresAgree C.kind cores.now (view_of seat.now) }
    ensures { AreTicks C.kind cores.now (view_of seat.now) result }
{
    let mut ticks = [OUT; 32];
    for core in 0..cores.len() {
        ticks[core] = if seat.holds(core as u32) {
            cores[core].actor.place()
        } else {
            OUT
        };
    }
    ticks
}

/// A core of least clock, and the least clock of the others, or OUT where none of them is to go on.
#[derive(Clone, Copy)]
pub struct Least {
    pub core: u32,
    pub next: u32,
}

/// Of the first so many cores, the first of those of least clock.
pub fn find_least(ticks: &[u32; 32], cores: u32) -> Least
    requires { (1 ≤ cores) × (cores ≤ 32) }
    ensures within { result.core < cores }
    ensures least { IsLeastOfFirst ticks.now result.core cores }
    ensures first { IsFirst ticks.now result.core }
    ensures next { slice_index ticks.now result.core ≤ result.next }
    ensures others { IsLeastBut ticks.now result.core cores result.next }
{
    let mut least = Least { core: 0, next: OUT };
    let mut low = ticks[0];
    for core in 1..cores {
        let tick = ticks[core as usize];
        if tick < low {
            least = Least { core, next: low };
            low = tick;
        } else if tick < least.next {
            least.next = tick;
        }
    }
    least
}
