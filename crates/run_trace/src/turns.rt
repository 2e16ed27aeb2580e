ghost use Rattle.std.specs.Prelude.{◌≡◌, ◌++◌, IfOk, OnOk};
ghost use Rattle.run_trace.specs.RunTraces.{AreTurnsOf, turn_place, turns_between, turns_of};

use crate::turn::Turn;
use std::alloc::Global;
use tab_core::{NoMemory, VcpuNo};
use view_doc::{Stretch, Use};

/// Where the vCPUs of stints begin to run and where they stop, in the order of time: of one tick, those that stop come
/// first.
pub fn turns_in(alloc: Global, stints: &[Stretch]) -> Result<Vec<Turn>, NoMemory>
    ensures { IfOk result (λ turns. AreTurnsOf stints.now turns.items) }
{
    let mut turns = Vec::new(alloc);
    for stint in stints {
        put_turns(&mut turns, stint)?;
    }
    turns.sort_by_key(|turn| place_of(turn))?;
    Ok(turns)
}

// Where a turn is among the others.
fn place_of(turn: &Turn) -> u64
    ensures { result ≡ turn_place turn.now }
{
    let double = u64::from(turn.tick) * 2;
    if turn.begins { double + 1 } else { double }
}

// Puts the turns of a stint to the others.
fn put_turns(turns: &mut Vec<Turn>, stint: &Stretch) -> Result<(), NoMemory>
    ensures { OnOk result (turns.new.items ≡ turns.old.items ++ turns_of stint.now) }
{
    match stint.by {
        Use::Idle => Ok(()),
        Use::Slot(vcpu) | Use::Shared(vcpu) => put_both(turns, stint, vcpu),
    }
}

// Puts the turns of a vCPU that runs from a stint's begin to its end.
fn put_both(turns: &mut Vec<Turn>, stint: &Stretch, vcpu: VcpuNo) -> Result<(), NoMemory>
    ensures { OnOk result (turns.new.items ≡ turns.old.items ++ turns_between stint.now vcpu) }
{
    turns.push(Turn {
        tick: stint.from,
        vcpu,
        core: stint.core,
        begins: true,
    })?;
    turns.push(Turn {
        tick: stint.end,
        vcpu,
        core: stint.core,
        begins: false,
    })?;
    Ok(())
}
