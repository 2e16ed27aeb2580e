ghost use Rattle.std.specs.Prelude.{◌≡◌, ◌+◌, ◌<◌, ◌≤◌, ◌++◌, ℕ, IfOk, Some, length, slice_get, vec_capacity};
ghost use Rattle.run_limit.specs.StintBounds.{stints_in};
ghost use Rattle.table_form.specs.Running.State.{State as StateValue};
ghost use Rattle.burst_bound.specs.Inside.Runs.{AreInPlace, AreRanBefore, AreRuns, TellRuns, pieces_of};
ghost use Rattle.burst_bound.specs.declared.ran.RanPiece.{RanPiece as RanPieceValue};
ghost use Rattle.table_form.specs.Promises.Capped.{ticks_run};
ghost use Rattle.burst_bound.specs.KeptRuns.{IsKeptRun};
ghost use Rattle.tab_core.specs.declared.TheConstants.{MAX_ROUNDS};

use crate::ran::{RanPiece, place_of};
use core_workers::Crew;
use std::alloc::Global;
use tab_core::{CoreNo, NoMemory, Stint};
use table_form::Course;

// Where and when each vCPU ran: its pieces in order, and at how many ticks it ran before each.
#[derive(Drop)]
pub(crate) struct Runs {
    pub(crate) pieces: Vec<RanPiece>,
    pub(crate) before: Vec<u32>,
}

impl Runs {
    // Nothing yet, with room for so many stints.
    pub(crate) fn room(alloc: Global, stints: u32) -> Result<Runs, NoMemory>
        ensures pieces { IfOk result (λ runs. stints ≤ vec_capacity runs.pieces) }
        ensures before { IfOk result (λ runs. stints ≤ vec_capacity runs.before) }
    {
        Ok(Runs {
            pieces: Vec::with_capacity(alloc, stints as usize)?,
            before: Vec::with_capacity(alloc, stints as usize)?,
        })
    }

    // What the crew keeps of a whole run. Takes no memory.
    pub(crate) fn fill(&mut self, course: &Course, rounds: u32, crew: &Crew<'_>)
        requires few { rounds ≤ MAX_ROUNDS }
        requires kept { (s : StateValue) × IsKeptRun course.now rounds crew.now s
            × (stints_in s ≤ vec_capacity self.old.pieces) × (stints_in s ≤ vec_capacity self.old.before) }
        ensures runs { (s : StateValue) → IsKeptRun course.now rounds crew.now s
            → AreRuns rounds s self.new.pieces.items self.new.before.items }
        ensures pieces { vec_capacity self.new.pieces ≡ vec_capacity self.old.pieces }
        ensures before { vec_capacity self.new.before ≡ vec_capacity self.old.before }
    {
        gather(course, rounds, crew, &mut self.pieces);
        self.pieces
            .sort_unstable_by_key(|piece| place_of(piece.vcpu, piece.from));
        add_up(&self.pieces, &mut self.before);
    }
}

// The pieces of all cores.
fn gather(course: &Course, rounds: u32, crew: &Crew<'_>, pieces: &mut Vec<RanPiece>)
    requires kept { (s : StateValue) × IsKeptRun course.now rounds crew.now s
        × (stints_in s ≤ vec_capacity pieces.old) }
    ensures pieces { (s : StateValue) → IsKeptRun course.now rounds crew.now s
        → TellRuns rounds s pieces.new.items }
    ensures few { (s : StateValue) → IsKeptRun course.now rounds crew.now s
        → length pieces.new.items ≤ stints_in s }
    ensures capacity { vec_capacity pieces.new ≡ vec_capacity pieces.old }
{
    pieces.clear();
    for core in 0..course.cores() {
        let stints = crew.actor(CoreNo(core)).stints();
        add_pieces(stints, pieces);
    }
}

// Adds the pieces of these stints.
fn add_pieces(stints: &[Stint], pieces: &mut Vec<RanPiece>)
    requires { length pieces.old.items + length stints.now ≤ vec_capacity pieces.old }
    ensures items { pieces.new.items ≡ pieces.old.items ++ pieces_of stints.now }
    ensures capacity { vec_capacity pieces.new ≡ vec_capacity pieces.old }
{
    for stint in stints {
        if let Some(vcpu) = stint.ran {
            pieces.push_reserved(RanPiece {
                vcpu: vcpu.index() as u32,
                from: stint.from,
                end: stint.end,
            });
        }
    }
}

// At how many ticks the vCPU of each piece ran before it.
fn add_up(pieces: &[RanPiece], before: &mut Vec<u32>)
    requires room { length pieces.now ≤ vec_capacity before.old }
    requires order { AreInPlace pieces.now }
    requires runs { (rounds : ℕ) × (s : StateValue) × (rounds ≤ MAX_ROUNDS) × TellRuns rounds s pieces.now }
    ensures runs { (rounds : ℕ) (s : StateValue) → rounds ≤ MAX_ROUNDS → TellRuns rounds s pieces.now
        → AreRuns rounds s pieces.now before.new.items }
    ensures capacity { vec_capacity before.new ≡ vec_capacity before.old }
{
    before.clear();
    for k in 0..pieces.len() {
        let ticks = ran_so_far(pieces, before, k);
        before.push_reserved(ticks);
    }
}

// At how many ticks the vCPU of the piece at this place ran before it: as many as by the end of the piece
// before it, where that is the vCPU's too.
fn ran_so_far(pieces: &[RanPiece], before: &[u32], place: usize) -> u32
    requires within { place < length pieces.now }
    requires size { length before.now ≡ place }
    requires order { AreInPlace pieces.now }
    requires runs { (rounds : ℕ) × (s : StateValue) × (rounds ≤ MAX_ROUNDS) × TellRuns rounds s pieces.now
        × AreRanBefore s pieces.now before.now }
    ensures { (rounds : ℕ) (s : StateValue) (p : RanPieceValue) → rounds ≤ MAX_ROUNDS
        → TellRuns rounds s pieces.now → AreRanBefore s pieces.now before.now
        → slice_get pieces.now place ≡ Some p → result ≡ ticks_run s p.vcpu 0 p.from }
{
    if place == 0 {
        return 0;
    }
    let last = pieces[place - 1];
    if last.vcpu != pieces[place].vcpu {
        return 0;
    }
    before[place - 1] + (last.end - last.from)
}
