ghost use Rattle.std.specs.Prelude.{◌≡◌, ◌<◌, ◌≤◌, ℕ, IsTrue, Some, length, slice_get};
ghost use Rattle.tab_core.specs.declared.TheConstants.{MAX_VCPUS, ROUND};
ghost use Rattle.table_form.specs.Promises.Offered.{some_row_has};
ghost use Rattle.table_form.specs.Tables.Serves.{Apart, owner_at};
ghost use Rattle.run_counts.specs.Inside.Sweeps.{IsToldIfShort, IsToldTo};
ghost use Rattle.run_counts.specs.Inside.Walks.{HoldsPlace, IsNext, slot_at};
ghost use Rattle.run_counts.specs.Stretches.{stretch_at};

use crate::stretch::Stretch;
use std::cmp::max;
use tab_core::{ROUND, VcpuNo};
use table_form::{CoreTable, Owner, Segment};

// Places for slots, one for each row.
const ROWS: usize = 32;

// The next slot of a vCPU in a row: from `begin` up to `end`. Both are the round's end if there is none.
#[derive(Clone, Copy)]
struct Slot {
    begin: u32,
    end: u32,
    // A guess for the number of its segment in the row.
    number: usize,
}

// Makes each stretch anew that is longer than the round.
pub(crate) fn walk_late(rows: &[CoreTable], stretches: &mut [Stretch])
    requires few { length rows.now ≤ ROWS }
    requires apart { Apart rows.now }
    requires size { length stretches.old ≡ MAX_VCPUS }
    requires told { (v : ℕ) → v < MAX_VCPUS
        → IsToldIfShort (some_row_has rows.now v) (stretch_at stretches.old v) }
    ensures size { length stretches.new ≡ MAX_VCPUS }
    ensures told { (v : ℕ) → v < MAX_VCPUS
        → IsToldTo (some_row_has rows.now v) ROUND (stretch_at stretches.new v) }
{
    for v in 0..stretches.len() {
        if stretches[v].ticks > ROUND {
            stretches[v] = walk(rows, VcpuNo(v as u32));
        }
    }
}

// What the rows offer one vCPU: goes from slot to slot, over all rows together, in the order of time.
fn walk(rows: &[CoreTable], vcpu: VcpuNo) -> Stretch
    requires few { length rows.now ≤ ROWS }
    requires apart { Apart rows.now }
    ensures { IsToldTo (some_row_has rows.now vcpu) ROUND result }
{
    let mut slots = first_slots(rows, vcpu);
    let mut stretch = Stretch::none();
    let mut place = 0;
    'walking: while place < ROUND {
        let (core, begin) = earliest(&slots, rows.len());
        if begin >= ROUND {
            return stretch;
        }
        let slot = slots[core];
        stretch = stretch.offered_to(begin, slot.end);
        place = slot.end;
        slots[core] = next_slot(rows, core, vcpu, place, slot.number.saturating_add(1));
    }
    stretch
}

// The first slot of the vCPU in each row.
fn first_slots(rows: &[CoreTable], vcpu: VcpuNo) -> [Slot; ROWS]
    requires few { length rows.now ≤ ROWS }
    ensures size { length result ≡ ROWS }
    ensures next { (d : ℕ) → d < length rows.now → IsNext rows.now d vcpu 0 (slot_at result d) }
{
    let mut slots = [Slot {
        begin: 0,
        end: 0,
        number: 0,
    }; ROWS];
    for core in 0..rows.len() {
        slots[core] = next_slot(rows, core, vcpu, 0, 0);
    }
    slots
}

// The row whose slot begins first, and where that is: at the round's end if no row has a slot.
fn earliest(slots: &[Slot; ROWS], rows: usize) -> (usize, u32)
    requires few { rows ≤ ROWS }
    ensures within { result.1 ≤ ROUND }
    ensures least { (d : ℕ) → d < rows → result.1 ≤ (slot_at slots.now d).begin }
    ensures there { result.1 < ROUND → (result.0 < rows) × ((slot_at slots.now result.0).begin ≡ result.1) }
{
    let mut first = 0;
    let mut begin = ROUND;
    for core in 0..rows {
        if slots[core].begin < begin {
            first = core;
            begin = slots[core].begin;
        }
    }
    (first, begin)
}

// The vCPU's next slot in the row, from the place on. The search begins at the segment of the number `guess`
// if that holds the place, and else at the row's first.
fn next_slot(rows: &[CoreTable], core: usize, vcpu: VcpuNo, place: u32, guess: usize) -> Slot
    requires core { core < length rows.now }
    requires place { place ≤ ROUND }
    ensures { IsNext rows.now core vcpu place result }
{
    let owner = Owner::of(Some(vcpu));
    let segments = rows[core].segments();
    let mut begin = 0;
    let mut number = 0;
    if holds(segments, guess, place) {
        begin = place;
        number = guess;
    }
    'seeking: while number < segments.len() {
        let segment = segments[number];
        if segment.owner.same(owner) && segment.end > place {
            return Slot {
                begin: max(begin, place),
                end: segment.end,
                number,
            };
        }
        begin = segment.end;
        number += 1;
    }
    Slot {
        begin: ROUND,
        end: ROUND,
        number,
    }
}

// Whether there is a segment of the number, and it holds the place.
fn holds(segments: &[Segment], number: usize, place: u32) -> bool
    ensures { IsTrue result → HoldsPlace segments.now number place }
{
    if number >= segments.len() || segments[number].end <= place {
        return false;
    }
    number == 0 || segments[number - 1].end <= place
}
