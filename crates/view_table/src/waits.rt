ghost use Rattle.std.specs.Prelude.{◌≡◌, ℕ, ◌+◌, ◌*◌, ◌-◌, ◌<◌, ◌≤◌, Bool, IfOk, List, [], length, max, slice_index};
ghost use Rattle.tab_core.specs.declared.TheConstants.{MAX_VCPUS, ROUND};
ghost use Rattle.view_doc.specs.declared.view.Stretch.{Stretch as StretchValue};
ghost use Rattle.view_table.specs.Figures.{AreWaitMarks, AreWaits};
ghost use Rattle.view_table.specs.Inside.Walks.{AreByBegin, IsWalked, SegmentsRise, last_mark, next_end, next_mark, next_wait};
ghost use Rattle.view_table.specs.Waits.{EndsAt, wait_of};

use std::alloc::Global;
use tab_core::{NoMemory, ROUND};
use view_doc::{Stretch, Use};

// The longest waits of so many vCPUs, and where they end: two rounds are walked from segment to segment,
// all vCPUs beside one another.
pub(crate) fn waits_of(
    alloc: Global,
    slots: &[Stretch],
    count: usize,
) -> Result<(Vec<u32>, Vec<u32>), NoMemory>
    requires { count ≤ MAX_VCPUS }
    ensures waits { IfOk result (λ pair. AreWaits slots.now count pair.0.items) }
    ensures marks { IfOk result (λ pair. AreWaitMarks slots.now count pair.1.items) }
{
    let order = by_begin(alloc, slots)?;
    let mut ends = vec![in alloc; 0u32; count]?;
    let mut waits = vec![in alloc; 0u32; count]?;
    let mut marks = vec![in alloc; 0u32; count]?;
    walk_rounds(&order, &mut ends, &mut waits, &mut marks);
    Ok((waits, marks))
}

// The segments by their begin. The sort goes by the runs that rise: each core's segments are one.
fn by_begin(alloc: Global, slots: &[Stretch]) -> Result<Vec<Stretch>, NoMemory>
    ensures { IfOk result (λ order. AreByBegin slots.now order.items) }
{
    let mut order = Vec::with_capacity(alloc, slots.len())?;
    for slot in slots {
        order.push(*slot)?;
    }
    order.sort_by_key(|slot| slot.from)?;
    Ok(order)
}

// Walks two rounds, from nothing.
fn walk_rounds(order: &[Stretch], ends: &mut [u32], waits: &mut [u32], marks: &mut [u32])
    requires sizes { length waits.old ≡ length ends.old }
    requires places { length marks.old ≡ length ends.old }
    requires rise { SegmentsRise order.now }
    requires begins { (v : ℕ) → v < length ends.old → slice_index ends.old v ≡ 0 }
    requires fresh { (v : ℕ) → v < length ends.old → slice_index waits.old v ≡ 0 }
    requires unset { (v : ℕ) → v < length ends.old → slice_index marks.old v ≡ 0 }
    ensures size { length waits.new ≡ length waits.old }
    ensures places { length marks.new ≡ length marks.old }
    ensures waits { (slots : List StretchValue) (v : ℕ) → v < length waits.old → AreByBegin slots order.now
        → slice_index waits.new v ≡ wait_of slots v }
    ensures marks { (slots : List StretchValue) (v : ℕ) → v < length waits.old → AreByBegin slots order.now
        → EndsAt slots v (wait_of slots v) (slice_index marks.new v) }
{
    walk_round(order, 0, ends, waits, marks);
    walk_round(order, ROUND, ends, waits, marks);
    end_marks(ends, waits, marks);
    end_waits(ends, waits);
}

// Goes through the segments of the round that begins at this tick. For each vCPU `ends` has where its
// slots so far end, `waits` its longest wait up to there, and `marks` where such a wait ends.
fn walk_round(order: &[Stretch], base: u32, ends: &mut [u32], waits: &mut [u32], marks: &mut [u32])
    requires few { base ≤ ROUND }
    requires rise { SegmentsRise order.now }
    requires sizes { length waits.old ≡ length ends.old }
    requires places { length marks.old ≡ length ends.old }
    ensures ends { length ends.new ≡ length ends.old }
    ensures waits { length waits.new ≡ length ends.old }
    ensures marks { length marks.new ≡ length ends.old }
    ensures walked { (served : ℕ → Bool) (v : ℕ) → v < length ends.old
        → IsWalked served order.now v base (slice_index ends.old v) (slice_index waits.old v)
        (slice_index marks.old v)
        → IsWalked served [] v base (slice_index ends.new v) (slice_index waits.new v)
        (slice_index marks.new v) }
{
    for slot in order {
        walk_on(slot, base, ends, waits, marks);
    }
}

// Goes over one segment.
fn walk_on(slot: &Stretch, base: u32, ends: &mut [u32], waits: &mut [u32], marks: &mut [u32])
    requires few { base ≤ ROUND }
    requires sizes { length waits.old ≡ length ends.old }
    requires places { length marks.old ≡ length ends.old }
    ensures places { length marks.new ≡ length ends.old }
    ensures sizes { length waits.new ≡ length ends.old }
    ensures size { length ends.new ≡ length ends.old }
    ensures ends { (v : ℕ) → v < length ends.old
        → slice_index ends.new v ≡ next_end v base slot.now (slice_index ends.old v) }
    ensures waits { (v : ℕ) → v < length ends.old
        → slice_index waits.new v
        ≡ next_wait v base slot.now (slice_index ends.old v) (slice_index waits.old v) }
    ensures marks { (v : ℕ) → v < length ends.old
        → slice_index marks.new v
        ≡ next_mark v base slot.now (slice_index ends.old v) (slice_index waits.old v) (slice_index marks.old v) }
{
    let Use::Slot(vcpu) = slot.by else {
        return;
    };
    let end = slot.end.min(ROUND);
    let vcpu = vcpu.index();
    if vcpu >= ends.len() || slot.from >= end {
        return;
    }
    let begin = base + slot.from;
    let wait = begin.saturating_sub(ends[vcpu]);
    if waits[vcpu] < wait {
        marks[vcpu] = begin;
    }
    waits[vcpu] = waits[vcpu].max(wait);
    ends[vcpu] = ends[vcpu].max(base + end);
}

// Puts the end of the second round where the longest wait ends there.
fn end_marks(ends: &[u32], waits: &[u32], marks: &mut [u32])
    requires sizes { length waits.now ≡ length ends.now }
    requires places { length marks.old ≡ length ends.now }
    ensures size { length marks.new ≡ length marks.old }
    ensures marks { (v : ℕ) → v < length marks.old → slice_index marks.new v
        ≡ last_mark (slice_index ends.now v) (slice_index waits.now v) (slice_index marks.old v) }
{
    for vcpu in 0..marks.len() {
        if waits[vcpu] < (2 * ROUND).saturating_sub(ends[vcpu]) {
            marks[vcpu] = 2 * ROUND;
        }
    }
}

// Adds the waits up to the end of the second round.
fn end_waits(ends: &[u32], waits: &mut [u32])
    requires sizes { length waits.old ≡ length ends.now }
    ensures size { length waits.new ≡ length waits.old }
    ensures waits { (v : ℕ) → v < length waits.old
        → slice_index waits.new v ≡ max (slice_index waits.old v) (2 * ROUND - slice_index ends.now v) }
{
    for vcpu in 0..waits.len() {
        waits[vcpu] = waits[vcpu].max((2 * ROUND).saturating_sub(ends[vcpu]));
    }
}
