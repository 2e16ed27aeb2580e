ghost use Rattle.std.specs.Prelude.{◌≡◌, ◌+◌, ◌*◌, ◌≤◌, ◌<◌, ℕ, Some, length, true};
ghost use Rattle.std.specs.Int.{bit_at};
ghost use Rattle.tab_core.specs.declared.TheConstants.{MAX_VCPUS, ROUND};
ghost use Rattle.table_form.specs.Tables.Rows.{RisesTo, cells_from};
ghost use Rattle.table_form.specs.Tables.Serves.{Apart};
ghost use Rattle.table_check.specs.Inside.Marks.{IsNewMark, KeepsMarks, MarksRow};
ghost use Rattle.table_check.specs.Shapes.{HaveGoodShapes, rows_of};
ghost use Rattle.table_check.specs.declared.marks.TheConstants.{WORDS};

use std::alloc::Global;
use tab_core::{ROUND, VcpuNo};
use table_form::{Segment, Segments};

// From how many segments on it costs less to mark all ticks than to sweep each pair of rows.
const MANY_SEGMENTS: usize = 40_000;

// How many words of 64 bits have one for each tick of a round.
pub(crate) const WORDS: usize = 1604;

// Whether the rows are seen to be apart, by marks of the ticks at which each vCPU is in a row.
// Where they have few segments, an owner isn't below the count of vCPUs or memory runs out, nothing
// is seen.
pub(crate) fn seem_apart(alloc: Global, vcpus: usize, raw: &[Segments]) -> bool
    requires few { vcpus ≤ MAX_VCPUS }
    requires good { HaveGoodShapes raw.now }
    ensures { result ≡ true → Apart (rows_of raw.now) }
{
    if !are_many(raw) {
        return false;
    }
    let Ok(mut marks) = vec![in alloc; 0u64; vcpus * WORDS] else {
        return false;
    };
    for row in raw {
        if !mark_row(&mut marks, row.items()) {
            return false;
        }
    }
    true
}

// Only speed depends on this.
fn are_many(raw: &[Segments]) -> bool {
    let mut count = 0usize;
    for row in raw {
        count = count.saturating_add(row.items().len());
    }
    count > MANY_SEGMENTS
}

// Marks each cell's tick for its owner. False where one was marked already.
pub(crate) fn mark_row(marks: &mut Vec<u64>, segments: &[Segment]) -> bool
    requires { RisesTo 0 segments.now ROUND }
    ensures kept { KeepsMarks marks.old.items marks.new.items }
    ensures marked { result ≡ true
        → MarksRow (cells_from 0 segments.now) ROUND marks.old.items marks.new.items }
{
    let mut from = 0;
    for segment in segments {
        if !mark_segment(marks, segment, from) {
            return false;
        }
        from = segment.end;
    }
    true
}

// Marks the ticks of a segment that begins at `from` for its owner, if it has one. False too where
// there are no marks for that.
fn mark_segment(marks: &mut Vec<u64>, segment: &Segment, from: u32) -> bool
    requires { segment.now.end ≤ ROUND }
    ensures kept { KeepsMarks marks.old.items marks.new.items }
    ensures marked { result ≡ true → (v x : ℕ) → segment.now.owner ≡ Some v → from ≤ x
        → x < segment.now.end → IsNewMark marks.old.items marks.new.items v x }
{
    let Some(vcpu) = segment.owner.vcpu() else {
        return true;
    };
    if vcpu.index() * WORDS + WORDS > marks.len() {
        return false;
    }
    mark_run(marks, vcpu, from, segment.end)
}

// Marks the ticks of [from, to) for the vCPU, word by word. False where one was marked already.
fn mark_run(marks: &mut Vec<u64>, vcpu: VcpuNo, from: u32, to: u32) -> bool
    requires there { vcpu * WORDS + WORDS ≤ length marks.old.items }
    requires in_round { to ≤ ROUND }
    ensures kept { KeepsMarks marks.old.items marks.new.items }
    ensures marked { result ≡ true → (x : ℕ) → from ≤ x → x < to
        → IsNewMark marks.old.items marks.new.items vcpu x }
{
    let mut tick = from;
    'words: while tick < to {
        let word_no = tick / 64;
        let end = to.min((word_no + 1) * 64);
        let ticks = ones_between(tick - word_no * 64, end - word_no * 64);
        let place = vcpu.index() * WORDS + word_no as usize;
        if marks[place] & ticks != 0 {
            return false;
        }
        marks[place] |= ticks;
        tick = end;
    }
    true
}

// The word with the bits from one on up to another.
fn ones_between(from: u32, to: u32) -> u64
    requires rises { from < to }
    requires within { to ≤ 64 }
    ensures below { (i : ℕ) → i < from → bit_at result i ≡ 0 }
    ensures inside { (i : ℕ) → from ≤ i → i < to → bit_at result i ≡ 1 }
    ensures above { (i : ℕ) → to ≤ i → bit_at result i ≡ 0 }
{
    (u64::MAX << from) & (u64::MAX >> (64 - to))
}
