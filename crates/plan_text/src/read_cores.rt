ghost use Rattle.std.specs.Prelude.{◌≡◌, ◌++◌, ◌+◌, ◌-◌, ◌<◌, ◌≤◌, [], ◌∷◌, IfOk, IsErrOf, List, MatchOption, OnOk, Option, ◌^◌, IfNone, IfSome, decimal, length, map, ℕ};
ghost use Rattle.std.specs.List.{All};
ghost use Rattle.tab_core.specs.declared.TheConstants.{MAX_CORES};
ghost use Rattle.tab_core.specs.declared.periodic.Periodic.{Periodic};
ghost use Rattle.table_form.specs.Tables.Serves.{has_task};
ghost use Rattle.table_form.specs.declared.segment.Segment.{Segment};
ghost use Rattle.tab_words.specs.Words.{words_of};
ghost use Rattle.plan_text.specs.FirstBad.{IsFirstBadFor};
ghost use Rattle.plan_text.specs.Names.{AreHostNames};
ghost use Rattle.plan_text.specs.Meaning.{AreFineRows, IsFineSegment, segment_words};
ghost use Rattle.plan_text.specs.PlanLines.{core_lines, core_words, end_words};
ghost use Rattle.plan_text.specs.Inside.OldReading.{IsEnd};
ghost use Rattle.plan_text.specs.Inside.Reading.{AreFromCore, IsNoSegment, IsNoSegmentLine};
ghost use Rattle.plan_text.specs.declared.read_fault.ReadPlan.{ReadPlan};

use crate::lines_left::LinesLeft;
use crate::plain_line::plain_line;
use crate::read_fault::ReadPlan;
use std::alloc::{AllocError, Global};
use tab_core::{Periodic, VcpuNo};
use tab_words::{TextPiece, Words, read_number};
use table_form::{Owner, Segment, Segments};
use vcpu_names::Names;

// Reads the lines of the cores and the end.
pub(crate) fn read_cores(
    alloc: Global,
    left: &mut LinesLeft<'_>,
    names: &Names<'_>,
    tasks: &[Option<Periodic>],
    cores: u32,
) -> Result<Vec<Segments>, ReadPlan>
    requires good { AreHostNames names.now }
    requires named { length names.now ≡ length tasks.now }
    requires few_cores { cores ≤ MAX_CORES }
    ensures lines { IfOk result (λ rows.
        left.old.lines ≡ core_lines (segment_words names.now) 0 rows.items ++ end_words ∷ []) }
    ensures rows { IfOk result (λ rows. length rows.items ≡ cores) }
    ensures fine { IfOk result (λ rows. AreFineRows tasks.now rows.items) }
    ensures bad_line { (bad : ℕ) → IsErrOf result (ReadPlan.BadLine bad)
        → IsFirstBadFor (AreFromCore names.now tasks.now 0 cores) left.old.number left.old.lines bad }
{
    let mut rows = Vec::new(alloc);
    for core in 0..cores {
        let row = read_row(left, names, tasks, core, Vec::new(alloc))?;
        if rows.push(Segments::of(row)).is_err() {
            return Err(ReadPlan::NoMemory);
        }
    }
    read_end(left)?;
    Ok(rows)
}

// Reads the line of the core with this number and those of its segments, which it puts into the row.
// That is empty, and may come with memory.
pub(crate) fn read_row(
    left: &mut LinesLeft<'_>,
    names: &Names<'_>,
    tasks: &[Option<Periodic>],
    core: u32,
    row: Vec<Segment>,
) -> Result<Vec<Segment>, ReadPlan>
    requires good { AreHostNames names.now }
    requires named { length names.now ≡ length tasks.now }
    requires empty { row.items ≡ [] }
    ensures lines { IfOk result (λ row. left.old.lines
        ≡ core_words core ∷ (map (segment_words names.now) row.items ++ left.new.lines)) }
    ensures fine { IfOk result (λ row. All (IsFineSegment tasks.now) row.items) }
    ensures behind { IfOk result (λ row. (cores bad : ℕ) → core < cores
        → IsFirstBadFor (AreFromCore names.now tasks.now (core + 1) (cores - (core + 1)))
        left.new.number left.new.lines bad
        → IsFirstBadFor (AreFromCore names.now tasks.now core (cores - core))
        left.old.number left.old.lines bad) }
    ensures bad_line { (bad : ℕ) → IsErrOf result (ReadPlan.BadLine bad) → (cores : ℕ) → core < cores
        → IsFirstBadFor (AreFromCore names.now tasks.now core (cores - core))
        left.old.number left.old.lines bad }
{
    left.take(&[TextPiece::Text(b"core"), TextPiece::Number(core)])?;
    Ok(read_segments(left, names, tasks, row)?)
}

// Reads the lines of segments, up to the first that is none, and puts them into the row, which is empty.
// What is left is held in a copy of its own, since a change after the reference costs at each line.
fn read_segments(
    left: &mut LinesLeft<'_>,
    names: &Names<'_>,
    tasks: &[Option<Periodic>],
    mut row: Vec<Segment>,
) -> Result<Vec<Segment>, AllocError>
    requires good { AreHostNames names.now }
    requires named { length names.now ≡ length tasks.now }
    requires empty { row.items ≡ [] }
    ensures lines { IfOk result (λ row. left.old.lines ≡ map (segment_words names.now) row.items
        ++ left.new.lines) }
    ensures number { IfOk result (λ row. left.new.number ≡ left.old.number + length row.items) }
    ensures fine { IfOk result (λ row. All (IsFineSegment tasks.now) row.items) }
    ensures behind { IfOk result (λ row. IsNoSegment names.now tasks.now left.new.lines) }
{
    let mut rest = left.copied();
    while let Some(segment) = take_segment(&mut rest, names, tasks) {
        let Segment { owner, end, .. } = segment;
        row.push(Segment { owner, end })?;
    }
    *left = rest;
    Ok(row)
}

// Reads the end, after which there is no line.
pub(crate) fn read_end(left: &mut LinesLeft<'_>) -> Result<(), ReadPlan>
    ensures ok { OnOk result (left.old.lines ≡ end_words ∷ []) }
    ensures bad_line { (bad : ℕ) → IsErrOf result (ReadPlan.BadLine bad)
        → (names : List (List ℕ)) (tasks : List (Option Periodic)) (core cores : ℕ) → cores ≤ core
        → IsFirstBadFor (AreFromCore names tasks core (cores - core)) left.old.number left.old.lines bad }
    ensures no_end { (bad : ℕ) → IsErrOf result (ReadPlan.BadLine bad)
        → IsFirstBadFor IsEnd left.old.number left.old.lines bad }
{
    left.take(&[TextPiece::Text(b"end")])?;
    match left.first() {
        None => Ok(()),
        Some(_) => Err(left.bad_line()),
    }
}

// Steps over the first line, if it is a segment's, and gives that. Most lines are plain and read in
// one pass.
fn take_segment(
    left: &mut LinesLeft<'_>,
    names: &Names<'_>,
    tasks: &[Option<Periodic>],
) -> Option<Segment>
    requires good { AreHostNames names.now }
    requires named { length names.now ≡ length tasks.now }
    ensures some { IfSome result (λ s. IsFineSegment tasks.now s
        × (left.old.lines ≡ segment_words names.now s ∷ left.new.lines)
        × (left.new.number ≡ left.old.number + 1)) }
    ensures none { IfNone result ((left.new ≡ left.old) × IsNoSegment names.now tasks.now left.old.lines) }
{
    if let Some(plain) = plain_line(left.bytes()) {
        let Some(segment) = segment_with(plain.number, plain.word, names, tasks) else {
            return None;
        };
        left.step_to(plain.behind);
        return Some(segment);
    }
    let Some((line, behind)) = left.first() else {
        return None;
    };
    let Some(segment) = segment_of(line, names, tasks) else {
        return None;
    };
    left.step_to(behind);
    Some(segment)
}

// The segment that the line is.
fn segment_of(line: &[u8], names: &Names<'_>, tasks: &[Option<Periodic>]) -> Option<Segment>
    requires good { AreHostNames names.now }
    requires named { length names.now ≡ length tasks.now }
    ensures { MatchOption result
        (IsNoSegmentLine names.now tasks.now (words_of line.now))
        (λ s. IsFineSegment tasks.now s × (words_of line.now ≡ segment_words names.now s)) }
{
    let mut words = Words::of(line);
    let (Some(end), Some(owner), None) = (words.next(), words.next(), words.next()) else {
        return None;
    };
    let Some(end) = end_of(end) else {
        return None;
    };
    segment_with(end, owner, names, tasks)
}

// The segment with this end whose owner is the word. It is inlined, as most lines come here.
#[inline(always)]
fn segment_with(
    end: u32,
    owner: &[u8],
    names: &Names<'_>,
    tasks: &[Option<Periodic>],
) -> Option<Segment>
    requires good { AreHostNames names.now }
    requires named { length names.now ≡ length tasks.now }
    ensures { MatchOption result
        (IsNoSegmentLine names.now tasks.now (decimal end ∷ owner.now ∷ []))
        (λ s. IsFineSegment tasks.now s
        × (decimal end ∷ owner.now ∷ [] ≡ segment_words names.now s)) }
{
    if owner == b"-".as_slice() {
        return Some(Segment {
            owner: Owner::of(None),
            end,
        });
    }
    let Some(vcpu) = names.number_of(owner) else {
        return None;
    };
    if !has_task(tasks, &vcpu) {
        return None;
    }
    Some(Segment {
        owner: Owner::of(Some(vcpu)),
        end,
    })
}

// The number below 2^32 that the word spells.
fn end_of(word: &[u8]) -> Option<u32>
    ensures { MatchOption result ((end : ℕ) → end < 2 ^ 32 → word.now ≡ decimal end → ⊥)
        (λ end. word.now ≡ decimal end) }
{
    let number = read_number(word)?;
    if number <= u64::from(u32::MAX) {
        Some(number as u32)
    } else {
        None
    }
}

fn has_task(tasks: &[Option<Periodic>], vcpu: &VcpuNo) -> bool
    ensures { result ≡ has_task tasks.now vcpu.now }
{
    match tasks.get(vcpu.index()) {
        Some(task) => task.is_some(),
        None => false,
    }
}
