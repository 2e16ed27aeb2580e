ghost use Rattle.std.specs.Prelude.{◌≡◌, ℕ, ◌<◌, ◌≤◌, ◌+◌, ◌-◌, ◌*◌, IfOk, min, slice_index};
ghost use Rattle.tab_core.specs.declared.TheConstants.{ROUND};
ghost use Rattle.slice_table.specs.Inside.SliceLists.{number_in};
ghost use Rattle.slice_table.specs.Inside.Spans.{AreEnds, IsNear};
ghost use Rattle.slice_table.specs.Slices.{AreSlices, HoldsTick, IsShortest, ends_of};

use crate::slice_list::{Block, PLACES, SliceList, with_rise};
use crate::span_list::SpanList;
use std::alloc::{AllocError, Global};
use std::cmp::min;
use tab_core::ROUND;

/// The ticks of the shortest of the spans.
pub(crate) fn shortest(spans: &SpanList) -> u32
    requires { AreEnds (ends_of spans.now) }
    ensures { IsShortest result (ends_of spans.now) }
{
    let mut begin = spans.end(0);
    let mut least = begin;
    for number in 1..spans.len() {
        let end = spans.end(number);
        least = shorter(least, begin, end);
        begin = end;
    }
    least
}

// The least so far, or the ticks from the begin to the end if these are fewer.
fn shorter(least: u32, begin: u32, end: u32) -> u32
    requires { begin ≤ end }
    ensures { result ≡ min least (end - begin) }
{
    min(least, end - begin)
}

/// For each slice of `size` ticks, as many as the shortest span has, the number of the span that holds its first tick.
pub(crate) fn slices_of(alloc: Global, spans: &SpanList, size: u32) -> Result<SliceList, AllocError>
    requires ends { AreEnds (ends_of spans.now) }
    requires shortest { IsShortest size (ends_of spans.now) }
    ensures { IfOk result (λ slices. AreSlices size slices (ends_of spans.now)) }
{
    let count = (ROUND - 1) / size + 1;
    let whole = (count - 1) / PLACES;
    let mut blocks = Vec::with_capacity(alloc, whole as usize + 1)?;
    let mut number: u32 = 0;
    for block in 0..whole {
        let (next, last) = block_from(spans, number, block * PLACES, size, PLACES);
        blocks.push(next)?;
        number = last;
    }
    let begin = whole * PLACES;
    let (last, _) = block_from(spans, number, begin, size, count - begin);
    blocks.push(last)?;
    Ok(SliceList::of(blocks, count))
}

// The block of so many slices from one on, and the number of the last of them. The first slice's is the
// given number or the next.
fn block_from(spans: &SpanList, number: u32, slice: u32, size: u32, places: u32) -> (Block, u32)
    requires ends { AreEnds (ends_of spans.now) }
    requires shortest { IsShortest size (ends_of spans.now) }
    requires some { 1 ≤ places }
    requires few { places ≤ 32 }
    requires in_round { (slice + places) * size < ROUND + size }
    requires near { IsNear (ends_of spans.now) size number (slice * size) }
    ensures small { result.0.first ≤ ROUND }
    ensures holds { (place : ℕ) → place < places
        → HoldsTick (ends_of spans.now) (number_in result.0 place) ((slice + place) * size) }
    ensures near { IsNear (ends_of spans.now) size result.1 ((slice + places) * size) }
{
    let end = spans.end(number as usize);
    let (first, mut end) = holder_from(spans, number, end, size, slice * size);
    let mut last = first;
    let mut rises = 0;
    for place in 0..places - 1 {
        let (next, next_end) = holder_from(spans, last, end, size, (slice + place + 1) * size);
        rises = with_rise(rises, place, next - last);
        last = next;
        end = next_end;
    }
    (Block { first, rises }, last)
}

// The number and the end of the span that holds the tick: the given ones or the next span's. `size` is
// for the proof alone.
fn holder_from(spans: &SpanList, number: u32, end: u32, size: u32, tick: u32) -> (u32, u32)
    requires ends { AreEnds (ends_of spans.now) }
    requires shortest { IsShortest size (ends_of spans.now) }
    requires near { IsNear (ends_of spans.now) size number tick }
    requires in_round { tick < ROUND }
    requires end { end ≡ slice_index (ends_of spans.now) number }
    ensures holds { HoldsTick (ends_of spans.now) result.0 tick }
    ensures from { number ≤ result.0 }
    ensures next { result.0 ≤ number + 1 }
    ensures end { result.1 ≡ slice_index (ends_of spans.now) result.0 }
{
    let _ = size;
    if tick < end {
        (number, end)
    } else {
        let next = number + 1;
        (next, spans.end(next as usize))
    }
}
