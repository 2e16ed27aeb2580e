ghost use Rattle.std.specs.Prelude.{◌≡◌, ◌<◌, ◌≤◌, ◌++◌, All, IsTrue, [], ◌∷◌, IfOk, OnOk, Some, length, map, slice_get, slice_index};
ghost use Rattle.tab_core.specs.declared.TheConstants.{ROUND};
ghost use Rattle.slice_table.specs.declared.full_span.FullSpan.{FullSpan};
ghost use Rattle.slice_table.specs.declared.span_list.SpanEntry.{SpanEntry as EntryValue};
ghost use Rattle.slice_table.specs.Inside.SpanLists.{shown_at, span_of};
ghost use Rattle.slice_table.specs.Slices.{ends_of};

use crate::full_span::FullSpan;
use std::alloc::{AllocError, Global};
use std::marker::Model;
use tab_core::{VcpuNo, VcpuSet};
use table_form::{Span, Spot};

/// A span's end, and the number of what it shows.
#[derive(Clone, Copy, Drop)]
pub(crate) struct SpanEntry {
    pub end: u32,
    pub shown: u32,
}

/// What some spans show: the owner, the vCPUs away and the sharers.
#[derive(Drop)]
pub(crate) struct Shown {
    pub owner: Option<VcpuNo>,
    pub away: VcpuSet,
    pub sharers: VcpuSet,
}

/// Spans in order, of which those that show the same may share it. Contracts see each with what it shows.
#[derive(Drop)]
pub(crate) struct SpanList {
    entries: Vec<SpanEntry>,
    shown: Vec<Shown>,
}

impl Model for SpanList {
    ghost use Rattle.std.specs.Prelude.{◌<◌, ◌≤◌, List, All, length, map};
    ghost use Rattle.slice_table.specs.declared.full_span.FullSpan.{FullSpan};
    ghost use Rattle.slice_table.specs.declared.span_list.SpanEntry.{SpanEntry};
    ghost use Rattle.slice_table.specs.Inside.SpanLists.{span_of};

    ghost Value = { List FullSpan };

    ghost view = { λ list. map (span_of list.shown.items) list.entries.items };

    ghost invariant = { λ list. (length list.shown.items ≤ length list.entries.items)
        × All (λ (entry : SpanEntry). entry.shown < length list.shown.items) list.entries.items };
}

impl SpanList {
    /// A list without spans, with room for so many. Fails only when memory runs out.
    pub fn with_room(alloc: Global, spans: usize) -> Result<SpanList, AllocError>
        ensures { IfOk result (λ list. list ≡ []) }
    {
        Ok(SpanList {
            entries: Vec::with_capacity(alloc, spans)?,
            shown: Vec::new(alloc),
        })
    }

    /// The spans of these entries, each of which shows what is at its number.
    pub fn of(entries: Vec<SpanEntry>, shown: Vec<Shown>) -> SpanList
        requires few { length shown.items ≤ length entries.items }
        requires within { All (λ (entry : EntryValue). entry.shown < length shown.items) entries.items }
        ensures { result ≡ map (span_of shown.items) entries.items }
    {
        SpanList { entries, shown }
    }

    /// Appends a span, which shares what the number has, where that is what it shows. The result is the
    /// number of what it shows. There are fewer spans than ticks of a round.
    ///
    /// Fails only when memory runs out.
    pub fn push(&mut self, span: FullSpan, number: u32) -> Result<u32, AllocError>
        requires { length self.old < ROUND }
        ensures { OnOk result (self.new ≡ self.old ++ span ∷ []) }
    {
        let FullSpan {
            owner,
            away,
            sharers,
            end,
        } = span;
        let show = Shown {
            owner,
            away,
            sharers,
        };
        if shows(&self.shown, number, &show) {
            self.entries.push(SpanEntry { end, shown: number })?;
            return Ok(number);
        }
        let shown = self.shown.len() as u32;
        self.shown.reserve(1)?;
        self.entries.push(SpanEntry { end, shown })?;
        self.shown.push_reserved(show);
        Ok(shown)
    }

    /// Gives back the room that no span takes.
    pub fn shrink(&mut self)
        ensures { self.new ≡ self.old }
    {
        self.entries.shrink_to_fit();
        self.shown.shrink_to_fit();
    }

    /// How many spans there are.
    pub fn len(&self) -> usize
        ensures { result ≡ length self.now }
    {
        self.entries.len()
    }

    /// The tick of the round that ends the span of this number, which is below the count.
    pub fn end(&self, number: usize) -> u32
        requires { number < length self.now }
        ensures { result ≡ slice_index (ends_of self.now) number }
    {
        self.entries[number].end
    }

    /// The span of this number, which is below the count, without its sharers.
    pub fn spot(&self, number: usize) -> Spot
        requires { number < length self.now }
        ensures { (span : FullSpan) → slice_get self.now number ≡ Some span
            → (result.owner ≡ span.owner) × (result.away ≡ span.away) × (result.end ≡ span.end) }
    {
        let entry = self.entries[number];
        let shown = &self.shown[entry.shown as usize];
        Spot {
            owner: shown.owner,
            away: shown.away.copy(),
            end: entry.end,
        }
    }

    /// The span of this number, which is below the count, without the vCPUs away.
    pub fn span(&self, number: usize) -> Span<'_>
        requires { number < length self.now }
        ensures { (span : FullSpan) → slice_get self.now number ≡ Some span
            → (result.owner ≡ span.owner) × (result.sharers.now ≡ span.sharers) × (result.end ≡ span.end) }
    {
        let entry = self.entries[number];
        let shown = &self.shown[entry.shown as usize];
        Span {
            owner: shown.owner,
            sharers: &shown.sharers,
            end: entry.end,
        }
    }
}

// Whether this is shown at the number.
fn shows(shown: &[Shown], number: u32, show: &Shown) -> bool
    ensures { IsTrue result → (number < length shown.now) × (shown_at shown.now number ≡ show.now) }
{
    let at = number as usize;
    at < shown.len() && is_same(&shown[at], show)
}

fn is_same(a: &Shown, b: &Shown) -> bool
    ensures { IsTrue result → a.now ≡ b.now }
{
    a.owner == b.owner && a.away.same(&b.away) && a.sharers.same(&b.sharers)
}
