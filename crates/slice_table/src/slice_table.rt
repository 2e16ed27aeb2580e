ghost use Rattle.std.specs.Prelude.{◌≡◌, ◌+◌, ◌^◌, ◌<◌, ◌≤◌, ℕ, IfOk, false, length, true};
ghost use Rattle.tab_core.specs.declared.TheConstants.{ROUND};
ghost use Rattle.table_form.specs.Tables.Plans.{PlanView};
ghost use Rattle.table_form.specs.Tables.Spans.{IsSpan};
ghost use Rattle.table_form.specs.Tables.Spots.{HasSpans, IsSpot};
ghost use Rattle.table_form.specs.Tables.Views.{plan_view};
ghost use Rattle.slice_table.specs.Owners.{AreRowOwners};
ghost use Rattle.slice_table.specs.Slices.{AreSlices, HoldsTick, IsShortest, IsTableOf, MeetsTwo, ends_of};

use crate::owners::RowOwners;
use crate::slice_list::SliceList;
use crate::slices::{shortest, slices_of};
use crate::span_list::SpanList;
use crate::sweep::spans_of;
use std::alloc::Global;
use std::marker::Model;
use std::sync::ledger::Ledger;
use tab_core::{CoreNo, NoMemory, Steps};
use table_form::{Plan, Span, Spot};

/// A table of a core's spans, in which the one that holds a tick of the round is found at once.
///
/// The round is cut into slices of the length of the shortest span, and for each slice the number of
/// the first span that it meets is kept. Contracts see the list of the spans.
#[derive(Drop)]
pub struct SliceTable {
    spans: SpanList,
    slices: SliceList,
    size: u32,
}

impl Model for SliceTable {
    ghost use Rattle.std.specs.Prelude.{List};
    ghost use Rattle.slice_table.specs.declared.full_span.FullSpan.{FullSpan};
    ghost use Rattle.slice_table.specs.Inside.Spans.{IsSliced};
    ghost use Rattle.slice_table.specs.Slices.{ends_of};

    ghost Value = { List FullSpan };

    ghost view = { λ table. table.spans };

    ghost invariant = { λ table. IsSliced table.size table.slices (ends_of table.spans) };
}

impl SliceTable {
    /// The table of the core's spans in the plan, which has a row for the core. Fails only when memory
    /// runs out.
    pub fn build(alloc: Global, plan: &Plan, core: CoreNo) -> Result<SliceTable, NoMemory>
        requires { core < length plan.now.tables.rows }
        ensures { IfOk result (λ table. IsTableOf (plan_view plan.now) core table) }
    {
        let owners = RowOwners::of(alloc, plan)?;
        SliceTable::build_with(alloc, plan, &owners, core)
    }

    /// The table of the core's spans in the plan as `build` makes it, where the owners in the plan's
    /// rows are known. Fails only when memory runs out.
    pub fn build_with(
        alloc: Global,
        plan: &Plan,
        owners: &RowOwners,
        core: CoreNo,
    ) -> Result<SliceTable, NoMemory>
        requires core { core < length plan.now.tables.rows }
        requires owners { AreRowOwners (plan_view plan.now) owners.now }
        ensures { IfOk result (λ table. IsTableOf (plan_view plan.now) core table) }
    {
        let spans = spans_of(alloc, plan, owners, core)?;
        let size = shortest(&spans);
        let slices = slices_of(alloc, &spans, size)?;
        Ok(SliceTable {
            spans,
            slices,
            size,
        })
    }

    /// What this place of the core's row shows, as `Plan::spot` finds it, in three steps. The tick is
    /// one of a round, below 102,600.
    pub fn look_up<L: Ledger>(&self, tick: u32, steps: &mut Steps<L>) -> Spot
        requires { tick < ROUND }
        ensures spot { (plan : PlanView) (c : ℕ) → IsTableOf plan c self.now → IsSpot plan c tick result }
        ensures steps { steps.new ≡ steps.old + 3 }
    {
        let number = self.number_at(tick, steps);
        self.spans.spot(number)
    }

    /// The span of the core's row that holds this tick of a round, below 102,600, in three steps: the
    /// owner, the end, and who may share the time that the owner leaves, in place of who is away.
    pub fn span_at<L: Ledger>(&self, tick: u32, steps: &mut Steps<L>) -> Span<'_>
        requires { tick < ROUND }
        ensures after { tick < result.end }
        ensures within { result.end ≤ ROUND }
        ensures span { (plan : PlanView) (c : ℕ) → IsTableOf plan c self.now
            → IsSpan plan c tick result.owner result.sharers.now result.end }
        ensures steps { steps.new ≡ steps.old + 3 }
    {
        let number = self.number_at(tick, steps);
        self.numbered(number, tick)
    }

    /// The span of this number, which holds this tick of a round: for a caller that goes from span to span. The span also
    /// holds each later tick before its end, and the next one holds its end, where the round isn't over then.
    ///
    /// `tick` is for the proof alone.
    #[inline(always)]
    pub fn numbered(&self, number: usize, tick: u32) -> Span<'_>
        requires { HoldsTick (ends_of self.now) number tick }
        ensures after { tick < result.end }
        ensures within { result.end ≤ ROUND }
        ensures small { number < ROUND }
        ensures later { (t : ℕ) → tick ≤ t → t < result.end → HoldsTick (ends_of self.now) number t }
        ensures next { result.end < ROUND → HoldsTick (ends_of self.now) (number + 1) result.end }
        ensures span { (plan : PlanView) (c : ℕ) → IsTableOf plan c self.now
            → IsSpan plan c tick result.owner result.sharers.now result.end }
    {
        let _ = tick;
        self.spans.span(number)
    }

    // Whether there is a span of the number, and it holds the tick.
    #[inline(always)]
    pub(crate) fn holds(&self, number: usize, tick: u32) -> bool
        ensures holds { result ≡ true → HoldsTick (ends_of self.now) number tick }
        ensures small { result ≡ true → number < 2 ^ 32 }
        ensures misses { result ≡ false → HoldsTick (ends_of self.now) number tick → ⊥ }
    {
        number < self.spans.len()
            && tick < self.spans.end(number)
            && (number == 0 || self.spans.end(number - 1) <= tick)
    }

    /// How many ticks each slice has: as many as the shortest span.
    pub fn slice_length(&self) -> u32
        ensures { IsShortest result (ends_of self.now) }
    {
        self.size
    }

    /// For each slice the number of the first span that it meets; it meets that one and the next at most. The last slice
    /// may end beyond the round.
    pub fn slices(&self) -> &SliceList
        ensures slices { (ticks : ℕ) → IsShortest ticks (ends_of self.now)
            → AreSlices ticks result.now (ends_of self.now) }
        ensures two { (ticks tick : ℕ) → IsShortest ticks (ends_of self.now) → tick < ROUND
            → MeetsTwo ticks result.now (ends_of self.now) tick }
    {
        &self.slices
    }

    /// How many spans there are.
    pub fn spans(&self) -> u32
        ensures { (plan : PlanView) (c : ℕ) → IsTableOf plan c self.now → HasSpans plan c ROUND result }
    {
        self.spans.len() as u32
    }

    // The number of the span that holds the tick: the first that the tick's slice meets, or the next.
    pub(crate) fn number_at<L: Ledger>(&self, tick: u32, steps: &mut Steps<L>) -> usize
        requires { tick < ROUND }
        ensures holds { HoldsTick (ends_of self.now) result tick }
        ensures small { result < 2 ^ 32 }
        ensures steps { steps.new ≡ steps.old + 3 }
    {
        steps.tell();
        let slice = (tick / self.size) as usize;
        steps.tell();
        let first = self.slices.number(slice) as usize;
        steps.tell();
        if tick < self.spans.end(first) {
            first
        } else {
            first + 1
        }
    }
}
