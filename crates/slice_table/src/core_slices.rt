ghost use Rattle.std.specs.Prelude.{◌≡◌, ◌^◌, ◌<◌, ◌≤◌, IfOk, ℕ, Some, length, slice_get};
ghost use Rattle.tab_core.specs.declared.TheConstants.{ROUND};
ghost use Rattle.table_form.specs.Running.Courses.{plan_number_after};
ghost use Rattle.table_form.specs.Tables.Plans.{PlanView};
ghost use Rattle.table_form.specs.Tables.Spans.{IsSpan};
ghost use Rattle.slice_table.specs.CoreSlices.{AreSlicesOf};
ghost use Rattle.slice_table.specs.Owners.{AreCourseOwners};
ghost use Rattle.slice_table.specs.Slices.{HoldsTick, IsTableOf, ends_of};

use crate::owners::{RowOwners, course_owners};
use crate::slice_table::SliceTable;
use std::alloc::Global;
use std::marker::{Brand, Model};
use std::sync::ledger::{Blank, Ledger};
use tab_core::{CoreNo, NoMemory, Steps};
use table_form::{Course, Span};

/// A core's slice tables, one for each plan of a course. Contracts see each as the list of its spans.
///
/// It borrows no course, so it can go to another thread.
#[derive(Drop)]
pub struct CoreSlices {
    tables: Vec<SliceTable>,
}

impl Model for CoreSlices {
    ghost use Rattle.std.specs.Prelude.{List};
    ghost use Rattle.slice_table.specs.declared.full_span.FullSpan.{FullSpan};

    ghost Value = { List (List FullSpan) };

    ghost view = { λ slices. slices.tables.items };
}

impl CoreSlices {
    /// The core's tables of the course's plans. Fails only when memory runs out.
    pub fn make(alloc: Global, course: &Course, core: CoreNo) -> Result<CoreSlices, NoMemory>
        requires { core < course.now.cores }
        ensures { IfOk result (λ slices. AreSlicesOf course.now core slices) }
    {
        let owners = course_owners(alloc, course)?;
        CoreSlices::make_with(alloc, course, &owners, core)
    }

    /// The core's tables of the course's plans as `make` makes them, where the owners in the rows of
    /// these plans are known: those of each plan, in the order of the plans.
    ///
    /// Fails only when memory runs out.
    pub fn make_with(
        alloc: Global,
        course: &Course,
        owners: &[RowOwners],
        core: CoreNo,
    ) -> Result<CoreSlices, NoMemory>
        requires core { core < course.now.cores }
        requires owners { AreCourseOwners course.now owners.now }
        ensures { IfOk result (λ slices. AreSlicesOf course.now core slices) }
    {
        let mut tables = Vec::new(alloc);
        for number in 0..course.plans() {
            let plan = course.plan(number);
            let owners = &owners[number as usize];
            tables.push(SliceTable::build_with(alloc, plan, owners, core)?)?;
        }
        Ok(CoreSlices { tables })
    }

    /// The table of the plan after the first `used` events. The course has so many events, and the
    /// tables are those of its plans.
    pub fn table_after(&self, course: &Course, used: u32) -> &SliceTable
        requires count { length self.now ≡ length course.now.plans }
        requires used { used ≤ length course.now.ticks }
        ensures { slice_get self.now (plan_number_after course.now used) ≡ Some result.now }
    {
        let number = course.plan_number(used);
        &self.tables[number as usize]
    }
}

impl SliceTable {
    /// The span of the core's row that holds this tick of a round, below 102,600, as `span_at` finds
    /// it. No steps are counted.
    pub fn span(&self, tick: u32) -> Span<'_>
        requires { tick < ROUND }
        ensures after { tick < result.end }
        ensures within { result.end ≤ ROUND }
        ensures span { (plan : PlanView) (c : ℕ) → IsTableOf plan c self.now
            → IsSpan plan c tick result.owner result.sharers.now result.end }
    {
        let number = self.number_of(tick);
        self.numbered(number, tick)
    }

    /// The number of the span of the core's row that holds this tick of a round, below 102,600. It is sought at the guess and
    /// after it first, and doesn't depend on it.
    #[inline(always)]
    pub fn number_near(&self, tick: u32, guess: usize) -> usize
        requires tick { tick < ROUND }
        requires small { guess < 2 ^ 32 }
        ensures holds { HoldsTick (ends_of self.now) result tick }
        ensures small { result < 2 ^ 32 }
    {
        if self.holds(guess, tick) {
            return guess;
        }
        self.number_sought(tick, guess)
    }

    // The number of the span that holds the tick, where the guess is wrong. It is a function of its own, so that
    // the way of a right guess is short.
    #[cold]
    #[inline(never)]
    fn number_sought(&self, tick: u32, guess: usize) -> usize
        requires tick { tick < ROUND }
        requires small { guess < 2 ^ 32 }
        ensures holds { HoldsTick (ends_of self.now) result tick }
        ensures small { result < 2 ^ 32 }
    {
        if self.holds(guess + 1, tick) {
            return guess + 1;
        }
        self.number_of(tick)
    }

    // The number of the span that holds the tick, where nobody counts the steps.
    fn number_of(&self, tick: u32) -> usize
        requires { tick < ROUND }
        ensures holds { HoldsTick (ends_of self.now) result tick }
        ensures small { result < 2 ^ 32 }
    {
        number_by::<Brand>(self, tick, Blank::new(1))
    }
}

// The number of the span that holds the tick, with a counter of steps that is made for this call.
fn number_by<L: Ledger>(table: &SliceTable, tick: u32, blank: Blank) -> usize
    requires tick { tick < ROUND }
    requires name { blank.name ≡ L.name }
    requires parts { (blank.parts ≡ L.parts) × (0 < L.parts) }
    ensures holds { HoldsTick (ends_of table.now) result tick }
    ensures small { result < 2 ^ 32 }
{
    let mut steps = Steps::<L>::new(blank);
    let number = table.number_at(tick, &mut steps);
    number
}
