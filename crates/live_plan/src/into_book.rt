ghost use Rattle.std.specs.Prelude.{◌≡◌, ◌<◌, ◌≤◌, ℕ, IfOk, IfSome, length};
ghost use Rattle.table_form.specs.Running.Courses.{plan_after};
ghost use Rattle.table_form.specs.Tables.Views.{plan_view};
ghost use Rattle.script_doc.specs.Script.{AreWithin, changes_in};
ghost use Rattle.plan_book.specs.Books.{IsBookOf};
ghost use Rattle.live_plan.specs.Books.{IsLive, IsLiveBookOf};
ghost use Rattle.live_plan.specs.Finding.{IsFoundOf};
ghost use Rattle.live_plan.specs.Inside.Cells.{IsCellShelfOf};
ghost use Rattle.live_plan.specs.Inside.Outcomes.{AreOutcomesOf, IsOutcomeOf, IsSameButCells};

use crate::book::LiveBook;
use crate::cell_shelf::CellShelf;
use crate::made::Found;
use crate::plan_copy::copy_of_plan;
use crate::shelf::Shelf;
use once_cell::race::OnceBox;
use plan_book::{Outcome, PlanBook, make_book_with};
use script_doc::Script;
use std::alloc::Global;
use tab_core::{Host, NoMemory};
use table_form::Plan;

impl LiveBook {
    /// The plan book of the host and the script whose live book this is. The host's plan is moved into it. What was
    /// made of a change is copied, and let go at once, so that only a change whose cell has nothing for it, or out
    /// of memory, is planned here.
    ///
    /// Fails only when memory runs out.
    pub fn into_book(
        mut self,
        alloc: Global,
        host: &Host,
        script: &Script,
    ) -> Result<PlanBook, NoMemory>
        requires live { IsLiveBookOf host.now script.now self }
        requires within { AreWithin (length host.now.vcpus) script.now }
        ensures ok { IfOk result (IsBookOf host.now script.now) }
        ensures changes { IfOk result (λ book. length book.outcomes ≡ changes_in script.now) }
        ensures vcpus { IfOk result (λ book. (n : ℕ) → n ≤ length script.now
            → length (plan_after book.course n).tasks ≡ length host.now.vcpus) }
    {
        let mut made = outcomes_in(alloc, &mut self)?;
        let plan = self.into_plan();
        make_book_with(alloc, host, script, plan, &mut made)
    }

    // The host's plan, without the rest. What every live book keeps holds of it.
    fn into_plan(self) -> Plan
        ensures plan { plan_view result ≡ self.plan }
        ensures kept { IsLive self }
    {
        let LiveBook {
            host: _,
            plan,
            outline: _,
            changes: _,
            counts: _,
            cells: _,
        } = self;
        plan
    }

    // Lets go of what is in the change's cell.
    fn empty_cell(&mut self, alloc: Global, change: u32)
        requires { change < length self.old.changes }
        ensures { IsSameButCells self.old self.new }
    {
        self.cells[change as usize] = OnceBox::new(alloc);
    }
}

// What was made of each change, once more, where something was. The cells let go of it.
fn outcomes_in(
    alloc: Global,
    book: &mut LiveBook,
) -> Result<Vec<Option<Result<Plan, Outcome>>>, NoMemory>
    ensures same { IsSameButCells book.old book.new }
    ensures made { IfOk result (λ made. AreOutcomesOf book.old made.items) }
{
    let count = book.changes().len();
    let mut made = Vec::with_capacity(alloc, count)?;
    for change in 0..count {
        let next = take_outcome(alloc, book, change as u32)?;
        made.push(next)?;
    }
    Ok(made)
}

// What was made of a change, once more, if something was. Its cell lets go of it.
fn take_outcome(
    alloc: Global,
    book: &mut LiveBook,
    change: u32,
) -> Result<Option<Result<Plan, Outcome>>, NoMemory>
    requires { change < length book.old.changes }
    ensures same { IsSameButCells book.old book.new }
    ensures outcome { IfOk result (λ made. IfSome made (IsOutcomeOf book.old change)) }
{
    let mut shelf = CellShelf::of(book);
    let outcome = outcome_in(alloc, book, &mut shelf, change)?;
    book.empty_cell(alloc, change);
    Ok(outcome)
}

// What was made of a change, once more, if something was.
fn outcome_in(
    alloc: Global,
    book: &LiveBook,
    shelf: &mut CellShelf,
    change: u32,
) -> Result<Option<Result<Plan, Outcome>>, NoMemory>
    requires book { IsCellShelfOf book.now shelf.old }
    requires change { change < length book.now.changes }
    ensures book { IsCellShelfOf book.now shelf.new }
    ensures outcome { IfOk result (λ made. IfSome made (IsOutcomeOf book.now change)) }
{
    match shelf.look(book, change) {
        None => Ok(None),
        Some(made) => outcome_of(alloc, book, change, made.found()),
    }
}

// The plan that was found, once more, or the outcome, but when memory runs out. `book` and `change` are for the
// proof alone.
fn outcome_of(
    alloc: Global,
    book: &LiveBook,
    change: u32,
    found: &Found,
) -> Result<Option<Result<Plan, Outcome>>, NoMemory>
    requires { IsFoundOf book.now.host book.now.changes change found.now }
    ensures { IfOk result (λ made. IfSome made (IsOutcomeOf book.now change)) }
{
    let _ = book;
    let _ = change;
    match found {
        Found::Planned { plan, .. } => Ok(Some(Ok(copy_of_plan(alloc, plan)?))),
        Found::Refused { outcome } => Ok(Some(Err(*outcome))),
        Found::NoMemory => Ok(None),
    }
}
