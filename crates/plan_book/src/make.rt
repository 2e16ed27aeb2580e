ghost use Rattle.std.specs.Prelude.{◌≡◌, ◌≤◌, ℕ, IfErr, IfOk, IsErr, IsErrOf, List, Ok, Option, length};
ghost use Rattle.tab_core.specs.declared.TheConstants.{MAX_ROUNDS};
ghost use Rattle.tab_core.specs.declared.over.Over.{Over};
ghost use Rattle.tab_core.specs.declared.periodic.Periodic.{Periodic};
ghost use Rattle.table_form.specs.Running.Courses.{FitsRounds, plan_after};
ghost use Rattle.table_form.specs.Tables.Plans.{IsPlanFor, PlanView};
ghost use Rattle.period_choice.specs.Tasks.{AreTasksOf, IsFirstWithoutPeriod};
ghost use Rattle.worst_fit.specs.Bound.{IsWithinBound};
ghost use Rattle.plan_make.specs.Planned.{IsFirstWithoutRoom, IsPlanned};
ghost use Rattle.script_doc.specs.Script.{AreInRun, AreWithin, changes_in};
ghost use Rattle.plan_book.specs.After.{IsKnownAfter};
ghost use Rattle.plan_book.specs.Books.{IsBookOf, NameVcpusBelow};
ghost use Rattle.plan_book.specs.Courses.{ticks_of};
ghost use Rattle.plan_book.specs.Inside.Making.{BookInvariant, IsBookMade};
ghost use Rattle.plan_book.specs.Mades.{AreMadeOf, IsMadeOf};
ghost use Rattle.plan_book.specs.States.{BookState};

use crate::book::PlanBook;
use crate::book_so_far::BookSoFar;
use crate::counts::Counts;
use crate::fault::BookFault;
use crate::outcome::Outcome;
use plan_make::{PlanFault, plan};
use script_doc::{Event, Script};
use std::alloc::Global;
use tab_core::{Host, NoMemory};
use table_form::{Course, Plan};

/// The plan book of a host and a script, whose vCPUs are the host's.
///
/// A wake or a block sets the runnable flag of its vCPU, and a burst changes nothing. A change is planned for the host after
/// all planned changes before it: where the changed host has a plan, the host and its plan become
/// these, and otherwise nothing changes and the outcome tells why. An outcome names only a vCPU of
/// the host.
///
/// But when memory runs out, `NoPeriod` comes exactly where a vCPU of the host itself has no
/// period, and `NoRoom` exactly where each has one but one has no room. Running out of memory in
/// planning a change ends the whole call by `NoMemory`, and never refuses that change.
pub fn make_book(alloc: Global, host: &Host, script: &Script) -> Result<PlanBook, BookFault>
    requires { AreWithin (length host.now.vcpus) script.now }
    ensures ok { IfOk result (IsBookOf host.now script.now) }
    ensures known { IfOk result (λ _. (n : ℕ) → n ≤ length script.now
        → (known : BookState) × IsKnownAfter host.now script.now n known) }
    ensures only { IfOk result (λ _. (n : ℕ) (known other : BookState)
        → IsKnownAfter host.now script.now n known → IsKnownAfter host.now script.now n other
        → other ≡ known) }
    ensures changes { IfOk result (λ book. length book.outcomes ≡ changes_in script.now) }
    ensures named { IfOk result (λ book. NameVcpusBelow (length host.now.vcpus) book.outcomes) }
    ensures fits_host { IfOk result (λ _. (n : ℕ) (known : BookState)
        → IsKnownAfter host.now script.now n known → IsPlanFor known.host known.plan) }
    ensures planned_after { IfOk result (λ _. (n : ℕ) (known : BookState)
        → IsKnownAfter host.now script.now n known → IsPlanned known.host known.plan) }
    ensures chosen { IfOk result (λ book. (n : ℕ) (known : BookState)
        → IsKnownAfter host.now script.now n known
        → AreTasksOf known.host (plan_after book.course n).tasks) }
    ensures vcpus { IfOk result (λ book. (n : ℕ) → n ≤ length script.now
        → length (plan_after book.course n).tasks ≡ length host.now.vcpus) }
    ensures rounds { IfOk result (λ book. (rounds : ℕ) → 1 ≤ rounds → rounds ≤ MAX_ROUNDS
        → AreInRun rounds script.now → FitsRounds book.course rounds) }
    ensures no_period { (vcpu : ℕ) → IsErrOf result (PlanFault.NoPeriod vcpu)
        → IsFirstWithoutPeriod host.now vcpu }
    ensures no_room { (vcpu rest : ℕ) (over : List Over) → IsErrOf result (PlanFault.NoRoom vcpu rest over)
        → IsFirstWithoutRoom host.now vcpu rest over }
    ensures without_period { (vcpu : ℕ) → IsFirstWithoutPeriod host.now vcpu → IsErr result }
    ensures without_room { (vcpu rest : ℕ) (over : List Over) → IsFirstWithoutRoom host.now vcpu rest over
        → IsErr result }
    ensures bound { (tasks : List (Option Periodic)) → AreTasksOf host.now tasks
        → IsWithinBound tasks host.now.cores → IfErr result (λ fault. fault ≡ PlanFault.NoMemory) }
    ensures planned { (plan : PlanView) → IsPlanned host.now plan
        → IfErr result (λ fault. fault ≡ PlanFault.NoMemory) }
{
    let first = plan(alloc, host)?;
    Ok(book_of(alloc, host, script, first, &mut [])?)
}

/// The book of a host and a script, where the host's plan is known, and of some changes what was made of them:
/// the plan of the host that the change makes, or the outcome of its refusal, at the place of the change's
/// number. Every other change is planned here. What is made use of is taken from its place.
///
/// Fails only when memory runs out.
pub fn make_book_with(
    alloc: Global,
    host: &Host,
    script: &Script,
    first: Plan,
    made: &mut [Option<Result<Plan, Outcome>>],
) -> Result<PlanBook, NoMemory>
    requires within { AreWithin (length host.now.vcpus) script.now }
    requires first { IsMadeOf host.now (Ok first) }
    requires made { AreMadeOf host.now script.now made.old }
    ensures ok { IfOk result (IsBookOf host.now script.now) }
    ensures changes { IfOk result (λ book. length book.outcomes ≡ changes_in script.now) }
    ensures vcpus { IfOk result (λ book. (n : ℕ) → n ≤ length script.now
        → length (plan_after book.course n).tasks ≡ length host.now.vcpus) }
{
    let book = book_of(alloc, host, script, first, made)?;
    Ok(book)
}

// The book of what is known after each count of the events.
fn book_of(
    alloc: Global,
    host: &Host,
    script: &Script,
    first: Plan,
    made: &mut [Option<Result<Plan, Outcome>>],
) -> Result<PlanBook, NoMemory>
    requires within { AreWithin (length host.now.vcpus) script.now }
    requires first { IsMadeOf host.now (Ok first) }
    requires made { AreMadeOf host.now script.now made.old }
    ensures { IfOk result (IsBookMade host.now script.now) }
{
    let (so_far, counts) = known_at_end(alloc, host, script, first, made)?;
    let ticks = ticks_in(alloc, script.events())?;
    let course = Course::of(
        host.cores,
        host.lag,
        host.quantum,
        ticks,
        so_far.plans,
        counts.numbers,
        counts.runnable,
    );
    Ok(PlanBook::of(course, so_far.outcomes))
}

// What is known after the last event, and the plan's number and the runnable vCPUs after each count of events.
fn known_at_end(
    alloc: Global,
    host: &Host,
    script: &Script,
    first: Plan,
    made: &mut [Option<Result<Plan, Outcome>>],
) -> Result<(BookSoFar, Counts), NoMemory>
    requires within { AreWithin (length host.now.vcpus) script.now }
    requires first { IsMadeOf host.now (Ok first) }
    requires made { AreMadeOf host.now script.now made.old }
    ensures { IfOk result (λ r. BookInvariant host.now script.now (length script.now) r.0
        r.1.numbers.items r.1.runnable.items) }
{
    let (mut so_far, mut counts) = known_at_first(alloc, host, script, first)?;
    for event in script.events() {
        so_far.apply(alloc, &event.act, made)?;
        counts.add(&so_far)?;
    }
    Ok((so_far, counts))
}

// What is known before the first event, with room for what is known after each.
fn known_at_first(
    alloc: Global,
    host: &Host,
    script: &Script,
    first: Plan,
) -> Result<(BookSoFar, Counts), NoMemory>
    requires { IsMadeOf host.now (Ok first) }
    ensures { IfOk result (λ r. BookInvariant host.now script.now 0 r.0 r.1.numbers.items
        r.1.runnable.items) }
{
    let so_far = BookSoFar::start(alloc, host, first)?;
    let mut counts = Counts::with_room(alloc, script.events().len() + 1)?;
    counts.add(&so_far)?;
    Ok((so_far, counts))
}

/// The ticks of the events, in their order. Fails only when memory runs out.
pub fn ticks_in(alloc: Global, events: &[Event]) -> Result<Vec<u32>, NoMemory>
    ensures { IfOk result (λ ticks. ticks.items ≡ ticks_of events.now) }
{
    let mut ticks = Vec::with_capacity(alloc, events.len())?;
    for event in events {
        ticks.push(event.tick)?;
    }
    Ok(ticks)
}
