ghost use Rattle.std.specs.Prelude.{◌≡◌, ◌⊎◌, ◌<◌, ◌^◌, [], ◌∷◌, ◌++◌, IfOk, IfSome, Ok, OnOk, Some, length, slice_get};
ghost use Rattle.tab_core.specs.Edits.{AreEditsOf, IsEdited};
ghost use Rattle.tab_core.specs.declared.host.Host.{Host as HostValue};
ghost use Rattle.table_form.specs.Tables.Plans.{IsPlanFor};
ghost use Rattle.table_form.specs.Tables.Views.{plan_view};
ghost use Rattle.period_choice.specs.Tasks.{AreTasksOf};
ghost use Rattle.script_doc.specs.Events.{IsActWithin};
ghost use Rattle.plan_book.specs.After.{Applies};
ghost use Rattle.plan_book.specs.Changes.{IsChangeRefused, IsChangeTaken};
ghost use Rattle.plan_book.specs.Inside.Making.{AreLeft, IsNextMade, KeepsPlans, known_of};
ghost use Rattle.plan_book.specs.Mades.{IsMadeOf};
ghost use Rattle.plan_book.specs.States.{IsKnownAtFirst};

use crate::outcome::Outcome;
use crate::planning::planned_after;
use script_doc::Act;
use std::alloc::Global;
use tab_core::{Edit, Host, NoMemory, VcpuSet};
use table_form::Plan;

// What is known after some events: the host, the plans up to its own, which is the last, the
// runnable vCPUs, and the outcome of each change.
#[derive(Drop)]
pub(crate) struct BookSoFar {
    pub(crate) host: Host,
    pub(crate) plans: Vec<Plan>,
    pub(crate) runnable: VcpuSet,
    pub(crate) outcomes: Vec<Outcome>,
}

impl BookSoFar {
    // What is known before the first event of a host with this plan.
    pub(crate) fn start(alloc: Global, host: &Host, plan: Plan) -> Result<BookSoFar, NoMemory>
        requires { IsMadeOf host.now (Ok plan) }
        ensures first { IfOk result (λ so_far. IsKnownAtFirst host.now (known_of so_far)) }
        ensures one_plan { IfOk result (λ so_far. length so_far.plans.items ≡ 1) }
        ensures fits { IfOk result (λ so_far. IsPlanFor so_far.host (known_of so_far).plan) }
    {
        Ok(BookSoFar {
            host: host.copy(alloc)?,
            plans: only(alloc, plan)?,
            runnable: host.vcpus.runnable(),
            outcomes: Vec::new(alloc),
        })
    }

    // What is known after one event more. What was made of a change before is taken from its place.
    pub(crate) fn apply(
        &mut self,
        alloc: Global,
        act: &Act,
        made: &mut [Option<Result<Plan, Outcome>>],
    ) -> Result<(), NoMemory>
        requires some { 0 < length self.old.plans.items }
        requires tasks { AreTasksOf self.old.host (known_of self.old).plan.tasks }
        requires within { IsActWithin (length self.old.host.vcpus) act.now }
        requires made { IsNextMade (known_of self.old) act.now made.old }
        ensures left { AreLeft made.old made.new }
        ensures applies { OnOk result (Applies (known_of self.old) act.now (known_of self.new)) }
        ensures keeps_plans { OnOk result (KeepsPlans self.old.plans.items self.new.plans.items) }
        ensures fits { IsPlanFor self.old.host (known_of self.old).plan
            → OnOk result (IsPlanFor self.new.host (known_of self.new).plan) }
    {
        match act {
            Act::Wake(vcpu) => self.runnable.put(*vcpu),
            Act::Block(vcpu) => self.runnable.take(*vcpu),
            Act::Change(edits) => {
                let before = taken(made, self.outcomes.len());
                self.change(alloc, edits.items(), before)?;
            }
            Act::Burst { .. } => {}
        }
        Ok(())
    }

    // A change of reservations: its host and its plan, or why it is refused, which may have been made before.
    fn change(
        &mut self,
        alloc: Global,
        edits: &[Edit],
        before: Option<Result<Plan, Outcome>>,
    ) -> Result<(), NoMemory>
        requires some { 0 < length self.old.plans.items }
        requires tasks { AreTasksOf self.old.host (known_of self.old).plan.tasks }
        requires within { AreEditsOf (length self.old.host.vcpus) edits.now }
        requires before { IfSome before (λ made. (host : HostValue) → IsEdited self.old.host edits.now host
            → IsMadeOf host made) }
        ensures applies { OnOk result (IsChangeTaken (known_of self.old) edits.now (known_of self.new)
            ⊎ IsChangeRefused (known_of self.old) edits.now (known_of self.new)) }
        ensures keeps_plans { OnOk result (KeepsPlans self.old.plans.items self.new.plans.items) }
        ensures fits { IsPlanFor self.old.host (known_of self.old).plan
            → OnOk result (IsPlanFor self.new.host (known_of self.new).plan) }
    {
        let host = self.host.edited(alloc, edits)?;
        match self.made_of(alloc, &host, before)? {
            Ok(plan) => {
                self.take(host, plan)?;
                Ok(())
            }
            Err(outcome) => {
                self.outcomes.push(outcome)?;
                Ok(())
            }
        }
    }

    // What was made before of the host that a change makes, or else is made of it now.
    fn made_of(
        &self,
        alloc: Global,
        host: &Host,
        before: Option<Result<Plan, Outcome>>,
    ) -> Result<Result<Plan, Outcome>, NoMemory>
        requires some { 0 < length self.now.plans.items }
        requires tasks { AreTasksOf self.now.host (known_of self.now).plan.tasks }
        requires tick { self.now.host.tick_ns ≡ host.now.tick_ns }
        requires before { IfSome before (IsMadeOf host.now) }
        ensures { IfOk result (IsMadeOf host.now) }
    {
        match before {
            Some(made) => Ok(made),
            None => planned_after(alloc, host, &self.host, &self.plan().tasks),
        }
    }

    // The host's plan.
    fn plan(&self) -> &Plan
        requires { 0 < length self.now.plans.items }
        ensures { plan_view result.now ≡ (known_of self.now).plan }
    {
        &self.plans[self.plans.len() - 1]
    }

    // The host and its plan become these.
    fn take(&mut self, host: Host, plan: Plan) -> Result<(), NoMemory>
        ensures host { OnOk result (self.new.host ≡ host) }
        ensures plans { OnOk result (self.new.plans.items ≡ self.old.plans.items ++ plan ∷ []) }
        ensures runnable { OnOk result (self.new.runnable ≡ self.old.runnable) }
        ensures outcomes { OnOk result (self.new.outcomes.items ≡ self.old.outcomes.items
            ++ Outcome.Planned ∷ []) }
    {
        self.plans.push(plan)?;
        self.outcomes.push(Outcome::Planned)?;
        self.host = host;
        Ok(())
    }

    // The number of the host's plan.
    pub(crate) fn number(&self) -> u32
        requires some { 0 < length self.now.plans.items }
        requires few { length self.now.plans.items < 2 ^ 32 }
        ensures { result ≡ (known_of self.now).number }
    {
        (self.plans.len() - 1) as u32
    }
}

// What is at a place, if anything, which is taken away.
fn taken(made: &mut [Option<Result<Plan, Outcome>>], place: usize) -> Option<Result<Plan, Outcome>>
    ensures taken { IfSome result (λ m. slice_get made.old place ≡ Some (Some m)) }
    ensures left { AreLeft made.old made.new }
{
    if place < made.len() {
        made[place].take()
    } else {
        None
    }
}

fn only(alloc: Global, plan: Plan) -> Result<Vec<Plan>, NoMemory>
    ensures { IfOk result (λ plans. plans.items ≡ plan ∷ []) }
{
    let mut plans = Vec::new(alloc);
    plans.push(plan)?;
    Ok(plans)
}
