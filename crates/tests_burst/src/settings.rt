//! A course as plain numbers: sets of vCPUs as the bits of a word, since hosts here have at most 64 vCPUs. No search
//! of the product is asked.

use script_doc::{Act, Event};
use std::alloc::Global;
use tab_core::{Host, NoMemory, Periodic, ROUND, VcpuNo};
use table_form::{CoreTable, Course};
use tests_samples::{bit, capped_of};

// The bit of a vCPU, which nobody has none of.
pub(crate) fn bit_of(vcpu: Option<VcpuNo>) -> u64 {
    match vcpu {
        None => 0,
        Some(vcpu) => bit(vcpu.index() as u32),
    }
}

// What a plan says: the budgets by vCPU, and who is on two cores.
#[derive(Drop)]
pub(crate) struct Budgets {
    pub(crate) tasks: Vec<Option<Periodic>>,
    pub(crate) split: u64,
}

// What is known of a course: the rounds that are run, the capped vCPUs, by plan number its budgets, and by count of
// first events the number of the plan and the runnable vCPUs.
#[derive(Drop)]
pub(crate) struct Setting {
    pub(crate) rounds: u32,
    pub(crate) capped: u64,
    pub(crate) plans: Vec<Budgets>,
    pub(crate) numbers: Vec<u32>,
    pub(crate) runnable: Vec<u64>,
}

impl Setting {
    // The number of the plan in a round, by the used counts of the rounds.
    pub(crate) fn number_in(&self, used: &[u32], round: u32) -> Option<u32> {
        let count = *used.get(round as usize)?;
        Some(*self.numbers.get(count as usize)?)
    }

    // The vCPU's budget in a round, if it has one.
    pub(crate) fn budget_in(&self, used: &[u32], round: u32, vcpu: VcpuNo) -> Option<Periodic> {
        let number = self.number_in(used, round)?;
        let plan = self.plans.get(number as usize)?;
        *plan.tasks.get(vcpu.index())?
    }

    // The end of the run, in ticks.
    pub(crate) fn end(&self) -> u32 {
        self.rounds.saturating_mul(ROUND)
    }
}

// Who is runnable is said by the events alone, and who is capped by the host.
pub(crate) fn setting_of(
    alloc: Global,
    rounds: u32,
    host: &Host,
    events: &[Event],
    course: &Course,
) -> Result<Setting, NoMemory> {
    let mut plans = Vec::new(alloc);
    let mut numbers = Vec::new(alloc);
    for number in 0..course.plans() {
        let plan = course.plan(number);
        plans.push(Budgets {
            tasks: Vec::from_slice(alloc, plan.tasks.items())?,
            split: split_in(plan.tables.rows.items()),
        })?;
    }
    for count in 0..course.count() + 1 {
        numbers.push(course.plan_number(count))?;
    }
    Ok(Setting {
        rounds,
        capped: capped_of(host),
        plans,
        numbers,
        runnable: runnable_sets(alloc, host, events)?,
    })
}

// Who is in the rows of two cores.
fn split_in(rows: &[CoreTable]) -> u64 {
    let mut met = 0;
    let mut split = 0;
    for row in rows {
        let own = owners_of(row);
        split |= met & own;
        met |= own;
    }
    split
}

fn owners_of(row: &CoreTable) -> u64 {
    let mut own = 0;
    for segment in row.segments() {
        own |= bit_of(segment.owner.vcpu());
    }
    own
}

fn runnable_at_first(host: &Host) -> u64 {
    let mut runnable = 0;
    let mut own: u64 = 1;
    for vcpu in host.vcpus.items() {
        if vcpu.runnable {
            runnable |= own;
        }
        own = own.wrapping_mul(2);
    }
    runnable
}

fn runnable_sets(alloc: Global, host: &Host, events: &[Event]) -> Result<Vec<u64>, NoMemory> {
    let mut runnable = runnable_at_first(host);
    let mut sets = Vec::new(alloc);
    sets.push(runnable)?;
    for event in events {
        runnable = after_act(runnable, &event.act);
        sets.push(runnable)?;
    }
    Ok(sets)
}

fn after_act(runnable: u64, act: &Act) -> u64 {
    match act {
        Act::Wake(vcpu) => runnable | bit(vcpu.index() as u32),
        Act::Block(vcpu) => runnable & !bit(vcpu.index() as u32),
        Act::Change(_) | Act::Burst { .. } => runnable,
    }
}
