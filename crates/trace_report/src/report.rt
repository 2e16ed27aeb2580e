ghost use Rattle.std.specs.Prelude.{◌≡◌, ◌*◌, ◌<◌, ◌≤◌, ℕ, IfOk, Some, length, slice_get};
ghost use Rattle.tab_core.specs.declared.TheConstants.{MAX_CORES, MAX_ROUNDS, ROUND};
ghost use Rattle.run_counts.specs.Accounts.{IsWithin};
ghost use Rattle.trace_report.specs.RunReports.{HasRoom, IsAccountAdded, IsEmpty, IsFilled};

use crate::adding::{add_vcpus, core_ticks};
use crate::filling::{clear_cores, take_waits};
use crate::ticks::{CoreTicks, VcpuTicks};
use run_counts::{CoreAccount, RoundPlan, Stretch, count_waits, round_plans};
use std::alloc::Global;
use std::marker::Model;
use tab_core::{CoreNo, MAX_VCPUS, NoMemory};
use table_form::Course;

/// The report of a run: the rounds that begin with another plan, and what each vCPU and each core got.
///
/// All its memory is taken as it is made. Contracts see its three lists, its room for rounds, and how many
/// cores' accounts were added since it was filled.
#[derive(Drop)]
pub struct Report {
    plans: Vec<RoundPlan>,
    vcpus: Vec<VcpuTicks>,
    cores: Vec<CoreTicks>,
    added: u32,
    // what one round gives each vCPU, and the rounds so far
    round: Vec<Stretch>,
    run: Vec<Stretch>,
}

impl Model for Report {
    ghost use Rattle.std.specs.Prelude.{vec_capacity};
    ghost use Rattle.trace_report.specs.Inside.Sound.{IsSoundReport};
    ghost use Rattle.trace_report.specs.ReportViews.{ReportView, report_view};

    ghost Value = { ReportView };

    ghost view = { λ r. report_view r.plans.items r.vcpus.items r.cores.items
        (vec_capacity r.plans) r.added };

    ghost invariant = { λ r. IsSoundReport r.vcpus.items r.added r.round.items r.run.items };
}

impl Report {
    /// An empty report with room for so many rounds and for the vCPUs and cores of the course.
    ///
    /// Fails only when memory runs out.
    pub fn room(alloc: Global, course: &Course, rounds: u32) -> Result<Report, NoMemory>
        ensures room { IfOk result (λ report. HasRoom course.now rounds report) }
        ensures empty { IfOk result (λ report. IsEmpty report) }
    {
        let vcpus = course.plan_after(0).tasks.items().len();
        let cores = course.cores() as usize;
        Ok(Report {
            plans: Vec::with_capacity(alloc, rounds as usize)?,
            vcpus: vec![in alloc; VcpuTicks::none(); vcpus]?,
            cores: vec![in alloc; CoreTicks::none(); cores]?,
            added: 0,
            round: vec![in alloc; Stretch::none(); MAX_VCPUS as usize]?,
            run: vec![in alloc; Stretch::none(); MAX_VCPUS as usize]?,
        })
    }

    /// Counts the rounds of a run: the rounds that begin with another plan, and for each vCPU its offered
    /// ticks and its greatest gap. All else becomes 0. `used` has the count of each round.
    ///
    /// Takes no memory. The rules of offers and gaps are this project's.
    pub fn fill(&mut self, course: &Course, rounds: u32, used: &[u32])
        requires room { HasRoom course.now rounds self.old }
        requires few { rounds ≤ MAX_ROUNDS }
        requires each_round { length used.now ≡ rounds }
        requires counts { (r count : ℕ) → slice_get used.now r ≡ Some count
            → count ≤ length course.now.ticks }
        ensures filled { IsFilled course.now used.now self.new }
        ensures room { HasRoom course.now rounds self.new }
    {
        self.plans.clear();
        round_plans(course, used, &mut self.plans);
        count_waits(course, used, &mut self.round, &mut self.run);
        take_waits(&self.run, &mut self.vcpus);
        clear_cores(&mut self.cores);
        self.added = 0;
    }

    /// Adds a core's account: the core's numbers become its sums, and each vCPU's numbers rise by what it
    /// has of the vCPU.
    ///
    /// Takes no memory. There are at most as many accounts since the report was filled as a host can have
    /// cores, and none of more ticks than the longest run.
    pub fn add(&mut self, core: CoreNo, account: &CoreAccount)
        requires core { core < length self.old.cores }
        requires few { self.old.added < MAX_CORES }
        requires within { IsWithin account.now (MAX_ROUNDS * ROUND) }
        ensures added { IsAccountAdded core account.now self.old self.new }
        ensures room { self.new.room ≡ self.old.room }
    {
        add_vcpus(&mut self.vcpus, account);
        self.cores[core.index()] = core_ticks(account);
        self.added += 1;
    }

    /// Round 0 and each round whose plan has another number than that of the round before, with its plan.
    pub fn plans(&self) -> &[RoundPlan]
        ensures { result.now ≡ self.now.plans }
    {
        &self.plans
    }

    /// What is reported of each vCPU, by number.
    pub fn vcpus(&self) -> &[VcpuTicks]
        ensures { result.now ≡ self.now.vcpus }
    {
        &self.vcpus
    }

    /// What is reported of each core, by number.
    pub fn cores(&self) -> &[CoreTicks]
        ensures { result.now ≡ self.now.cores }
    {
        &self.cores
    }
}
