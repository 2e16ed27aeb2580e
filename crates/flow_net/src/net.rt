ghost use Rattle.std.specs.Prelude.{ℕ, ◌≡◌, ◌+◌, ◌*◌, ◌<◌, ◌≤◌, IfOk, IsTrue, false, map};
ghost use Rattle.tab_core.specs.declared.TheConstants.{MAX_CORES, ROUND};
ghost use Rattle.flow_net.specs.Allotments.{AreMarks, demands, load_of_tasks, period_of_task};
ghost use Rattle.flow_net.specs.Flows.{fluid};
ghost use Rattle.flow_net.specs.Networks.{IsNetwork, IsToInterval, IsToJob, IsToSink, flow_in, lacks_of, left_to_interval, left_to_job, left_to_sink, load_of_view};
ghost use Rattle.flow_net.specs.Counts.{admitted, edges, job_count};
ghost use Rattle.flow_net.specs.Rows.{ticks_at};

use crate::allotment::{Allotment, Marks, Rows};
use crate::demands::Demands;
use crate::edge::left_for;
use crate::fill::fill;
use crate::flow::Flow;
use crate::making::{blank, demands_of};
use crate::opening::open_flow;
use crate::reach::Reach;
use crate::search::search_once;
use std::alloc::Global;
use std::marker::Model;
use std::sync::ledger::Ledger;
use tab_core::{NoMemory, Steps, Tasks};

/// A flow network of a host's vCPUs: from the source to the jobs of admitted vCPUs, from each job to
/// the intervals of its period, and from the intervals to the sink. Contracts see what is due, the
/// intervals, the flow, and what it leaves open.
///
/// Source: W. A. Horn, "Some simple scheduling algorithms", Naval Research Logistics Quarterly 21,
/// 1974.
#[derive(Drop)]
pub struct Net {
    demands: Demands,
    flow: Flow,
    reach: Reach,
}

impl Model for Net {
    ghost use Rattle.flow_net.specs.Inside.Demanded.{net_view};
    ghost use Rattle.flow_net.specs.Networks.{NetView};
    ghost use Rattle.flow_net.specs.Inside.Reaching.{IsNetworkKept};

    ghost Value = { NetView };

    ghost view = { λ net. net_view net.demands net.flow };

    ghost invariant = { λ net. IsNetworkKept net.demands net.flow net.reach };
}

impl Net {
    /// The network of these tasks with the opening flow: on each edge from a job to an interval what
    /// the fluid schedule gives there, in whole ticks, rounded down. There are at most 32 cores, and
    /// the demands fit them.
    ///
    /// The fluid schedule gives each vCPU its share of a core at every instant. Fails only when memory
    /// runs out.
    pub fn of(alloc: Global, tasks: &Tasks, cores: u32) -> Result<Net, NoMemory>
        requires cores { cores ≤ MAX_CORES }
        requires fits { demands tasks.now ≤ cores * ROUND }
        ensures network { IfOk result IsNetwork }
        ensures load { IfOk result (λ net. load_of_view net.demands
            ≡ load_of_tasks tasks.now net.demands.marks cores) }
        ensures marks { IfOk result (λ net. AreMarks (map period_of_task tasks.now) net.demands.marks) }
        ensures opening { IfOk result (λ net. (v i : ℕ) → v < (load_of_view net.demands).width
            → i < (load_of_view net.demands).count
            → ticks_at net.rows i v ≡ fluid (load_of_view net.demands) v i) }
        ensures lacks { IfOk result (λ net. lacks_of net + job_count (load_of_view net.demands)
            ≤ admitted (load_of_view net.demands) * (load_of_view net.demands).count) }
    {
        let demands = demands_of(alloc, tasks.items(), cores)?;
        let flow = open_flow(alloc, &demands)?;
        let reach = blank(alloc, &demands)?;
        Ok(Net {
            demands,
            flow,
            reach,
        })
    }

    /// Raises the flow by one tick along a path from a job that still needs ticks: true where it rose,
    /// and false exactly where every job has its cost. It tells at most two steps for each edge, and
    /// takes no memory.
    ///
    /// Source: the augmenting paths of L. R. Ford and D. R. Fulkerson, "Maximal flow through a
    /// network", Canadian Journal of Mathematics 8, 1956.
    pub fn search<L: Ledger>(&mut self, steps: &mut Steps<L>) -> bool
        ensures network { IsNetwork self.new }
        ensures demands { self.new.demands ≡ self.old.demands }
        ensures raised { IsTrue result → lacks_of self.new + 1 ≡ lacks_of self.old }
        ensures rose { IsTrue result → flow_in self.new ≡ flow_in self.old + 1 }
        ensures done { result ≡ false → lacks_of self.old ≡ 0 }
        ensures kept { result ≡ false → self.new ≡ self.old }
        ensures cost { steps.new ≤ steps.old + 2 * edges (load_of_view self.old.demands) }
        ensures last { result ≡ false → steps.new ≤ steps.old + job_count (load_of_view self.old.demands) }
    {
        search_once(&self.demands, &mut self.flow, &mut self.reach, steps)
    }

    /// What the edge of this number can still take or, backwards, give back, in ticks. It tells one step.
    pub fn left<L: Ledger>(&self, edge: u32, back: bool, steps: &mut Steps<L>) -> u32
        requires { edge < edges (load_of_view self.now.demands) }
        ensures to_job { (v k : ℕ) → IsToJob (load_of_view self.now.demands) edge v k
            → result ≡ left_to_job self.now v k back }
        ensures to_interval { (v i : ℕ) → IsToInterval (load_of_view self.now.demands) edge v i
            → result ≡ left_to_interval self.now v i back }
        ensures to_sink { (i : ℕ) → IsToSink (load_of_view self.now.demands) edge i
            → result ≡ left_to_sink self.now i back }
        ensures cost { steps.new ≡ steps.old + 1 }
    {
        steps.tell();
        left_for(&self.demands, &self.flow, edge as usize, back)
    }

    // Gives ticks to nearly all jobs that still need some, straight from intervals with room.
    pub(crate) fn fill<L: Ledger>(
        &mut self,
        alloc: Global,
        steps: &mut Steps<L>,
    ) -> Result<(), NoMemory>
        ensures demands { self.new.demands ≡ self.old.demands }
        ensures lacks { lacks_of self.new ≤ lacks_of self.old }
        ensures cost { steps.new ≤ steps.old
            + (load_of_view self.old.demands).count * (2 * admitted (load_of_view self.old.demands) + 1) }
    {
        fill(alloc, &self.demands, &mut self.flow, steps)
    }

    // What each vCPU gets in each interval.
    pub(crate) fn into_allotment(self) -> Allotment
        ensures marks { result.marks ≡ self.demands.marks }
        ensures ticks { result.ticks ≡ self.rows }
    {
        let Net { demands, flow, .. } = self;
        let Demands { marks, .. } = demands;
        let Flow { rows, .. } = flow;
        Allotment {
            marks: Marks::of(marks),
            ticks: Rows::of(rows),
        }
    }
}
