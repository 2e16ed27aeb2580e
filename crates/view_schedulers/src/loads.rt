ghost use Rattle.std.specs.Prelude.{◌≡◌, ◌≤◌, length};
ghost use Rattle.tab_core.specs.declared.TheConstants.{MAX_VCPUS};
ghost use Rattle.view_schedulers.specs.Budgets.{part_on, parts_given};
ghost use Rattle.view_schedulers.specs.declared.TheConstants.{PARTS};

use crate::budget::{budget_in, fits_period, is_task, part_of, period_in};
use crate::scheduler::Scheduler;
use view_doc::Task;

// The parts of a core that its vCPUs are given.
pub(crate) fn load_on(scheduler: Scheduler, tick_ns: u32, core: u32, tasks: &[Task]) -> u64
    requires { length tasks.now ≤ MAX_VCPUS }
    ensures { result ≡ parts_given scheduler tick_ns core tasks.now }
{
    let mut load = 0u64;
    for task in tasks {
        load += part_on(scheduler, tick_ns, core, task);
    }
    load
}

// The parts of it that one vCPU is given.
fn part_on(scheduler: Scheduler, tick_ns: u32, core: u32, task: &Task) -> u64
    ensures value { result ≡ part_on scheduler tick_ns core task.now }
    ensures whole { result ≤ PARTS }
{
    if task.home.0 != core || !is_task(task) {
        return 0;
    }
    let period = period_in(scheduler, tick_ns, task);
    let budget = budget_in(scheduler, tick_ns, task);
    if fits_period(scheduler, period, budget) {
        part_of(period, budget)
    } else {
        0
    }
}
