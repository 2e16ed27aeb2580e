ghost use Rattle.std.specs.Prelude.{◌≡◌, ◌<◌};

use flow_net::{Net, demand_sum};
use std::alloc::Global;
use std::marker::Brand;
use std::sync::ledger::{Blank, Ledger};
use std::test::Fail;
use tab_core::{Periodic, ROUND, Steps, Tasks};

// One tick of each half of the round, and one of each third.
#[tactic(auto, unfolding(tab_core::specs::Period::is_period))]
fn two_tasks(alloc: Global) -> Result<Tasks, Fail> {
    let half = Periodic {
        cost: 1,
        period: 51_300,
    };
    let third = Periodic {
        cost: 1,
        period: 34_200,
    };
    let tasks = vec![in alloc; Some(half), Some(third)]?;
    Ok(Tasks::of(tasks))
}

// How many of five searches raise the flow of these two vCPUs on a core.
fn raising_searches<L: Ledger>(alloc: Global, blank: Blank) -> Result<u32, Fail>
    requires name { blank.name ≡ L.name }
    requires parts { (blank.parts ≡ L.parts) × (0 < L.parts) }
{
    let mut steps = Steps::<L>::new(blank);
    let tasks = two_tasks(alloc)?;
    if demand_sum(tasks.items()) > u64::from(ROUND) {
        return Err("the demands are too great".into());
    }
    let mut net = Net::of(alloc, &tasks, 1)?;
    let mut raised: u32 = 0;
    for _ in 0..5u32 {
        raised = raised.saturating_add(u32::from(net.search(&mut steps)));
    }
    Ok(raised)
}

// The marks are 0, 34200, 51300, 68400 and 102600. Of the five jobs the first and the last of the vCPU of
// thirds are of one interval and have their tick from the beginning. The other three get theirs by a search
// each.
#[test]
fn each_search_gives_a_tick(rt: HostRuntime) -> Result<(), Fail> {
    let raised = raising_searches::<Brand>(rt.alloc(), Blank::new(1))?;
    assert_eq!(rt; raised, 3);
    Ok(())
}
