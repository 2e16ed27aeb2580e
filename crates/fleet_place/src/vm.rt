ghost use Rattle.std.specs.Prelude.{◌≡◌, ◌<◌, ◌≤◌, ◌^◌, IfNone, IfSome};
ghost use Rattle.tab_core.specs.declared.TheConstants.{MAX_TICK_NS, MIN_TICK_NS};
ghost use Rattle.period_choice.specs.Choice.{HasPeriod};
ghost use Rattle.fleet_place.specs.Demand.{Takes};

use period_choice::choose;
use reservation::demand_of;
use sizes_doc::Size;

/// What is placed on one host: a VM, or the VMs of a size together.
#[derive(Clone, Copy)]
pub struct Vm<'a> {
    /// Its number, from 0: at ties of demand the lower comes first.
    pub number: u32,
    pub size: Size<'a>,
    /// The ticks of a round that its vCPUs take together.
    pub demand: u64,
    pub ghost small: { demand < 2 ^ 40 },
}

impl<'a> Vm<'a> {
    /// The VM of a number and a size, on hosts of which a tick has `tick_ns` nanoseconds. There is none exactly where no
    /// period meets its latency.
    pub fn of(number: u32, tick_ns: u32, size: &Size<'a>) -> Option<Vm<'a>>
        requires least_tick { MIN_TICK_NS ≤ tick_ns }
        requires most_tick { tick_ns ≤ MAX_TICK_NS }
        ensures number { IfSome result (λ vm. vm.number ≡ number) }
        ensures size { IfSome result (λ vm. vm.size ≡ size.now) }
        ensures demand { IfSome result (λ vm. Takes tick_ns size.now vm.demand) }
        ensures none { IfNone result (¬ (HasPeriod size.now.reservation tick_ns)) }
    {
        match choose(&size.reservation, tick_ns) {
            Some(task) => Some(Vm {
                number,
                size: *size,
                demand: u64::from(size.machines * size.vcpus) * u64::from(demand_of(&task)),
            }),
            None => None,
        }
    }
}
