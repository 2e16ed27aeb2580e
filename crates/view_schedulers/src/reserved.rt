ghost use Rattle.std.specs.Prelude.{◌≡◌, ◌<◌, ◌≤◌, ◌^◌};
ghost use Rattle.view_schedulers.specs.Reserved.{is_capped, is_reservation_kept, is_wait_kept, reserved_of};

use crate::scheduler::Scheduler;
use tab_core::{Reservation, Vcpu, WHOLE_PPM};

// What the host's vCPU of this name has reserved, if one is admitted.
pub(crate) fn reserved_of(host: &[Vcpu], name: &[u8]) -> Option<Reservation>
    ensures { result ≡ reserved_of host.now name.now }
{
    for vcpu in host {
        if vcpu.name.bytes() == name {
            return vcpu.reservation;
        }
    }
    None
}

// Whether the host's vCPU of this name is capped.
pub(crate) fn is_capped(host: &[Vcpu], name: &[u8]) -> bool
    ensures { result ≡ is_capped host.now name.now }
{
    for vcpu in host {
        if vcpu.name.bytes() == name {
            return vcpu.capped;
        }
    }
    false
}

// Whether the budget in each period keeps the reservation.
pub(crate) fn is_kept(scheduler: Scheduler, period: u64, budget: u64, r: &Reservation) -> bool
    requires small { period < 2 ^ 32 }
    requires within { budget ≤ period }
    ensures { result ≡ is_reservation_kept scheduler period budget r.now }
{
    u64::from(r.share_ppm) * period <= u64::from(WHOLE_PPM) * budget
        && is_wait_kept(scheduler, period, budget, r.latency_ns)
}

// Whether what the budget leaves of two periods is within the latency, where the scheduler bounds waits.
fn is_wait_kept(scheduler: Scheduler, period: u64, budget: u64, latency_ns: u64) -> bool
    requires small { period < 2 ^ 32 }
    requires within { budget ≤ period }
    ensures { result ≡ is_wait_kept scheduler period budget latency_ns }
{
    let rest = period - budget;
    !scheduler.bounds_wait() || scheduler.unit_ns() * (rest + rest) <= latency_ns
}
