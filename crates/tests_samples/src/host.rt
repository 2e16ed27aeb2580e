ghost use Rattle.std.specs.Prelude.{◌≡◌, IfOk, length, map};

use crate::sample::Case;
use crate::sets::{bit, spread};
use host_gen::generate;
use std::alloc::Global;
use std::test::Fail;
use tab_core::{
    Host, MAX_CORES, MAX_LATENCY_NS, MAX_SLIVER, MAX_TICK_NS, MIN_TICK_NS, Name, ROUND,
    Reservation, TICK_NS, Vcpu, Vcpus,
};

// The generated host of the case's seed, with the case's numbers, if they are within the bounds.
pub(crate) fn host_of(alloc: Global, case: &Case, caps: bool) -> Result<Host, Fail> {
    let Case {
        cores,
        vcpus,
        tick_ns,
        lag,
        quantum,
        sliver,
        ..
    } = *case;
    if cores == 0 || cores > MAX_CORES || vcpus > 64 || sliver > MAX_SLIVER {
        return Err(Fail::from("numbers out of bounds"));
    }
    if lag == 0 || lag > ROUND || quantum == 0 || quantum > ROUND {
        return Err(Fail::from("times out of bounds"));
    }
    if tick_ns < MIN_TICK_NS || tick_ns > MAX_TICK_NS {
        return Err(Fail::from("a tick out of bounds"));
    }
    let host = generate(alloc, case.seed, cores, vcpus)?;
    let capped = if caps { spread(case.seed) } else { 0 };
    let vcpus = vcpus_of(alloc, host.vcpus.items(), tick_ns, capped)?;
    Ok(Host {
        tick_ns,
        cores,
        lag,
        sliver,
        quantum,
        vcpus: Vcpus::of(vcpus),
    })
}

// The vCPUs with latencies of as many ticks of this length, of which those of the word's bits are capped.
fn vcpus_of(alloc: Global, vcpus: &[Vcpu], tick_ns: u32, capped: u64) -> Result<Vec<Vcpu>, Fail>
    ensures size { IfOk result (λ made. length made.items ≡ length vcpus.now) }
    ensures names { IfOk result (λ made. map (λ vcpu. vcpu.name) made.items
        ≡ map (λ vcpu. vcpu.name) vcpus.now) }
{
    let mut made = Vec::with_capacity(alloc, vcpus.len())?;
    for (number, vcpu) in vcpus.iter().enumerate() {
        made.push(Vcpu {
            name: Name::of(alloc, vcpu.name.bytes())?,
            reservation: in_ticks(vcpu.reservation, tick_ns),
            runnable: vcpu.runnable,
            capped: number < 64 && capped & bit(number as u32) != 0,
        })?;
    }
    Ok(made)
}

// The reservation whose latency is as many ticks of this length as it was of the default one.
fn in_ticks(reservation: Option<Reservation>, tick_ns: u32) -> Option<Reservation> {
    let Reservation {
        share_ppm,
        latency_ns,
    } = reservation?;
    let ticks = latency_ns / u64::from(TICK_NS);
    Some(Reservation {
        share_ppm,
        latency_ns: ticks.saturating_mul(u64::from(tick_ns)).min(MAX_LATENCY_NS),
    })
}
