ghost use Rattle.std.specs.Prelude.{◌≡◌, ◌<◌, ◌≤◌, ◌+◌, ◌*◌, IfOk};
ghost use Rattle.tab_core.specs.declared.TheConstants.{MAX_CORES, MAX_VCPUS};
ghost use Rattle.host_gen.specs.Generated.{IsGenerated, IsGeneratedReservation, IsGeneratedVcpu, generated_name, most_percent};
ghost use Rattle.host_gen.specs.GeneratorWords.{state_after, word_of_state};
ghost use Rattle.host_gen.specs.HostText.{AreAdmitted};

use rand_core::SeedableRng;
use rand_core::utils::NextWord;
use rand_xoshiro::SplitMix64;
use std::alloc::{AllocError, Global};
use tab_core::{Host, Name, NameFault, NoMemory, Reservation, TICK_NS, Vcpu, Vcpus};

// The periods that latencies are made of, in ticks.
const WHOLE_PERIODS: [u32; 6] = [100, 300, 900, 2700, 5700, 11_400];

/// The host of a seed, of so many cores and vCPUs, with the default tick. Each vCPU is admitted, and none is capped.
///
/// There are 1 to 32 cores, and at most 256 vCPUs and at most 99 to each core and one more. The lag is
/// 1000 ticks, the sliver 30 and the quantum 1000. A vCPU's share is a whole percent of a core, such
/// that all are within the bound of worst fit: so the host is planned, where memory allows.
///
/// Source: the words are those of SplitMix64, G. L. Steele, D. Lea and C. H. Flood, OOPSLA 2014. The
/// rule by which they make a host is this project's own.
pub fn generate(alloc: Global, seed: u64, cores: u32, vcpus: u32) -> Result<Host, NoMemory>
    requires some_core { 1 ≤ cores }
    requires few_cores { cores ≤ MAX_CORES }
    requires few_vcpus { vcpus ≤ MAX_VCPUS }
    requires shared { vcpus ≤ 99 * cores + 1 }
    ensures generated { IfOk result (IsGenerated seed cores vcpus) }
    ensures admitted { IfOk result (λ host. AreAdmitted host.vcpus) }
{
    let most = most_percent(cores, vcpus);
    let mut words = SplitMix64::from_seed(seed.to_le_bytes());
    let mut made = Vec::with_capacity(alloc, vcpus as usize)?;
    for number in 0..vcpus {
        let first = take_word(&mut words);
        let second = take_word(&mut words);
        made.push(vcpu_of(alloc, most, number, first, second)?)?;
    }
    Ok(Host {
        tick_ns: TICK_NS,
        cores,
        lag: 1000,
        sliver: 30,
        quantum: 1000,
        vcpus: Vcpus::of(made),
    })
}

// The most percent of a core that one vCPU gets.
fn most_percent(cores: u32, vcpus: u32) -> u32
    requires some_core { 1 ≤ cores }
    requires few_cores { cores ≤ MAX_CORES }
    requires few_vcpus { vcpus ≤ MAX_VCPUS }
    requires shared { vcpus ≤ 99 * cores + 1 }
    ensures value { result ≡ most_percent cores vcpus }
    ensures some { 1 ≤ result }
    ensures whole { result ≤ 100 }
{
    if vcpus == 0 {
        return 100;
    }
    (100 * cores / (vcpus + cores - 1)).min(100)
}

// The generator's next word.
#[tactic(auto, unfolding(crate::specs::GeneratorWords::word_of_state, crate::specs::GeneratorWords::state_after))]
fn take_word(words: &mut SplitMix64) -> u64
    ensures word { result ≡ word_of_state words.old }
    ensures state { words.new ≡ state_after words.old }
{
    words.next_word()
}

// The vCPU of this number, as its two words make it.
fn vcpu_of(alloc: Global, most: u32, number: u32, first: u64, second: u64) -> Result<Vcpu, NoMemory>
    requires some { 1 ≤ most }
    requires whole { most ≤ 100 }
    requires low { number < MAX_VCPUS }
    ensures { IfOk result (IsGeneratedVcpu most number first second) }
{
    let percent = 1 + (first % u64::from(most)) as u32;
    let period = WHOLE_PERIODS[(second % 6) as usize];
    Ok(Vcpu {
        name: name_of(alloc, number)?,
        reservation: Some(reservation_of(percent, period)),
        runnable: second / 6 % 4 != 0,
        capped: false,
    })
}

// So many percent of a core, with the latency that this period keeps.
fn reservation_of(percent: u32, period: u32) -> Reservation
    requires some { 1 ≤ percent }
    requires whole { percent ≤ 100 }
    requires short { period ≤ 11400 }
    ensures { IsGeneratedReservation percent period result }
{
    let idle = period - period / 100 * percent;
    Reservation {
        share_ppm: 10_000 * percent,
        latency_ns: 2 * u64::from(idle) * u64::from(TICK_NS),
    }
}

// The name of the vCPU of this number.
fn name_of(alloc: Global, number: u32) -> Result<Name, NoMemory>
    requires { number < MAX_VCPUS }
    ensures { IfOk result (λ name. name ≡ generated_name number) }
{
    let text = format!(in alloc; "v{number}")?;
    match Name::of(alloc, text.as_bytes()) {
        Ok(name) => Ok(name),
        Err(NameFault::NoMemory) => Err(AllocError),
        Err(NameFault::BadName) => unreachable!(),
    }
}
