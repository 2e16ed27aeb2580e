ghost use Rattle.std.specs.Prelude.{◌≡◌, ◌≤◌, IfOk, length};
ghost use Rattle.script_doc.specs.Script.{AreInRun, AreWithin};

use crate::host::host_of;
use crate::mix::Mix;
use crate::script::script_of;
use script_doc::{Script, read_script};
use std::alloc::Global;
use std::test::Fail;
use tab_core::Host;

/// By what a sample is found: the seed, the host's numbers, of which lag, quantum and sliver are in ticks, and those of the
/// script, so many events in so many rounds.
#[derive(Clone, Copy, Debug)]
pub struct Case {
    pub seed: u64,
    pub cores: u32,
    pub vcpus: u32,
    pub tick_ns: u32,
    pub lag: u32,
    pub quantum: u32,
    pub sliver: u32,
    pub rounds: u32,
    pub events: u32,
}

/// A host and a script for it, in a run of so many rounds.
#[derive(Drop)]
pub struct Sample {
    pub rounds: u32,
    pub host: Host,
    pub script: Script,
    pub ghost some_round: { 1 ≤ rounds },
    pub ghost few_rounds: { rounds ≤ 100 },
    pub ghost in_run: { AreInRun rounds script },
}

/// The sample of a case and a mix.
///
/// Fails where a number is out of the bounds of hosts, there are more than 64 vCPUs, no round or more than 100, the script is no
/// script, or memory runs out.
pub fn sample_of(alloc: Global, case: &Case, mix: &Mix<'_>) -> Result<Sample, Fail>
    ensures rounds { IfOk result (λ sample. sample.rounds ≡ case.now.rounds) }
    ensures known { IfOk result (λ sample. AreWithin (length sample.host.vcpus) sample.script) }
{
    let rounds = case.rounds;
    if rounds == 0 || rounds > 100 {
        return Err(Fail::from("rounds out of bounds"));
    }
    let host = host_of(alloc, case, mix.caps)?;
    let text = script_of(alloc, case, mix)?;
    if text.len() >= 1_000_000 {
        return Err(Fail::from("a long script"));
    }
    let script = read_script(alloc, text.as_bytes(), &host, rounds)?;
    Ok(Sample {
        rounds,
        host,
        script,
    })
}
