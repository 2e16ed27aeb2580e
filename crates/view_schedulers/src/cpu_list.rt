ghost use Rattle.std.specs.Prelude.{◌≡◌, ℕ, ◌<◌, ◌≤◌, ◌++◌, ◌∷◌, List, decimal, IfNone, IfOk, IfSome, IsErrOf, MatchOption, OnOk, Some, slice_get};
ghost use Rattle.view_schedulers.specs.CpuLists.{AreDistinct, IsCpuList, IsPart, cpu_at, cpus_from};
ghost use Rattle.view_schedulers.specs.declared.cpu_list.TheConstants.{MAX_CPU};
ghost use Rattle.view_schedulers.specs.declared.cpu_list.CpuListFault.TheVariants.{NoMemory};

use std::alloc::{AllocError, Global};
use tab_core::NoMemory;
use tab_words::read_number;

// The greatest number of a CPU.
const MAX_CPU: u32 = 8191;

/// Why a text is no list of CPUs, each once.
#[derive(Clone, Copy, Debug, PartialEq, Eq)]
pub enum CpuListFault {
    /// It isn't a list of CPUs from 0 to 8191.
    NoList,
    /// This CPU is in the list twice.
    Twice(u32),
    NoMemory,
}

impl From<AllocError> for CpuListFault {
    ghost from_gives = { λ _ fault. fault ≡ NoMemory };

    fn from(_: AllocError) -> CpuListFault {
        CpuListFault::NoMemory
    }
}

/// The CPUs of a list, in its order: parts `FIRST`, `FIRST-LAST` or `FIRST-LAST:STEP` with a comma between each two, as
/// `2,4,6-46:2`. A CPU has a number from 0 to 8191, and is there once.
///
/// Source: taskset(1) of util-linux.
pub fn cpus_of(alloc: Global, text: &[u8]) -> Result<Vec<u32>, CpuListFault>
    ensures list { IfOk result (λ cpus. IsCpuList text.now cpus.items) }
    ensures once { IfOk result (λ cpus. AreDistinct cpus.items) }
    ensures twice { (cpu : ℕ) → IsErrOf result (CpuListFault.Twice cpu)
        → (cpus : List ℕ) × IsCpuList text.now cpus × (AreDistinct cpus → ⊥) }
{
    let cpus = listed(alloc, text)?;
    match first_twice(&cpus) {
        Some(cpu) => Err(CpuListFault::Twice(cpu)),
        None => Ok(cpus),
    }
}

// The CPUs of a list, which may be there twice.
fn listed(alloc: Global, text: &[u8]) -> Result<Vec<u32>, CpuListFault>
    ensures list { IfOk result (λ cpus. IsCpuList text.now cpus.items) }
    ensures never { (cpu : ℕ) → IsErrOf result (CpuListFault.Twice cpu) → ⊥ }
{
    let mut cpus = Vec::new(alloc);
    let mut rest = text;
    for _ in 0..u32::MAX {
        let (part, more) = first_split(rest, b',');
        push_part(&mut cpus, part)?;
        match more {
            Some(more) => rest = more,
            None => return Ok(cpus),
        }
    }
    Err(CpuListFault::NoList)
}

// Adds the CPUs of a text that is a part of a list. More CPUs than there are are refused, since one of them is there twice.
fn push_part(cpus: &mut Vec<u32>, part: &[u8]) -> Result<(), CpuListFault>
    ensures part { OnOk result ((added : List ℕ) × (cpus.new.items ≡ cpus.old.items ++ added) × IsPart part.now added) }
    ensures never { (cpu : ℕ) → IsErrOf result (CpuListFault.Twice cpu) → ⊥ }
{
    if cpus.len() > MAX_CPU as usize {
        return Err(CpuListFault::NoList);
    }
    let Some(range) = range_of(part) else {
        return Err(CpuListFault::NoList);
    };
    push_range(cpus, range)?;
    Ok(())
}

// What is before the first such byte, and what is after it if it is there.
fn first_split(text: &[u8], byte: u8) -> (&[u8], Option<&[u8]>)
    ensures { MatchOption result.1 (text.now ≡ result.0.now) (λ rest. text.now ≡ result.0.now ++ byte ∷ rest.now) }
{
    match text.iter().position(|other| *other == byte) {
        Some(end) => (&text[..end], Some(&text[end + 1..])),
        None => (text, None),
    }
}

// The CPUs of a part of a list.
#[derive(Clone, Copy)]
struct CpuRange {
    first: u32,
    last: u32,
    step: u32,
    ghost order: { first ≤ last },
    ghost small: { last ≤ MAX_CPU },
    ghost some: { 1 ≤ step },
}

// The CPUs of a text that is a part of a list.
fn range_of(part: &[u8]) -> Option<CpuRange>
    ensures { IfSome result (λ range. IsPart part.now (cpus_from range.first range.last range.step)) }
{
    let (first, ends) = first_split(part, b'-');
    let first = cpu_number(first)?;
    match ends {
        Some(ends) => Some(range_from(first, ends)?),
        None => Some(CpuRange {
            first,
            last: first,
            step: 1,
        }),
    }
}

// The CPUs of a part from this one on, where this text is after the dash.
fn range_from(first: u32, ends: &[u8]) -> Option<CpuRange>
    requires { first ≤ MAX_CPU }
    ensures { IfSome result (λ range. (text : List ℕ) → text ≡ decimal first ++ 45 ∷ ends.now
        → IsPart text (cpus_from range.first range.last range.step)) }
{
    let (last, step) = first_split(ends, b':');
    let last = cpu_number(last)?;
    let step = step_of(step)?;
    if last < first || step < 1 {
        return None;
    }
    Some(CpuRange { first, last, step })
}

// The step of a part, which is 1 where it has none.
fn step_of(word: Option<&[u8]>) -> Option<u32>
    ensures value { IfSome result (λ step. MatchOption word.entry (step ≡ 1) (λ word. word.now ≡ decimal step)) }
    ensures small { IfSome result (λ step. step ≤ MAX_CPU) }
{
    match word {
        Some(word) => cpu_number(word),
        None => Some(1),
    }
}

// The number of a CPU.
fn cpu_number(word: &[u8]) -> Option<u32>
    ensures { IfSome result (λ cpu. (word.now ≡ decimal cpu) × (cpu ≤ MAX_CPU)) }
{
    let number = read_number(word)?;
    if number <= u64::from(MAX_CPU) {
        Some(number as u32)
    } else {
        None
    }
}

// Adds the CPUs of a part.
fn push_range(cpus: &mut Vec<u32>, range: CpuRange) -> Result<(), NoMemory>
    ensures { OnOk result (cpus.new.items ≡ cpus.old.items ++ cpus_from range.first range.last range.step) }
{
    for k in 0..(range.last - range.first) / range.step + 1 {
        cpus.push(range.first + k * range.step)?;
    }
    Ok(())
}

// The first CPU that is there before.
fn first_twice(cpus: &[u32]) -> Option<u32>
    ensures some { IfSome result (λ cpu. AreDistinct cpus.now → ⊥) }
    ensures none { IfNone result (AreDistinct cpus.now) }
{
    for at in 0..cpus.len() {
        if cpus[..at].contains(&cpus[at]) {
            return Some(cpus[at]);
        }
    }
    None
}

// The CPU that a core is.
pub(crate) fn cpu_at(cpus: &[u32], core: u32) -> u64
    ensures { result ≡ cpu_at cpus.now core }
{
    match cpus.get(core as usize) {
        Some(cpu) => u64::from(*cpu),
        None => 0,
    }
}
