ghost use Rattle.std.specs.Prelude.{◌≡◌, ◌≤◌, None};
ghost use Rattle.view_judge.specs.Verdicts.{both_kept, is_any_seen, is_broken, is_no, is_none_broken, is_sound, kept_but, unjudged_in, unjudged_of, verdict_of};

use crate::said::Verdict;
use host_judge::{Report, VcpuReport};

/// Whether the host kept its promises: each vCPU got what it was promised, and the trace is evidence of it.
///
/// A trace is no evidence where it contradicts itself: a time falls, two vCPUs are on one CPU at a time, or a vCPU is on
/// two. It is none either where no vCPU of the host ran, waited or was blocked for a nanosecond. Lines of vCPUs that the
/// host doesn't have change nothing.
pub fn verdict_of(report: &Report) -> Verdict
    ensures { result ≡ verdict_of report.now }
{
    if is_sound(report) && is_any_seen(&report.vcpus) && is_none_broken(&report.vcpus) {
        kept_but(unjudged_in(&report.vcpus))
    } else {
        Verdict::Broken
    }
}

fn kept_but(unjudged: u64) -> Verdict
    ensures { result ≡ kept_but unjudged }
{
    if unjudged == 0 {
        Verdict::Kept
    } else {
        Verdict::Unjudged(unjudged)
    }
}

fn is_sound(report: &Report) -> bool
    ensures { result ≡ is_sound report.now }
{
    report.falls.count == 0 && report.shared.count == 0 && report.doubled.count == 0
}

pub(crate) fn is_any_seen(vcpus: &[VcpuReport]) -> bool
    ensures { result ≡ is_any_seen vcpus.now }
{
    vcpus.iter().any(|vcpu| vcpu.run_ns > 0 || vcpu.wait_ns > 0 || vcpu.block_ns > 0)
}

fn is_none_broken(vcpus: &[VcpuReport]) -> bool
    ensures { result ≡ is_none_broken vcpus.now }
{
    vcpus.iter().all(|vcpu| !is_broken(vcpu))
}

fn is_broken(vcpu: &VcpuReport) -> bool
    ensures { result ≡ is_broken vcpu.now }
{
    is_no(vcpu.waits_kept) || is_no(vcpu.share_kept)
}

fn is_no(answer: Option<bool>) -> bool
    ensures { result ≡ is_no answer }
{
    match answer {
        Some(kept) => !kept,
        None => false,
    }
}

// How many vCPUs have a promise that wasn't judged.
pub(crate) fn unjudged_in(vcpus: &[VcpuReport]) -> u64
    ensures { result ≡ unjudged_in vcpus.now }
{
    let mut count = 0;
    for vcpu in 0..vcpus.len() {
        count += unjudged_of(&vcpus[vcpu]);
    }
    count
}

// 1 for a vCPU with a promise that wasn't judged.
fn unjudged_of(vcpu: &VcpuReport) -> u64
    ensures value { result ≡ unjudged_of vcpu.now }
    ensures few { result ≤ 1 }
{
    u64::from(vcpu.waits_kept.is_none() || vcpu.share_kept.is_none())
}

// Whether both promises were kept: no where one was broken, and nothing where another wasn't judged.
pub(crate) fn both_kept(waits: Option<bool>, share: Option<bool>) -> Option<bool>
    ensures { result ≡ both_kept waits share }
{
    match waits {
        Some(true) => share,
        Some(false) => Some(false),
        None => no_or_none(share),
    }
}

// No where this is so, else nothing.
fn no_or_none(share: Option<bool>) -> Option<bool>
    ensures { result ≡ both_kept None share }
{
    match share {
        Some(false) => Some(false),
        Some(true) => None,
        None => None,
    }
}
