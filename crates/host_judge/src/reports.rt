ghost use Rattle.std.specs.Prelude.{◌≡◌, ◌+◌, ◌<◌, ◌≤◌, ◌^◌, All, IfOk, length, map};
ghost use Rattle.host_judge.specs.Inside.Judged.{terms_of};
ghost use Rattle.host_judge.specs.Inside.Reported.{AreReports, IsReportBy, LeastFits, late_if, latency_in, least_answer, least_share, share_answer, sold_terms, wait_answer, waits_kept};
ghost use Rattle.host_judge.specs.Reports.{owed_share};
ghost use Rattle.host_judge.specs.Windows.{window_share};

use crate::dues::due_of;
use crate::least::Least;
use crate::owed::Owed;
use crate::report::{LeastShare, LongestWait, VcpuReport};
use crate::times::Times;
use crate::tracker::Tracker;
use std::alloc::Global;
use tab_core::{NoMemory, Reservation, Vcpu, WHOLE_PPM};

// What is reported of the vCPUs at the end of the trace.
pub(crate) fn reports_of(
    alloc: Global,
    trackers: Vec<Tracker>,
    vcpus: &[Vcpu],
    owed: &[Option<Owed>],
    end_ns: u64,
    window_ns: u64,
) -> Result<Vec<VcpuReport>, NoMemory>
    requires some { 0 < window_ns }
    requires owed { length owed.now ≡ length vcpus.now }
    requires terms { map terms_of trackers.items ≡ map (sold_terms window_ns) vcpus.now }
    requires past { All (λ tracker. tracker.since_ns ≤ end_ns) trackers.items }
    ensures many { IfOk result (λ reports. length reports.items ≡ length vcpus.now) }
    ensures each { IfOk result (λ reports. AreReports window_ns trackers.items vcpus.now owed.now end_ns
        reports.items) }
{
    let mut reports = Vec::new(alloc);
    for tracker in trackers {
        let vcpu = &vcpus[reports.len()];
        let owes = owed[reports.len()];
        let one = report_of(tracker, &vcpu.reservation, owes, end_ns, window_ns)?;
        if reports.push(one).is_err() {
            return Err(std::alloc::AllocError);
        }
    }
    Ok(reports)
}

// What is reported of one vCPU.
fn report_of(
    mut tracker: Tracker,
    reservation: &Option<Reservation>,
    owed: Option<Owed>,
    end_ns: u64,
    window_ns: u64,
) -> Result<VcpuReport, NoMemory>
    requires some { 0 < window_ns }
    requires past { tracker.since_ns ≤ end_ns }
    requires terms { terms_of tracker ≡ (latency_in reservation.now, window_ns) }
    ensures { IfOk result (IsReportBy window_ns tracker reservation.now owed end_ns) }
{
    tracker.settle(end_ns)?;
    let longest = tracker.waits.longest;
    let least = tracker.windows.least;
    Ok(VcpuReport {
        run_ns: tracker.times.run_ns,
        wait_ns: tracker.times.wait_ns,
        block_ns: tracker.times.block_ns,
        longest,
        late: late_of(reservation, tracker.waits.late),
        least: share_in(least, window_ns),
        owed_ppm: owed_in(owed, window_ns),
        waits_kept: are_waits_kept(reservation, &tracker.times, longest),
        share_kept: is_share_kept(owed, window_ns, least),
    })
}

// The count, where a latency is promised.
fn late_of(reservation: &Option<Reservation>, late: u64) -> Option<u64>
    ensures { result ≡ late_if reservation.now late }
{
    match reservation {
        Some(_) => Some(late),
        None => None,
    }
}

// Whether the waits are as promised, where it is known what the vCPU did.
fn are_waits_kept(
    reservation: &Option<Reservation>,
    times: &Times,
    longest: Option<LongestWait>,
) -> Option<bool>
    requires { times.now.run_ns + times.now.wait_ns + times.now.block_ns < 2 ^ 64 }
    ensures { result ≡ wait_answer reservation.now (times.now.run_ns + times.now.wait_ns + times.now.block_ns) longest }
{
    let Some(reservation) = reservation else {
        return Some(true);
    };
    if times.run_ns + times.wait_ns + times.block_ns == 0 {
        return None;
    }
    Some(is_within(reservation.latency_ns, longest))
}

// Whether the longest wait is within the latency.
fn is_within(latency_ns: u64, longest: Option<LongestWait>) -> bool
    ensures { result ≡ waits_kept latency_ns longest }
{
    match longest {
        Some(wait) => wait.ns <= latency_ns,
        None => true,
    }
}

// Whether the window in which the vCPU ran least has what is owed, where a window says it.
fn is_share_kept(owed: Option<Owed>, window_ns: u64, least: Option<Least>) -> Option<bool>
    ensures { result ≡ share_answer owed window_ns least }
{
    let Some(owed) = owed else {
        return Some(true);
    };
    is_due_met(due_of(&owed, window_ns), least)
}

// Whether the window in which the vCPU ran least has so many ns, where something is owed.
fn is_due_met(due_ns: u64, least: Option<Least>) -> Option<bool>
    ensures { result ≡ least_answer due_ns least }
{
    let least = least?;
    if due_ns == 0 {
        return None;
    }
    Some(due_ns <= least.run_ns)
}

// The share of a window that is owed.
fn owed_in(owed: Option<Owed>, window_ns: u64) -> Option<u32>
    requires { 0 < window_ns }
    ensures { result ≡ owed_share owed window_ns }
{
    let owed = owed?;
    Some(share_of(due_of(&owed, window_ns), window_ns))
}

// The share of a window of which so much was run or is owed.
fn share_of(ns: u64, window_ns: u64) -> u32
    requires some { 0 < window_ns }
    requires part { ns ≤ window_ns }
    ensures { result ≡ window_share ns window_ns }
{
    (u128::from(ns) * u128::from(WHOLE_PPM) / u128::from(window_ns)) as u32
}

// The share of the window in which the vCPU ran least. No window runs for longer than it lasts.
fn share_in(least: Option<Least>, window_ns: u64) -> Option<LeastShare>
    requires { 0 < window_ns }
    ensures { LeastFits least window_ns → result ≡ least_share window_ns least }
{
    let least = least?;
    let share = u128::from(least.run_ns) * u128::from(WHOLE_PPM) / u128::from(window_ns);
    Some(LeastShare {
        share_ppm: share.min(u128::from(WHOLE_PPM)) as u32,
        at_ns: least.at_ns,
    })
}

// How long a vCPU's waits may be, and 0 where no latency is promised.
pub(crate) fn latency_sold(vcpu: &Vcpu) -> u64
    ensures { result ≡ latency_in vcpu.now.reservation }
{
    match &vcpu.reservation {
        Some(reservation) => reservation.latency_ns,
        None => 0,
    }
}
