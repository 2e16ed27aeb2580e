ghost use Rattle.std.specs.Prelude.{◌≡◌, ℕ, ◌<◌, ◌≤◌, [], All, IfErr, IfOk, List, length, map};
ghost use Rattle.tab_core.specs.declared.TheConstants.{MAX_VCPUS};
ghost use Rattle.tab_words.specs.Lines.{lines_of};
ghost use Rattle.vcpu_names.specs.Names.{names_of};
ghost use Rattle.host_judge.specs.Faults.{IsFaultIn};
ghost use Rattle.host_judge.specs.Inside.Begun.{HasReadNothing};
ghost use Rattle.host_judge.specs.Inside.Judged.{terms_of};
ghost use Rattle.host_judge.specs.Inside.Readings.{HasReadBytes};
ghost use Rattle.host_judge.specs.Inside.Reported.{sold_terms};
ghost use Rattle.host_judge.specs.Inside.Settled.{IsTracked};
ghost use Rattle.host_judge.specs.Judgements.{JudgesTrace};
ghost use Rattle.host_judge.specs.Reports.{IsJudgementOf};

use crate::clashes::Clashes;
use crate::counts::no_lines;
use crate::fault::JudgeFault;
use crate::judge::Judge;
use crate::owed::Owed;
use crate::reading::Reading;
use crate::report::Report;
use crate::reports::{latency_sold, reports_of};
use crate::tracker::Tracker;
use std::alloc::Global;
use tab_core::{NoMemory, Vcpu};
use tab_io::{Got, Source};
use vcpu_names::Names;

// As many bytes as one read asks for.
const PIECE: usize = 65_536;

/// Reads the trace of a host of at most 256 vCPUs to its end, in one pass, and tells of it by the definitions of
/// `specs/Reports.antt`. Shares are those of windows that hold `window_ns` ns of running and waiting. `owed` has for each
/// vCPU what it is owed of a window, or none where it is owed nothing.
///
/// `BadLine` comes where a line says nothing, and names the first. The memory that is taken doesn't grow with the
/// trace, but with its longest line and with how often vCPUs run within a window.
pub fn judge_trace<S: Source>(
    alloc: Global,
    source: &mut S,
    vcpus: &[Vcpu],
    owed: &[Option<Owed>],
    window_ns: u64,
) -> Result<Report, JudgeFault>
    requires many { length vcpus.now ≤ MAX_VCPUS }
    requires owed { length owed.now ≡ length vcpus.now }
    requires window { 0 < window_ns }
    ensures { JudgesTrace (S.state source.old) (S.state source.new) vcpus.now owed.now window_ns result }
{
    let Ok(mut reading) = begin(alloc, vcpus, window_ns) else {
        return Err(JudgeFault::NoMemory);
    };
    let Ok(mut room) = vec![in alloc; 0u8; PIECE] else {
        return Err(JudgeFault::NoMemory);
    };
    let mut held = Vec::new(alloc);
    let into = room.as_mut_slice();
    for _ in 0..u64::MAX {
        match source.read(into) {
            Got::Bytes(count) => {
                if let Err(fault) = reading.take_piece(alloc, &mut held, &into[..count]) {
                    return Err(fault);
                }
            }
            Got::End => return finish(alloc, reading, &held, vcpus, owed, window_ns),
            Got::Failed => return Err(JudgeFault::ReadFault),
        }
    }
    Err(JudgeFault::TooLong)
}

// Before the first line.
fn begin(alloc: Global, vcpus: &[Vcpu], window_ns: u64) -> Result<Reading<'_>, NoMemory>
    requires many { length vcpus.now ≤ MAX_VCPUS }
    requires window { 0 < window_ns }
    ensures { IfOk result (HasReadNothing window_ns vcpus.now) }
{
    let names = Names::of(alloc, vcpus)?;
    let judge = Judge {
        end_ns: 0,
        line: 0,
        trackers: trackers_of(alloc, vcpus, window_ns)?,
        falls: no_lines(),
        unknown: no_lines(),
        clashes: Clashes::begin(alloc, vcpus.len())?,
    };
    Ok(Reading {
        names,
        judge,
        lines: 0,
    })
}

// What is kept of each vCPU before the first line.
fn trackers_of(alloc: Global, vcpus: &[Vcpu], window_ns: u64) -> Result<Vec<Tracker>, NoMemory>
    requires { 0 < window_ns }
    ensures terms { IfOk result (λ trackers. map terms_of trackers.items
        ≡ map (sold_terms window_ns) vcpus.now) }
    ensures begun { IfOk result (λ trackers. All (λ tracker. tracker.since_ns ≤ 0) trackers.items) }
    ensures tracked { IfOk result (λ trackers. All (λ tracker. IsTracked [] tracker) trackers.items) }
{
    let mut trackers = Vec::new(alloc);
    for vcpu in vcpus {
        let tracker = Tracker::begin(alloc, latency_sold(vcpu), window_ns);
        if trackers.push(tracker).is_err() {
            return Err(std::alloc::AllocError);
        }
    }
    Ok(trackers)
}

// Reads what is held after the last piece, and tells of all.
fn finish(
    alloc: Global,
    mut reading: Reading<'_>,
    held: &[u8],
    vcpus: &[Vcpu],
    owed: &[Option<Owed>],
    window_ns: u64,
) -> Result<Report, JudgeFault>
    requires owed { length owed.now ≡ length vcpus.now }
    requires some { 0 < window_ns }
    requires names { reading.names ≡ names_of vcpus.now }
    requires terms { map terms_of reading.judge.trackers.items ≡ map (sold_terms window_ns) vcpus.now }
    ensures told { IfOk result (λ report. (bytes : List ℕ) → HasReadBytes bytes held.now reading.entry
        → IsJudgementOf window_ns vcpus.now owed.now bytes report) }
    ensures fault { IfErr result (λ fault. (bytes : List ℕ) → HasReadBytes bytes held.now reading.entry
        → IsFaultIn (names_of vcpus.now) (lines_of bytes) fault) }
{
    if let Err(fault) = reading.take_lines(alloc, held) {
        return Err(fault);
    }
    let judge = reading.judge;
    match reports_of(alloc, judge.trackers, vcpus, owed, judge.end_ns, window_ns) {
        Ok(vcpus) => Ok(Report {
            end_ns: judge.end_ns,
            window_ns,
            vcpus,
            falls: judge.falls,
            unknown: judge.unknown,
            shared: judge.clashes.shared,
            doubled: judge.clashes.doubled,
        }),
        Err(_) => Err(JudgeFault::NoMemory),
    }
}
