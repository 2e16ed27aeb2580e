ghost use Rattle.std.specs.Prelude.{◌≡◌, length, slice_get};
ghost use Rattle.tab_io.specs.Sinks.{Writes};
ghost use Rattle.tab_words.specs.Texts.{texts_below};
ghost use Rattle.view_judge.specs.Verdicts.{is_any_seen};
ghost use Rattle.view_judge.specs.Tables.{doubled_kind, fall_kind, judgement_end, line_count_text, line_text, lines_text, rows_text, share_cells, share_head, share_row, share_said, shared_kind, shares_of, tables_of, tables_text, unjudged_by, unjudged_text, unknown_kind, unseen_text, verdict_end, verdict_text, verdict_words, wait_cells, wait_head, wait_row, wait_said, were_of};

use crate::cells::{
    asked_cell, begin_cell, cpu_cell, kept_cell, late_cell, least_cell, longest_cell, owed_cell,
    promised_cell, width_of, window_cell,
};
use crate::said::Verdict;
use crate::verdict::{is_any_seen, verdict_of};
use host_judge::{LineCount, Report, VcpuReport};
use tab_core::{Reservation, Vcpu};
use tab_io::{Sink, WriteFault, write_all};
use tab_words::{TextPiece, put_pieces};
use view_cells::{Cell, put_cells};

/// Writes what is said of the vCPUs of a host as tables.
///
/// The first has how long each vCPU ran, waited and was blocked, its least share of a window beside the share that it
/// has reserved and what it is owed of a window, and whether it had that. The second has its longest wait beside the
/// latency that it was promised, how many waits were longer, and whether none was. After them is whether all was kept,
/// how many vCPUs weren't judged, and which lines of the trace can't be. Times are in milliseconds with three digits, rounded down, and shares in percent with four.
///
/// A fault leaves a prefix of the text in the sink. Nothing is settled, and nothing is allocated.
pub fn write_tables<K: Sink>(
    sink: &mut K,
    vcpus: &[Vcpu],
    report: &Report,
) -> Result<(), WriteFault>
    ensures { Writes (K.state sink.old) (K.state sink.new) (tables_text vcpus.now report.now) result }
{
    put_tables(sink, width_of(vcpus), verdict_of(report), vcpus, report)
}

fn put_tables<K: Sink>(
    sink: &mut K,
    width: usize,
    verdict: Verdict,
    vcpus: &[Vcpu],
    report: &Report,
) -> Result<(), WriteFault>
    ensures { Writes (K.state sink.old) (K.state sink.new) (tables_of width verdict vcpus.now report.now) result }
{
    put_rows(sink, width, vcpus, &report.vcpus)?;
    put_end(sink, verdict, report)
}

// Writes both tables.
fn put_rows<K: Sink>(
    sink: &mut K,
    width: usize,
    vcpus: &[Vcpu],
    reports: &[VcpuReport],
) -> Result<(), WriteFault>
    ensures { Writes (K.state sink.old) (K.state sink.new) (rows_text width vcpus.now reports.now) result }
{
    put_share_head(sink, width)?;
    put_shares(sink, width, vcpus, reports)?;
    put_wait_head(sink, width)?;
    put_waits(sink, width, vcpus, reports)
}

// Writes what is after them.
fn put_end<K: Sink>(sink: &mut K, verdict: Verdict, report: &Report) -> Result<(), WriteFault>
    ensures { Writes (K.state sink.old) (K.state sink.new) (judgement_end verdict report.now) result }
{
    put_verdict(sink, report.end_ns, report.window_ns, verdict)?;
    put_verdict_end(sink, verdict)?;
    put_lines(sink, report)
}

#[tactic(auto, unfolding(crate::specs::Tables::share_head))]
fn put_share_head<K: Sink>(sink: &mut K, width: usize) -> Result<(), WriteFault>
    ensures { Writes (K.state sink.old) (K.state sink.new) (share_head width) result }
{
    put_cells(
        sink,
        &[
            Cell::Left(width, b"vcpu"),
            Cell::Text(
                b"       run ms      wait ms     block ms   asked %    owed %   least %       from ms        kept\n",
            ),
        ],
    )
}

#[tactic(auto, unfolding(crate::specs::Tables::wait_head))]
fn put_wait_head<K: Sink>(sink: &mut K, width: usize) -> Result<(), WriteFault>
    ensures { Writes (K.state sink.old) (K.state sink.new) (wait_head width) result }
{
    put_cells(
        sink,
        &[
            Cell::Text(b"\n"),
            Cell::Left(width, b"vcpu"),
            Cell::Text(b"   longest ms       from ms   cpu  promised ms   late        kept\n"),
        ],
    )
}

// Writes the row of shares of each vCPU.
fn put_shares<K: Sink>(
    sink: &mut K,
    width: usize,
    vcpus: &[Vcpu],
    reports: &[VcpuReport],
) -> Result<(), WriteFault>
    ensures { Writes (K.state sink.old) (K.state sink.new) (texts_below (share_row width vcpus.now reports.now) (length reports.now)) result }
{
    for vcpu in 0..reports.len() {
        put_share_row(sink, width, vcpus, reports, vcpu)?;
    }
    Ok(())
}

fn put_share_row<K: Sink>(
    sink: &mut K,
    width: usize,
    vcpus: &[Vcpu],
    reports: &[VcpuReport],
    vcpu: usize,
) -> Result<(), WriteFault>
    ensures { Writes (K.state sink.old) (K.state sink.new) (share_row width vcpus.now reports.now vcpu) result }
{
    match vcpus.get(vcpu) {
        Some(one) => put_share_said(sink, width, one, reports, vcpu),
        None => Ok(()),
    }
}

fn put_share_said<K: Sink>(
    sink: &mut K,
    width: usize,
    one: &Vcpu,
    reports: &[VcpuReport],
    vcpu: usize,
) -> Result<(), WriteFault>
    ensures { Writes (K.state sink.old) (K.state sink.new) (share_said width one.now (slice_get reports.now vcpu)) result }
{
    match reports.get(vcpu) {
        Some(report) => put_share_cells(sink, width, one.name.bytes(), &one.reservation, report),
        None => Ok(()),
    }
}

fn put_share_cells<K: Sink>(
    sink: &mut K,
    width: usize,
    name: &[u8],
    reserved: &Option<Reservation>,
    report: &VcpuReport,
) -> Result<(), WriteFault>
    ensures { Writes (K.state sink.old) (K.state sink.new) (share_cells width name.now reserved.now report.now) result }
{
    put_cells(
        sink,
        &[
            Cell::Left(width, name),
            Cell::Text(b"  "),
            Cell::Millis(7, report.run_ns),
            Cell::Text(b"  "),
            Cell::Millis(7, report.wait_ns),
            Cell::Text(b"  "),
            Cell::Millis(7, report.block_ns),
            Cell::Text(b"  "),
            asked_cell(reserved),
            Cell::Text(b"  "),
            owed_cell(report.owed_ppm),
            Cell::Text(b"  "),
            least_cell(&report.least),
            Cell::Text(b"  "),
            window_cell(&report.least),
            Cell::Text(b"  "),
            kept_cell(report.share_kept),
            Cell::Text(b"\n"),
        ],
    )
}

// Writes the row of waits of each vCPU.
fn put_waits<K: Sink>(
    sink: &mut K,
    width: usize,
    vcpus: &[Vcpu],
    reports: &[VcpuReport],
) -> Result<(), WriteFault>
    ensures { Writes (K.state sink.old) (K.state sink.new) (texts_below (wait_row width vcpus.now reports.now) (length reports.now)) result }
{
    for vcpu in 0..reports.len() {
        put_wait_row(sink, width, vcpus, reports, vcpu)?;
    }
    Ok(())
}

fn put_wait_row<K: Sink>(
    sink: &mut K,
    width: usize,
    vcpus: &[Vcpu],
    reports: &[VcpuReport],
    vcpu: usize,
) -> Result<(), WriteFault>
    ensures { Writes (K.state sink.old) (K.state sink.new) (wait_row width vcpus.now reports.now vcpu) result }
{
    match vcpus.get(vcpu) {
        Some(one) => put_wait_said(sink, width, one, reports, vcpu),
        None => Ok(()),
    }
}

fn put_wait_said<K: Sink>(
    sink: &mut K,
    width: usize,
    one: &Vcpu,
    reports: &[VcpuReport],
    vcpu: usize,
) -> Result<(), WriteFault>
    ensures { Writes (K.state sink.old) (K.state sink.new) (wait_said width one.now (slice_get reports.now vcpu)) result }
{
    match reports.get(vcpu) {
        Some(report) => put_wait_cells(sink, width, one.name.bytes(), &one.reservation, report),
        None => Ok(()),
    }
}

fn put_wait_cells<K: Sink>(
    sink: &mut K,
    width: usize,
    name: &[u8],
    reserved: &Option<Reservation>,
    report: &VcpuReport,
) -> Result<(), WriteFault>
    ensures { Writes (K.state sink.old) (K.state sink.new) (wait_cells width name.now reserved.now report.now) result }
{
    put_cells(
        sink,
        &[
            Cell::Left(width, name),
            Cell::Text(b"  "),
            longest_cell(&report.longest),
            Cell::Text(b"  "),
            begin_cell(&report.longest),
            Cell::Text(b"  "),
            cpu_cell(&report.longest),
            Cell::Text(b"  "),
            promised_cell(reserved),
            Cell::Text(b"  "),
            late_cell(report.late),
            Cell::Text(b"  "),
            kept_cell(report.waits_kept),
            Cell::Text(b"\n"),
        ],
    )
}

// Writes when the trace ends, how long a window is, and whether all was kept.
fn put_verdict<K: Sink>(
    sink: &mut K,
    end_ns: u64,
    window_ns: u64,
    verdict: Verdict,
) -> Result<(), WriteFault>
    ensures { Writes (K.state sink.old) (K.state sink.new)
        (verdict_text end_ns window_ns (verdict_words verdict)) result }
{
    put_judged(sink, end_ns, window_ns, verdict_words(verdict))
}

#[tactic(auto, unfolding(crate::specs::Tables::verdict_text))]
fn put_judged<K: Sink>(
    sink: &mut K,
    end_ns: u64,
    window_ns: u64,
    kept: &[u8],
) -> Result<(), WriteFault>
    ensures { Writes (K.state sink.old) (K.state sink.new) (verdict_text end_ns window_ns kept.now) result }
{
    put_cells(
        sink,
        &[
            Cell::Text(b"\ntrace up to "),
            Cell::Millis(0, end_ns),
            Cell::Text(b" ms, in windows of "),
            Cell::Millis(0, window_ns),
            Cell::Text(b" ms: "),
            Cell::Text(kept),
        ],
    )
}

fn verdict_words(verdict: Verdict) -> &'static [u8]
    ensures { result.now ≡ verdict_words verdict }
{
    match verdict {
        Verdict::Kept => b"kept",
        Verdict::Unjudged(_) => b"kept",
        Verdict::Broken => b"not kept",
    }
}

// Writes what comes after these words.
fn put_verdict_end<K: Sink>(sink: &mut K, verdict: Verdict) -> Result<(), WriteFault>
    ensures { Writes (K.state sink.old) (K.state sink.new) (verdict_end verdict) result }
{
    match verdict {
        Verdict::Kept => write_all(sink, b"\n"),
        Verdict::Unjudged(count) => put_unjudged(sink, count),
        Verdict::Broken => write_all(sink, b"\n"),
    }
}

fn put_unjudged<K: Sink>(sink: &mut K, count: u64) -> Result<(), WriteFault>
    ensures { Writes (K.state sink.old) (K.state sink.new) (unjudged_text count) result }
{
    put_unjudged_by(sink, shares_of(count), count, were_of(count))
}

#[tactic(auto, unfolding(crate::specs::Tables::unjudged_by))]
fn put_unjudged_by<'x, K: Sink>(
    sink: &mut K,
    shares: &'x [u8],
    count: u64,
    were: &'x [u8],
) -> Result<(), WriteFault>
    ensures { Writes (K.state sink.old) (K.state sink.new) (unjudged_by shares.now count were.now) result }
{
    put_pieces(
        sink,
        &[
            TextPiece::Text(shares),
            TextPiece::Wide(count),
            TextPiece::Text(were),
        ],
    )
}

fn shares_of(count: u64) -> &'static [u8]
    ensures { result.now ≡ shares_of count }
{
    if count == 1 {
        b", and the share of "
    } else {
        b", and the shares of "
    }
}

fn were_of(count: u64) -> &'static [u8]
    ensures { result.now ≡ were_of count }
{
    if count == 1 {
        b" vCPU was not judged\n"
    } else {
        b" vCPUs were not judged\n"
    }
}

// Writes what is wrong with the trace itself.
fn put_lines<K: Sink>(sink: &mut K, report: &Report) -> Result<(), WriteFault>
    ensures { Writes (K.state sink.old) (K.state sink.new) (lines_text report.now) result }
{
    put_unseen(sink, report)?;
    put_shared(sink, &report.shared)?;
    put_doubled(sink, &report.doubled)?;
    put_falls(sink, &report.falls)?;
    put_unknown(sink, &report.unknown)
}

fn put_unseen<K: Sink>(sink: &mut K, report: &Report) -> Result<(), WriteFault>
    ensures { Writes (K.state sink.old) (K.state sink.new)
        (unseen_text (is_any_seen report.now.vcpus.items)) result }
{
    write_all(sink, unseen_text(is_any_seen(&report.vcpus)))
}

fn unseen_text(is_any_seen: bool) -> &'static [u8]
    ensures { result.now ≡ unseen_text is_any_seen }
{
    if is_any_seen {
        b""
    } else {
        b"no vCPU of the host ran, waited or was blocked\n"
    }
}

fn put_shared<K: Sink>(sink: &mut K, lines: &LineCount) -> Result<(), WriteFault>
    ensures { Writes (K.state sink.old) (K.state sink.new) (line_count_text shared_kind lines.now) result }
{
    put_count(sink, b"lines that put two vCPUs on one CPU", lines)
}

fn put_doubled<K: Sink>(sink: &mut K, lines: &LineCount) -> Result<(), WriteFault>
    ensures { Writes (K.state sink.old) (K.state sink.new) (line_count_text doubled_kind lines.now) result }
{
    put_count(sink, b"lines that put a vCPU on two CPUs", lines)
}

fn put_falls<K: Sink>(sink: &mut K, lines: &LineCount) -> Result<(), WriteFault>
    ensures { Writes (K.state sink.old) (K.state sink.new) (line_count_text fall_kind lines.now) result }
{
    put_count(sink, b"lines whose time falls", lines)
}

fn put_unknown<K: Sink>(sink: &mut K, lines: &LineCount) -> Result<(), WriteFault>
    ensures { Writes (K.state sink.old) (K.state sink.new) (line_count_text unknown_kind lines.now) result }
{
    put_count(sink, b"lines of a vCPU that the host doesn't have", lines)
}

// Writes how many lines are of a kind, and the first, where there is one.
fn put_count<K: Sink>(sink: &mut K, kind: &[u8], lines: &LineCount) -> Result<(), WriteFault>
    ensures { Writes (K.state sink.old) (K.state sink.new) (line_count_text kind.now lines.now) result }
{
    match lines.first {
        Some(first) => put_line(sink, kind, lines.count, first),
        None => Ok(()),
    }
}

#[tactic(auto, unfolding(crate::specs::Tables::line_text))]
fn put_line<K: Sink>(sink: &mut K, kind: &[u8], count: u64, first: u64) -> Result<(), WriteFault>
    ensures { Writes (K.state sink.old) (K.state sink.new) (line_text kind.now count first) result }
{
    put_pieces(
        sink,
        &[
            TextPiece::Text(kind),
            TextPiece::Text(b": "),
            TextPiece::Wide(count),
            TextPiece::Text(b", the first is line "),
            TextPiece::Wide(first),
            TextPiece::Text(b"\n"),
        ],
    )
}
