ghost use Rattle.std.specs.Prelude.{◌≡◌, length, slice_get};
ghost use Rattle.tab_io.specs.Sinks.{Writes};
ghost use Rattle.tab_words.specs.Texts.{texts_below};
ghost use Rattle.view_cells.specs.CellTexts.{comma_before};
ghost use Rattle.view_judge.specs.Json.{answer_text, answers_json, answers_text, entry_text, judgement_json, judgement_json_begin, judgement_json_vcpus, late_text, late_waits_json, least_share_json, least_text, line_counts_json, longest_text, longest_wait_json, object_of, owed_share_json, owed_text, said_of, times_text, vcpu_object, verdict_json};
ghost use Rattle.view_judge.specs.Verdicts.{unjudged_in, verdict_of};

use crate::said::Verdict;
use crate::verdict::{both_kept, unjudged_in, verdict_of};
use host_judge::{LeastShare, LongestWait, Report, VcpuReport};
use tab_core::Vcpu;
use tab_io::{Sink, WriteFault, write_all};
use tab_words::{TextPiece, put_pieces};

/// Writes what is said of the vCPUs of a host as JSON, in one line: the length of a window in ns, whether the host kept
/// its promises, how many vCPUs have one that wasn't judged, how many lines contradict others or are of a vCPU that the
/// host doesn't have, and an object for each vCPU in the host's order.
///
/// Times are in ns and shares in parts per million. Where there is no wait, no window or no reservation, or something
/// wasn't judged, there is null.
///
/// A fault leaves a prefix of the text in the sink. Nothing is settled, and nothing is allocated.
pub fn write_json<K: Sink>(sink: &mut K, vcpus: &[Vcpu], report: &Report) -> Result<(), WriteFault>
    ensures { Writes (K.state sink.old) (K.state sink.new) (judgement_json vcpus.now report.now) result }
{
    put_begin(sink, report)?;
    put_line_counts(
        sink,
        report.shared.count,
        report.doubled.count,
        report.falls.count,
        report.unknown.count,
    )?;
    put_vcpus(sink, vcpus, report)
}

fn put_vcpus<K: Sink>(sink: &mut K, vcpus: &[Vcpu], report: &Report) -> Result<(), WriteFault>
    ensures { Writes (K.state sink.old) (K.state sink.new)
        (judgement_json_vcpus vcpus.now report.now.vcpus.items) result }
{
    put_objects(sink, vcpus, &report.vcpus)
}

fn put_objects<K: Sink>(
    sink: &mut K,
    vcpus: &[Vcpu],
    reports: &[VcpuReport],
) -> Result<(), WriteFault>
    ensures { Writes (K.state sink.old) (K.state sink.new) (judgement_json_vcpus vcpus.now reports.now) result }
{
    put_entries(sink, vcpus, reports)?;
    write_all(sink, b"]}\n")
}

fn verdict_json(verdict: Verdict) -> &'static [u8]
    ensures { result.now ≡ verdict_json verdict }
{
    match verdict {
        Verdict::Kept => b"true",
        Verdict::Unjudged(_) => b"null",
        Verdict::Broken => b"false",
    }
}

fn put_begin<K: Sink>(sink: &mut K, report: &Report) -> Result<(), WriteFault>
    ensures { Writes (K.state sink.old) (K.state sink.new)
        (judgement_json_begin report.now.window_ns (verdict_json (verdict_of report.now))
        (unjudged_in report.now.vcpus.items)) result }
{
    put_window(
        sink,
        report.window_ns,
        verdict_json(verdict_of(report)),
        unjudged_in(&report.vcpus),
    )
}

#[tactic(auto, unfolding(crate::specs::Json::judgement_json_begin))]
fn put_window<K: Sink>(
    sink: &mut K,
    window_ns: u64,
    kept: &[u8],
    unjudged: u64,
) -> Result<(), WriteFault>
    ensures { Writes (K.state sink.old) (K.state sink.new) (judgement_json_begin window_ns kept.now unjudged) result }
{
    put_pieces(
        sink,
        &[
            TextPiece::Text(b"{\"form\":2,\"window_ns\":"),
            TextPiece::Wide(window_ns),
            TextPiece::Text(b",\"kept\":"),
            TextPiece::Text(kept),
            TextPiece::Text(b",\"unjudged_vcpus\":"),
            TextPiece::Wide(unjudged),
            TextPiece::Text(b","),
        ],
    )
}

#[tactic(auto, unfolding(crate::specs::Json::line_counts_json))]
fn put_line_counts<K: Sink>(
    sink: &mut K,
    shared: u64,
    doubled: u64,
    falls: u64,
    unknown: u64,
) -> Result<(), WriteFault>
    ensures { Writes (K.state sink.old) (K.state sink.new) (line_counts_json shared doubled falls unknown) result }
{
    put_pieces(
        sink,
        &[
            TextPiece::Text(b"\"shared_cpu_lines\":"),
            TextPiece::Wide(shared),
            TextPiece::Text(b",\"two_cpu_lines\":"),
            TextPiece::Wide(doubled),
            TextPiece::Text(b",\"falling_lines\":"),
            TextPiece::Wide(falls),
            TextPiece::Text(b",\"unknown_vcpu_lines\":"),
            TextPiece::Wide(unknown),
            TextPiece::Text(b",\"vcpus\":["),
        ],
    )
}

// Writes the object of each vCPU.
fn put_entries<K: Sink>(
    sink: &mut K,
    vcpus: &[Vcpu],
    reports: &[VcpuReport],
) -> Result<(), WriteFault>
    ensures { Writes (K.state sink.old) (K.state sink.new) (texts_below (entry_text vcpus.now reports.now) (length reports.now)) result }
{
    for vcpu in 0..reports.len() {
        put_entry(sink, vcpus, reports, vcpu)?;
    }
    Ok(())
}

// Writes what is there for the vCPU of a number.
fn put_entry<K: Sink>(
    sink: &mut K,
    vcpus: &[Vcpu],
    reports: &[VcpuReport],
    vcpu: usize,
) -> Result<(), WriteFault>
    ensures { Writes (K.state sink.old) (K.state sink.new) (entry_text vcpus.now reports.now vcpu) result }
{
    put_comma(sink, vcpu)?;
    put_one(sink, vcpus, reports, vcpu)
}

fn put_comma<K: Sink>(sink: &mut K, vcpu: usize) -> Result<(), WriteFault>
    ensures { Writes (K.state sink.old) (K.state sink.new) (comma_before vcpu) result }
{
    write_all(sink, comma_before(vcpu))
}

fn comma_before(vcpu: usize) -> &'static [u8]
    ensures { result.now ≡ comma_before vcpu }
{
    if vcpu == 0 { b"" } else { b"," }
}

fn put_one<K: Sink>(
    sink: &mut K,
    vcpus: &[Vcpu],
    reports: &[VcpuReport],
    vcpu: usize,
) -> Result<(), WriteFault>
    ensures { Writes (K.state sink.old) (K.state sink.new) (object_of (slice_get vcpus.now vcpu) (slice_get reports.now vcpu)) result }
{
    match vcpus.get(vcpu) {
        Some(one) => put_said(sink, one.name.bytes(), reports, vcpu),
        None => Ok(()),
    }
}

fn put_said<K: Sink>(
    sink: &mut K,
    name: &[u8],
    reports: &[VcpuReport],
    vcpu: usize,
) -> Result<(), WriteFault>
    ensures { Writes (K.state sink.old) (K.state sink.new) (said_of name.now (slice_get reports.now vcpu)) result }
{
    match reports.get(vcpu) {
        Some(report) => put_object(sink, name, report),
        None => Ok(()),
    }
}

fn put_object<K: Sink>(sink: &mut K, name: &[u8], report: &VcpuReport) -> Result<(), WriteFault>
    ensures { Writes (K.state sink.old) (K.state sink.new) (vcpu_object name.now report.now) result }
{
    put_times(sink, name, report)?;
    put_longest(sink, &report.longest)?;
    put_late(sink, report.late)?;
    put_least(sink, &report.least)?;
    put_owed(sink, report.owed_ppm)?;
    put_answers(sink, report)
}

#[tactic(auto, unfolding(crate::specs::Json::times_text))]
fn put_times<K: Sink>(sink: &mut K, name: &[u8], report: &VcpuReport) -> Result<(), WriteFault>
    ensures { Writes (K.state sink.old) (K.state sink.new) (times_text name.now report.now) result }
{
    put_pieces(
        sink,
        &[
            TextPiece::Text(b"{\"name\":\""),
            TextPiece::Text(name),
            TextPiece::Text(b"\",\"run_ns\":"),
            TextPiece::Wide(report.run_ns),
            TextPiece::Text(b",\"wait_ns\":"),
            TextPiece::Wide(report.wait_ns),
            TextPiece::Text(b",\"block_ns\":"),
            TextPiece::Wide(report.block_ns),
            TextPiece::Text(b","),
        ],
    )
}

fn put_longest<K: Sink>(sink: &mut K, longest: &Option<LongestWait>) -> Result<(), WriteFault>
    ensures { Writes (K.state sink.old) (K.state sink.new) (longest_text longest.now) result }
{
    match longest {
        Some(wait) => put_wait(sink, wait),
        None => write_all(
            sink,
            b"\"longest_wait_ns\":null,\"longest_wait_at_ns\":null,",
        ),
    }
}

#[tactic(auto, unfolding(crate::specs::Json::longest_wait_json))]
fn put_wait<K: Sink>(sink: &mut K, wait: &LongestWait) -> Result<(), WriteFault>
    ensures { Writes (K.state sink.old) (K.state sink.new) (longest_wait_json wait.now) result }
{
    put_pieces(
        sink,
        &[
            TextPiece::Text(b"\"longest_wait_ns\":"),
            TextPiece::Wide(wait.ns),
            TextPiece::Text(b",\"longest_wait_at_ns\":"),
            TextPiece::Wide(wait.at_ns),
            TextPiece::Text(b","),
        ],
    )
}

fn put_late<K: Sink>(sink: &mut K, late: Option<u64>) -> Result<(), WriteFault>
    ensures { Writes (K.state sink.old) (K.state sink.new) (late_text late) result }
{
    match late {
        Some(count) => put_count(sink, count),
        None => write_all(sink, b"\"late_waits\":null,"),
    }
}

#[tactic(auto, unfolding(crate::specs::Json::late_waits_json))]
fn put_count<K: Sink>(sink: &mut K, count: u64) -> Result<(), WriteFault>
    ensures { Writes (K.state sink.old) (K.state sink.new) (late_waits_json count) result }
{
    put_pieces(
        sink,
        &[
            TextPiece::Text(b"\"late_waits\":"),
            TextPiece::Wide(count),
            TextPiece::Text(b","),
        ],
    )
}

fn put_least<K: Sink>(sink: &mut K, least: &Option<LeastShare>) -> Result<(), WriteFault>
    ensures { Writes (K.state sink.old) (K.state sink.new) (least_text least.now) result }
{
    match least {
        Some(share) => put_share(sink, share),
        None => write_all(
            sink,
            b"\"least_share_ppm\":null,\"least_share_at_ns\":null,",
        ),
    }
}

#[tactic(auto, unfolding(crate::specs::Json::least_share_json))]
fn put_share<K: Sink>(sink: &mut K, least: &LeastShare) -> Result<(), WriteFault>
    ensures { Writes (K.state sink.old) (K.state sink.new) (least_share_json least.now) result }
{
    put_pieces(
        sink,
        &[
            TextPiece::Text(b"\"least_share_ppm\":"),
            TextPiece::Number(least.share_ppm),
            TextPiece::Text(b",\"least_share_at_ns\":"),
            TextPiece::Wide(least.at_ns),
            TextPiece::Text(b","),
        ],
    )
}

fn put_owed<K: Sink>(sink: &mut K, owed_ppm: Option<u32>) -> Result<(), WriteFault>
    ensures { Writes (K.state sink.old) (K.state sink.new) (owed_text owed_ppm) result }
{
    match owed_ppm {
        Some(ppm) => put_owed_share(sink, ppm),
        None => write_all(sink, b"\"owed_share_ppm\":null,"),
    }
}

#[tactic(auto, unfolding(crate::specs::Json::owed_share_json))]
fn put_owed_share<K: Sink>(sink: &mut K, ppm: u32) -> Result<(), WriteFault>
    ensures { Writes (K.state sink.old) (K.state sink.new) (owed_share_json ppm) result }
{
    put_pieces(
        sink,
        &[
            TextPiece::Text(b"\"owed_share_ppm\":"),
            TextPiece::Number(ppm),
            TextPiece::Text(b","),
        ],
    )
}

fn put_answers<K: Sink>(sink: &mut K, report: &VcpuReport) -> Result<(), WriteFault>
    ensures { Writes (K.state sink.old) (K.state sink.new) (answers_text report.now) result }
{
    put_all_answers(
        sink,
        answer_text(report.share_kept),
        answer_text(report.waits_kept),
        answer_text(both_kept(report.waits_kept, report.share_kept)),
    )
}

#[tactic(auto, unfolding(crate::specs::Json::answers_json))]
fn put_all_answers<'x, K: Sink>(
    sink: &mut K,
    share: &'x [u8],
    waits: &'x [u8],
    kept: &'x [u8],
) -> Result<(), WriteFault>
    ensures { Writes (K.state sink.old) (K.state sink.new) (answers_json share.now waits.now kept.now) result }
{
    put_pieces(
        sink,
        &[
            TextPiece::Text(b"\"share_kept\":"),
            TextPiece::Text(share),
            TextPiece::Text(b",\"waits_kept\":"),
            TextPiece::Text(waits),
            TextPiece::Text(b",\"kept\":"),
            TextPiece::Text(kept),
            TextPiece::Text(b"}"),
        ],
    )
}

fn answer_text(answer: Option<bool>) -> &'static [u8]
    ensures { result.now ≡ answer_text answer }
{
    match answer {
        Some(true) => b"true",
        Some(false) => b"false",
        None => b"null",
    }
}
