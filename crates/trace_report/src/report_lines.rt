ghost use Rattle.std.specs.Prelude.{◌≡◌, flat_map, length};
ghost use Rattle.tab_io.specs.Sinks.{Writes};
ghost use Rattle.tab_words.specs.Texts.{texts_below};
ghost use Rattle.vcpu_names.specs.Names.{name_at, names_of};
ghost use Rattle.trace_report.specs.ReportText.{change_at, core_line, done_line, report_text, round_line, run_line, vcpu_line};
ghost use Rattle.trace_report.specs.ReportViews.{core_ticks_at, vcpu_at};

use crate::change_line::put_change;
use crate::report::Report;
use crate::ticks::{CoreTicks, VcpuTicks};
use plan_book::Outcome;
use run_counts::RoundPlan;
use tab_core::{Host, Vcpu};
use tab_io::{Sink, WriteFault};
use tab_words::{TextPiece, put_line};

/// Writes the report of a run of so many rounds and events, for the names of a host. `changes` has for
/// each change of the script its tick and what became of it.
///
/// The report tells of each vCPU and each core of the host. A fault leaves a prefix of the text in
/// the sink. Nothing is settled, and nothing is allocated.
pub fn write_report<K: Sink>(
    sink: &mut K,
    host: &Host,
    changes: &[(u32, Outcome)],
    events: u32,
    rounds: u32,
    report: &Report,
) -> Result<(), WriteFault>
    requires each_vcpu { length report.now.vcpus ≡ length host.now.vcpus }
    requires each_core { length report.now.cores ≡ host.now.cores }
    ensures { Writes (K.state sink.old) (K.state sink.new)
        (report_text host.now changes.now events rounds report.now) result }
{
    let vcpus = host.vcpus.items();
    put_run(sink, rounds, host.cores, events)?;
    put_changes(sink, vcpus, changes)?;
    put_rounds(sink, report.plans())?;
    put_vcpus(sink, vcpus, report.vcpus())?;
    put_cores(sink, report.cores())?;
    put_done(sink)
}

// Writes the first line.
#[tactic(auto, unfolding(crate::specs::ReportText::run_line))]
fn put_run<K: Sink>(sink: &mut K, rounds: u32, cores: u32, events: u32) -> Result<(), WriteFault>
    ensures { Writes (K.state sink.old) (K.state sink.new) (run_line rounds cores events) result }
{
    put_line(
        sink,
        &[
            TextPiece::Text(b"run"),
            TextPiece::Number(rounds),
            TextPiece::Text(b"rounds"),
            TextPiece::Number(cores),
            TextPiece::Text(b"cores"),
            TextPiece::Number(events),
            TextPiece::Text(b"events"),
        ],
    )
}

// Writes a line for each change.
fn put_changes<K: Sink>(
    sink: &mut K,
    vcpus: &[Vcpu],
    changes: &[(u32, Outcome)],
) -> Result<(), WriteFault>
    ensures { Writes (K.state sink.old) (K.state sink.new)
        (texts_below (change_at (names_of vcpus.now) changes.now) (length changes.now)) result }
{
    for k in 0..changes.len() {
        let change = &changes[k];
        put_change(sink, vcpus, k as u64, change.0, &change.1)?;
    }
    Ok(())
}

// Writes a line for each of these rounds.
fn put_rounds<K: Sink>(sink: &mut K, plans: &[RoundPlan]) -> Result<(), WriteFault>
    ensures { Writes (K.state sink.old) (K.state sink.new) (flat_map round_line plans.now) result }
{
    for one in plans {
        put_round(sink, one)?;
    }
    Ok(())
}

#[tactic(auto, unfolding(crate::specs::ReportText::round_line))]
fn put_round<K: Sink>(sink: &mut K, one: &RoundPlan) -> Result<(), WriteFault>
    ensures { Writes (K.state sink.old) (K.state sink.new) (round_line one.now) result }
{
    put_line(
        sink,
        &[
            TextPiece::Text(b"round"),
            TextPiece::Number(one.round),
            TextPiece::Text(b"plan"),
            TextPiece::Number(one.plan),
        ],
    )
}

// Writes a line for each vCPU.
fn put_vcpus<K: Sink>(sink: &mut K, vcpus: &[Vcpu], ticks: &[VcpuTicks]) -> Result<(), WriteFault>
    requires { length ticks.now ≡ length vcpus.now }
    ensures { Writes (K.state sink.old) (K.state sink.new)
        (texts_below (λ v. vcpu_line (name_at (names_of vcpus.now) v) (vcpu_at ticks.now v))
        (length vcpus.now)) result }
{
    for v in 0..vcpus.len() {
        put_vcpu(sink, &vcpus[v], &ticks[v])?;
    }
    Ok(())
}

#[tactic(auto, unfolding(crate::specs::ReportText::vcpu_line))]
fn put_vcpu<K: Sink>(sink: &mut K, vcpu: &Vcpu, ticks: &VcpuTicks) -> Result<(), WriteFault>
    ensures { Writes (K.state sink.old) (K.state sink.new) (vcpu_line vcpu.now.name ticks.now) result }
{
    put_line(
        sink,
        &[
            TextPiece::Text(b"vcpu"),
            TextPiece::Text(vcpu.name.bytes()),
            TextPiece::Text(b"offered"),
            TextPiece::Wide(ticks.offered),
            TextPiece::Text(b"slots"),
            TextPiece::Wide(ticks.slots),
            TextPiece::Text(b"shared"),
            TextPiece::Wide(ticks.shared),
            TextPiece::Text(b"gap"),
            TextPiece::Number(ticks.gap),
        ],
    )
}

// Writes a line for each core.
fn put_cores<K: Sink>(sink: &mut K, cores: &[CoreTicks]) -> Result<(), WriteFault>
    ensures { Writes (K.state sink.old) (K.state sink.new)
        (texts_below (λ c. core_line c (core_ticks_at cores.now c)) (length cores.now)) result }
{
    for c in 0..cores.len() {
        put_core(sink, c as u64, &cores[c])?;
    }
    Ok(())
}

#[tactic(auto, unfolding(crate::specs::ReportText::core_line))]
fn put_core<K: Sink>(sink: &mut K, core: u64, ticks: &CoreTicks) -> Result<(), WriteFault>
    ensures { Writes (K.state sink.old) (K.state sink.new) (core_line core ticks.now) result }
{
    put_line(
        sink,
        &[
            TextPiece::Text(b"core"),
            TextPiece::Wide(core),
            TextPiece::Text(b"slots"),
            TextPiece::Wide(ticks.slots),
            TextPiece::Text(b"shared"),
            TextPiece::Wide(ticks.shared),
            TextPiece::Text(b"idle"),
            TextPiece::Wide(ticks.idle),
        ],
    )
}

// Writes the last line.
#[tactic(auto, unfolding(crate::specs::ReportText::done_line))]
fn put_done<K: Sink>(sink: &mut K) -> Result<(), WriteFault>
    ensures { Writes (K.state sink.old) (K.state sink.new) done_line result }
{
    put_line(sink, &[TextPiece::Text(b"done")])
}
