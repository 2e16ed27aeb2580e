ghost use Rattle.std.specs.Prelude.{◌≡◌, ◌*◌, ◌<◌, decimal, length, slice_get};
ghost use Rattle.tab_io.specs.Sinks.{Writes};
ghost use Rattle.tab_words.specs.Pieces.{piece_text};
ghost use Rattle.view_cells.specs.CellTexts.{comma_before};
ghost use Rattle.view_report.specs.RunJson.{array_item, array_items, change_json, core_ran_json, outcome_json, plan_start_json, planned_json, refused_json, run_json, run_json_begin, text_of_some, vcpu_ran_json};

use crate::report::RunReport;
use crate::said::{Became, CoreRan, PlanStart, ReportedChange, VcpuRan};
use tab_io::{Sink, WriteFault, write_all};
use tab_words::{TextPiece, put_pieces};

/// Writes what the report of a run says as JSON, in one line: the counts of rounds and events, what became of each
/// change, the rounds that begin with another plan, and what each vCPU and each core got. Times are in nanoseconds, for
/// a tick of so many.
///
/// A fault leaves a prefix of the text in the sink. Nothing is settled, and nothing is allocated.
pub fn write_report_json<K: Sink>(
    sink: &mut K,
    report: &RunReport<'_>,
    tick_ns: u32,
) -> Result<(), WriteFault>
    ensures { Writes (K.state sink.old) (K.state sink.new) (run_json tick_ns report.now) result }
{
    put_begin(sink, tick_ns, report.rounds, report.events)?;
    put_changes(sink, &report.changes, tick_ns)?;
    write_all(sink, b"],\"plans\":[")?;
    put_plans(sink, &report.plans)?;
    write_all(sink, b"],\"vcpus\":[")?;
    put_vcpus(sink, &report.vcpus, tick_ns)?;
    write_all(sink, b"],\"cores\":[")?;
    put_cores(sink, &report.cores, tick_ns)?;
    write_all(sink, b"]}\n")
}

// Ticks in nanoseconds, as a piece of a text.
pub(crate) fn time_piece(ticks: u32, tick_ns: u32) -> TextPiece<'static>
    ensures { piece_text result ≡ decimal (ticks * tick_ns) }
{
    TextPiece::Wide(u64::from(ticks) * u64::from(tick_ns))
}

// Writes the text up to the changes.
#[tactic(auto, unfolding(crate::specs::RunJson::run_json_begin))]
fn put_begin<K: Sink>(
    sink: &mut K,
    tick_ns: u32,
    rounds: u32,
    events: u32,
) -> Result<(), WriteFault>
    ensures { Writes (K.state sink.old) (K.state sink.new) (run_json_begin tick_ns rounds events) result }
{
    put_pieces(
        sink,
        &[
            TextPiece::Text(b"{\"form\":1,\"tick_ns\":"),
            TextPiece::Number(tick_ns),
            TextPiece::Text(b",\"rounds\":"),
            TextPiece::Number(rounds),
            TextPiece::Text(b",\"events\":"),
            TextPiece::Number(events),
            TextPiece::Text(b",\"changes\":["),
        ],
    )
}

// Writes a comma before each item but the first.
fn put_comma<K: Sink>(sink: &mut K, number: usize) -> Result<(), WriteFault>
    ensures { Writes (K.state sink.old) (K.state sink.new) (comma_before number) result }
{
    if number == 0 {
        Ok(())
    } else {
        write_all(sink, b",")
    }
}

// Writes the object of each change.
fn put_changes<K: Sink>(
    sink: &mut K,
    changes: &[ReportedChange<'_>],
    tick_ns: u32,
) -> Result<(), WriteFault>
    ensures { Writes (K.state sink.old) (K.state sink.new) (array_items (change_json tick_ns) changes.now) result }
{
    for number in 0..changes.len() {
        put_change(sink, changes, tick_ns, number)?;
    }
    Ok(())
}

fn put_change<K: Sink>(
    sink: &mut K,
    changes: &[ReportedChange<'_>],
    tick_ns: u32,
    number: usize,
) -> Result<(), WriteFault>
    requires { number < length changes.now }
    ensures { Writes (K.state sink.old) (K.state sink.new) (array_item (change_json tick_ns) changes.now number) result }
{
    put_comma(sink, number)?;
    put_change_at(sink, changes, tick_ns, number)
}

fn put_change_at<K: Sink>(
    sink: &mut K,
    changes: &[ReportedChange<'_>],
    tick_ns: u32,
    number: usize,
) -> Result<(), WriteFault>
    requires { number < length changes.now }
    ensures { Writes (K.state sink.old) (K.state sink.new) (text_of_some (change_json tick_ns) (slice_get changes.now number)) result }
{
    let change = changes[number];
    put_outcome(sink, change.tick, &change.became, tick_ns)
}

// Writes what became of the change of this tick.
fn put_outcome<K: Sink>(
    sink: &mut K,
    at: u32,
    became: &Became<'_>,
    tick_ns: u32,
) -> Result<(), WriteFault>
    ensures { Writes (K.state sink.old) (K.state sink.new) (outcome_json tick_ns at became.now) result }
{
    match *became {
        Became::Planned => put_planned(sink, at, tick_ns),
        Became::NoPeriod(name) => put_refused(sink, at, b"no period", name, tick_ns),
        Became::NoRoom(name) => put_refused(sink, at, b"no room", name, tick_ns),
    }
}

fn put_planned<K: Sink>(sink: &mut K, at: u32, tick_ns: u32) -> Result<(), WriteFault>
    ensures { Writes (K.state sink.old) (K.state sink.new) (planned_json tick_ns at) result }
{
    let time = time_piece(at, tick_ns);
    put_pieces(
        sink,
        &[
            TextPiece::Text(b"{\"at_ns\":"),
            time,
            TextPiece::Text(b",\"outcome\":\"planned\",\"vcpu\":null}"),
        ],
    )
}

fn put_refused<'a, K: Sink>(
    sink: &mut K,
    at: u32,
    cause: &'a [u8],
    name: &'a [u8],
    tick_ns: u32,
) -> Result<(), WriteFault>
    ensures { Writes (K.state sink.old) (K.state sink.new) (refused_json tick_ns at cause.now name.now) result }
{
    let time = time_piece(at, tick_ns);
    put_pieces(
        sink,
        &[
            TextPiece::Text(b"{\"at_ns\":"),
            time,
            TextPiece::Text(b",\"outcome\":\""),
            TextPiece::Text(cause),
            TextPiece::Text(b"\",\"vcpu\":\""),
            TextPiece::Text(name),
            TextPiece::Text(b"\"}"),
        ],
    )
}

// Writes the object of each round that begins with another plan.
fn put_plans<K: Sink>(sink: &mut K, plans: &[PlanStart]) -> Result<(), WriteFault>
    ensures { Writes (K.state sink.old) (K.state sink.new) (array_items plan_start_json plans.now) result }
{
    for number in 0..plans.len() {
        put_plan(sink, plans, number)?;
    }
    Ok(())
}

fn put_plan<K: Sink>(sink: &mut K, plans: &[PlanStart], number: usize) -> Result<(), WriteFault>
    requires { number < length plans.now }
    ensures { Writes (K.state sink.old) (K.state sink.new) (array_item plan_start_json plans.now number) result }
{
    put_comma(sink, number)?;
    put_plan_at(sink, plans, number)
}

fn put_plan_at<K: Sink>(sink: &mut K, plans: &[PlanStart], number: usize) -> Result<(), WriteFault>
    requires { number < length plans.now }
    ensures { Writes (K.state sink.old) (K.state sink.new) (text_of_some plan_start_json (slice_get plans.now number)) result }
{
    let start = plans[number];
    put_start(sink, &start)
}

#[tactic(auto, unfolding(crate::specs::RunJson::plan_start_json))]
fn put_start<K: Sink>(sink: &mut K, start: &PlanStart) -> Result<(), WriteFault>
    ensures { Writes (K.state sink.old) (K.state sink.new) (plan_start_json start.now) result }
{
    put_pieces(
        sink,
        &[
            TextPiece::Text(b"{\"round\":"),
            TextPiece::Number(start.round),
            TextPiece::Text(b",\"plan\":"),
            TextPiece::Number(start.plan),
            TextPiece::Text(b"}"),
        ],
    )
}

// Writes the object of each vCPU.
fn put_vcpus<K: Sink>(sink: &mut K, vcpus: &[VcpuRan<'_>], tick_ns: u32) -> Result<(), WriteFault>
    ensures { Writes (K.state sink.old) (K.state sink.new) (array_items (vcpu_ran_json tick_ns) vcpus.now) result }
{
    for number in 0..vcpus.len() {
        put_vcpu(sink, vcpus, tick_ns, number)?;
    }
    Ok(())
}

fn put_vcpu<K: Sink>(
    sink: &mut K,
    vcpus: &[VcpuRan<'_>],
    tick_ns: u32,
    number: usize,
) -> Result<(), WriteFault>
    requires { number < length vcpus.now }
    ensures { Writes (K.state sink.old) (K.state sink.new) (array_item (vcpu_ran_json tick_ns) vcpus.now number) result }
{
    put_comma(sink, number)?;
    put_vcpu_at(sink, vcpus, tick_ns, number)
}

fn put_vcpu_at<K: Sink>(
    sink: &mut K,
    vcpus: &[VcpuRan<'_>],
    tick_ns: u32,
    number: usize,
) -> Result<(), WriteFault>
    requires { number < length vcpus.now }
    ensures { Writes (K.state sink.old) (K.state sink.new) (text_of_some (vcpu_ran_json tick_ns) (slice_get vcpus.now number)) result }
{
    let ran = vcpus[number];
    put_vcpu_ran(sink, &ran, tick_ns)
}

fn put_vcpu_ran<K: Sink>(sink: &mut K, ran: &VcpuRan<'_>, tick_ns: u32) -> Result<(), WriteFault>
    ensures { Writes (K.state sink.old) (K.state sink.new) (vcpu_ran_json tick_ns ran.now) result }
{
    let offered = time_piece(ran.offered, tick_ns);
    let slots = time_piece(ran.slots, tick_ns);
    let shared = time_piece(ran.shared, tick_ns);
    let gap = time_piece(ran.gap, tick_ns);
    put_pieces(
        sink,
        &[
            TextPiece::Text(b"{\"name\":\""),
            TextPiece::Text(ran.name),
            TextPiece::Text(b"\",\"offered_ns\":"),
            offered,
            TextPiece::Text(b",\"slots_ns\":"),
            slots,
            TextPiece::Text(b",\"shared_ns\":"),
            shared,
            TextPiece::Text(b",\"gap_ns\":"),
            gap,
            TextPiece::Text(b"}"),
        ],
    )
}

// Writes the object of each core.
fn put_cores<K: Sink>(sink: &mut K, cores: &[CoreRan], tick_ns: u32) -> Result<(), WriteFault>
    ensures { Writes (K.state sink.old) (K.state sink.new) (array_items (core_ran_json tick_ns) cores.now) result }
{
    for number in 0..cores.len() {
        put_core(sink, cores, tick_ns, number)?;
    }
    Ok(())
}

fn put_core<K: Sink>(
    sink: &mut K,
    cores: &[CoreRan],
    tick_ns: u32,
    number: usize,
) -> Result<(), WriteFault>
    requires { number < length cores.now }
    ensures { Writes (K.state sink.old) (K.state sink.new) (array_item (core_ran_json tick_ns) cores.now number) result }
{
    put_comma(sink, number)?;
    put_core_at(sink, cores, tick_ns, number)
}

fn put_core_at<K: Sink>(
    sink: &mut K,
    cores: &[CoreRan],
    tick_ns: u32,
    number: usize,
) -> Result<(), WriteFault>
    requires { number < length cores.now }
    ensures { Writes (K.state sink.old) (K.state sink.new) (text_of_some (core_ran_json tick_ns) (slice_get cores.now number)) result }
{
    let ran = cores[number];
    put_core_ran(sink, &ran, tick_ns)
}

fn put_core_ran<K: Sink>(sink: &mut K, ran: &CoreRan, tick_ns: u32) -> Result<(), WriteFault>
    ensures { Writes (K.state sink.old) (K.state sink.new) (core_ran_json tick_ns ran.now) result }
{
    let slots = time_piece(ran.slots, tick_ns);
    let shared = time_piece(ran.shared, tick_ns);
    let idle = time_piece(ran.idle, tick_ns);
    put_pieces(
        sink,
        &[
            TextPiece::Text(b"{\"slots_ns\":"),
            slots,
            TextPiece::Text(b",\"shared_ns\":"),
            shared,
            TextPiece::Text(b",\"idle_ns\":"),
            idle,
            TextPiece::Text(b"}"),
        ],
    )
}
