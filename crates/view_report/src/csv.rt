ghost use Rattle.std.specs.Prelude.{◌<◌, flat_map, length};
ghost use Rattle.tab_io.specs.Sinks.{Writes};
ghost use Rattle.tab_words.specs.Texts.{texts_below};
ghost use Rattle.view_report.specs.RunCsv.{core_ran_csv, core_ran_row, run_csv, run_csv_head, vcpu_ran_csv};

use crate::json::time_piece;
use crate::report::RunReport;
use crate::said::{CoreRan, VcpuRan};
use tab_io::{Sink, WriteFault, write_all};
use tab_words::{TextPiece, put_pieces};

/// Writes what the report of a run says of each vCPU and each core as comma-separated values, after a line with the
/// columns' names. Times are in nanoseconds, for a tick of so many. What there isn't is empty.
///
/// A fault leaves a prefix of the text in the sink. Nothing is settled, and nothing is allocated.
pub fn write_report_csv<K: Sink>(
    sink: &mut K,
    report: &RunReport<'_>,
    tick_ns: u32,
) -> Result<(), WriteFault>
    ensures { Writes (K.state sink.old) (K.state sink.new) (run_csv tick_ns report.now) result }
{
    put_head(sink)?;
    put_vcpus(sink, &report.vcpus, tick_ns)?;
    put_cores(sink, &report.cores, tick_ns)
}

fn put_head<K: Sink>(sink: &mut K) -> Result<(), WriteFault>
    ensures { Writes (K.state sink.old) (K.state sink.new) run_csv_head result }
{
    write_all(
        sink,
        b"kind,name,offered_ns,slots_ns,shared_ns,gap_ns,idle_ns\n",
    )
}

// Writes the row of each vCPU.
fn put_vcpus<K: Sink>(sink: &mut K, vcpus: &[VcpuRan<'_>], tick_ns: u32) -> Result<(), WriteFault>
    ensures { Writes (K.state sink.old) (K.state sink.new) (flat_map (vcpu_ran_csv tick_ns) vcpus.now) result }
{
    for ran in vcpus {
        put_vcpu(sink, ran, tick_ns)?;
    }
    Ok(())
}

fn put_vcpu<K: Sink>(sink: &mut K, ran: &VcpuRan<'_>, tick_ns: u32) -> Result<(), WriteFault>
    ensures { Writes (K.state sink.old) (K.state sink.new) (vcpu_ran_csv tick_ns ran.now) result }
{
    let offered = time_piece(ran.offered, tick_ns);
    let slots = time_piece(ran.slots, tick_ns);
    let shared = time_piece(ran.shared, tick_ns);
    let gap = time_piece(ran.gap, tick_ns);
    put_pieces(
        sink,
        &[
            TextPiece::Text(b"vcpu,"),
            TextPiece::Text(ran.name),
            TextPiece::Text(b","),
            offered,
            TextPiece::Text(b","),
            slots,
            TextPiece::Text(b","),
            shared,
            TextPiece::Text(b","),
            gap,
            TextPiece::Text(b",\n"),
        ],
    )
}

// Writes the row of each core.
fn put_cores<K: Sink>(sink: &mut K, cores: &[CoreRan], tick_ns: u32) -> Result<(), WriteFault>
    ensures { Writes (K.state sink.old) (K.state sink.new) (texts_below (core_ran_row tick_ns cores.now) (length cores.now)) result }
{
    for number in 0..cores.len() {
        put_core(sink, cores, tick_ns, number)?;
    }
    Ok(())
}

fn put_core<K: Sink>(
    sink: &mut K,
    cores: &[CoreRan],
    tick_ns: u32,
    number: usize,
) -> Result<(), WriteFault>
    requires { number < length cores.now }
    ensures { Writes (K.state sink.old) (K.state sink.new) (core_ran_row tick_ns cores.now number) result }
{
    let ran = cores[number];
    put_core_ran(sink, number, &ran, tick_ns)
}

fn put_core_ran<K: Sink>(
    sink: &mut K,
    number: usize,
    ran: &CoreRan,
    tick_ns: u32,
) -> Result<(), WriteFault>
    ensures { Writes (K.state sink.old) (K.state sink.new) (core_ran_csv tick_ns number ran.now) result }
{
    let slots = time_piece(ran.slots, tick_ns);
    let shared = time_piece(ran.shared, tick_ns);
    let idle = time_piece(ran.idle, tick_ns);
    put_pieces(
        sink,
        &[
            TextPiece::Text(b"core,"),
            TextPiece::Wide(number as u64),
            TextPiece::Text(b",,"),
            slots,
            TextPiece::Text(b","),
            shared,
            TextPiece::Text(b",,"),
            idle,
            TextPiece::Text(b"\n"),
        ],
    )
}
