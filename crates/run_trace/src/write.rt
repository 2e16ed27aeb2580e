ghost use Rattle.std.specs.Prelude.{◌≡◌, flat_map};
ghost use Rattle.tab_io.specs.Sinks.{Writes};
ghost use Rattle.vcpu_names.specs.Names.{name_at};
ghost use Rattle.run_trace.specs.RunTraces.{run_text, turn_line, waits_line};

use crate::turn::Turn;
use host_trace::{State, Told};
use tab_core::{Name, VcpuNo};
use tab_io::{Sink, WriteFault};
use trace_text::{put_trace_head, put_trace_line};
use view_report::VcpuRan;

/// Writes a run as the trace of a host: the head, a line at time 0 by which each vCPU of the report waits, and a line for
/// each turn of the vCPUs of these names.
///
/// A tick has `tick_ns` nanoseconds. A vCPU that stops waits. A fault leaves a prefix of the text in the sink. Nothing is
/// settled, and nothing is allocated.
pub fn write_run<K: Sink>(
    sink: &mut K,
    vcpus: &[VcpuRan<'_>],
    names: &[Name],
    tick_ns: u32,
    turns: &[Turn],
) -> Result<(), WriteFault>
    ensures { Writes (K.state sink.old) (K.state sink.new)
        (run_text vcpus.now names.now tick_ns turns.now) result }
{
    put_trace_head(sink)?;
    put_waits(sink, vcpus)?;
    put_turns(sink, names, tick_ns, turns)
}

// Writes that each vCPU waits from the start.
fn put_waits<K: Sink>(sink: &mut K, vcpus: &[VcpuRan<'_>]) -> Result<(), WriteFault>
    ensures { Writes (K.state sink.old) (K.state sink.new) (flat_map waits_line vcpus.now) result }
{
    for ran in vcpus {
        put_wait(sink, ran)?;
    }
    Ok(())
}

fn put_wait<K: Sink>(sink: &mut K, ran: &VcpuRan<'_>) -> Result<(), WriteFault>
    ensures { Writes (K.state sink.old) (K.state sink.new) (waits_line ran.now) result }
{
    put_trace_line(
        sink,
        &Told {
            time_ns: 0,
            name: ran.name,
            state: State::Wait,
            cpu: None,
        },
    )
}

// Writes a line for each of these.
fn put_turns<K: Sink>(
    sink: &mut K,
    names: &[Name],
    tick_ns: u32,
    turns: &[Turn],
) -> Result<(), WriteFault>
    ensures { Writes (K.state sink.old) (K.state sink.new)
        (flat_map (turn_line names.now tick_ns) turns.now) result }
{
    for turn in turns {
        put_turn(sink, names, tick_ns, turn)?;
    }
    Ok(())
}

fn put_turn<K: Sink>(
    sink: &mut K,
    names: &[Name],
    tick_ns: u32,
    turn: &Turn,
) -> Result<(), WriteFault>
    ensures { Writes (K.state sink.old) (K.state sink.new) (turn_line names.now tick_ns turn.now) result }
{
    put_trace_line(
        sink,
        &Told {
            time_ns: u64::from(turn.tick) * u64::from(tick_ns),
            name: name_at(names, turn.vcpu),
            state: if turn.begins { State::Run } else { State::Wait },
            cpu: Some(turn.core.0),
        },
    )
}

// The name of the vCPU of this number, or nothing if there is none.
fn name_at<'a>(names: &'a [Name], vcpu: VcpuNo) -> &'a [u8]
    ensures { result.now ≡ name_at names.now vcpu }
{
    match names.get(vcpu.index()) {
        Some(name) => name.bytes(),
        None => &[],
    }
}
