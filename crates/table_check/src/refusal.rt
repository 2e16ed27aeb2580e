ghost use Rattle.tab_io.specs.Sinks.{Writes};
ghost use Rattle.vcpu_names.specs.Names.{names_of};
ghost use Rattle.table_check.specs.Refusal.{check_fault_line, shape_line, short_line, twice_line};

use crate::fault::CheckFault;
use tab_core::Vcpu;
use tab_io::{Sink, WriteFault};
use tab_words::{TextPiece, put_pieces};
use vcpu_names::name_in;

/// Writes the line that says why tables are no plan: `no: `, the fault as it is displayed but with the
/// name of its vCPU, which is one of these, and a line feed. For out of memory, which is no fault of
/// the tables, it writes nothing.
///
/// A fault of the sink leaves a prefix of the line in it. Nothing is settled.
pub fn put_check_fault<K: Sink>(
    sink: &mut K,
    fault: &CheckFault,
    vcpus: &[Vcpu],
) -> Result<(), WriteFault>
    ensures { Writes (K.state sink.old) (K.state sink.new)
        (check_fault_line (names_of vcpus.now) fault.now) result }
{
    match fault {
        CheckFault::BadShape { core, place } => put_shape_line(sink, core.0, *place),
        CheckFault::Twice {
            vcpu,
            tick,
            core,
            other,
        } => put_twice_line(sink, name_in(vcpus, vcpu), core.0, other.0, *tick),
        CheckFault::Short {
            vcpu,
            period_no,
            got,
            cost,
        } => put_short_line(sink, name_in(vcpus, vcpu), *got, *cost, *period_no),
        CheckFault::NoMemory => Ok(()),
    }
}

#[tactic(auto, unfolding(crate::specs::Refusal::shape_line))]
fn put_shape_line<K: Sink>(sink: &mut K, core: u32, place: u32) -> Result<(), WriteFault>
    ensures { Writes (K.state sink.old) (K.state sink.new) (shape_line core place) result }
{
    put_pieces(
        sink,
        &[
            TextPiece::Text(b"no: core "),
            TextPiece::Number(core),
            TextPiece::Text(b" has a bad end at segment "),
            TextPiece::Number(place),
            TextPiece::Text(b"\n"),
        ],
    )
}

#[tactic(auto, unfolding(crate::specs::Refusal::twice_line))]
fn put_twice_line<K: Sink>(
    sink: &mut K,
    name: &[u8],
    core: u32,
    other: u32,
    tick: u32,
) -> Result<(), WriteFault>
    ensures { Writes (K.state sink.old) (K.state sink.new) (twice_line name.now core other tick) result }
{
    put_pieces(
        sink,
        &[
            TextPiece::Text(b"no: "),
            TextPiece::Text(name),
            TextPiece::Text(b" stands on cores "),
            TextPiece::Number(core),
            TextPiece::Text(b" and "),
            TextPiece::Number(other),
            TextPiece::Text(b" at tick "),
            TextPiece::Number(tick),
            TextPiece::Text(b"\n"),
        ],
    )
}

#[tactic(auto, unfolding(crate::specs::Refusal::short_line))]
fn put_short_line<K: Sink>(
    sink: &mut K,
    name: &[u8],
    got: u32,
    cost: u32,
    period_no: u32,
) -> Result<(), WriteFault>
    ensures { Writes (K.state sink.old) (K.state sink.new) (short_line name.now got cost period_no) result }
{
    put_pieces(
        sink,
        &[
            TextPiece::Text(b"no: "),
            TextPiece::Text(name),
            TextPiece::Text(b" has "),
            TextPiece::Number(got),
            TextPiece::Text(b" of "),
            TextPiece::Number(cost),
            TextPiece::Text(b" ticks in period "),
            TextPiece::Number(period_no),
            TextPiece::Text(b"\n"),
        ],
    )
}
