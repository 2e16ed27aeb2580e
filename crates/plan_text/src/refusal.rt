ghost use Rattle.tab_io.specs.Sinks.{Writes};
ghost use Rattle.plan_text.specs.Refusal.{plan_fault_line};

use tab_io::{Sink, WriteFault};
use tab_words::put_numbered;

/// Writes the line of the refusal of a plan text, whose first bad line has this number, from 1.
///
/// A fault of the sink leaves a prefix of the line in it. Nothing is settled.
#[tactic(auto, unfolding(crate::specs::Refusal::plan_fault_line))]
pub fn put_plan_fault<K: Sink>(sink: &mut K, line: u32) -> Result<(), WriteFault>
    ensures { Writes (K.state sink.old) (K.state sink.new) (plan_fault_line line) result }
{
    put_numbered(sink, b"refused: plan line ", line, b"\n")
}
