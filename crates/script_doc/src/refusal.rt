ghost use Rattle.tab_io.specs.Sinks.{Writes};
ghost use Rattle.script_doc.specs.Refusal.{script_fault_line, steps_fault_line};

use crate::script_fault::ScriptFault;
use tab_io::{Sink, WriteFault};
use tab_words::put_numbered;

/// Writes the line of the refusal of a script: `refused: `, the fault as it is displayed, and a line
/// feed. For out of memory, which is no fault of the script, it writes nothing.
///
/// A fault of the sink leaves a prefix of the line in it. Nothing is settled.
pub fn put_script_fault<K: Sink>(sink: &mut K, fault: &ScriptFault) -> Result<(), WriteFault>
    ensures { Writes (K.state sink.old) (K.state sink.new) (script_fault_line fault.now) result }
{
    match *fault {
        ScriptFault::BadLine { line } => put_numbered(sink, b"refused: script line ", line, b"\n"),
        ScriptFault::UnknownName { line } => {
            put_numbered(sink, b"refused: unknown name in script line ", line, b"\n")
        }
        ScriptFault::OutOfOrder { line } => {
            put_numbered(sink, b"refused: script line ", line, b" goes back\n")
        }
        ScriptFault::LateEvent { line } => {
            put_numbered(sink, b"refused: script line ", line, b" is past the run\n")
        }
        ScriptFault::TooManyEvents { line } => put_numbered(
            sink,
            b"refused: more than 65535 events at script line ",
            line,
            b"\n",
        ),
        ScriptFault::TooManyChanges { line } => put_numbered(
            sink,
            b"refused: more than 15 changes at script line ",
            line,
            b"\n",
        ),
        ScriptFault::NoMemory => Ok(()),
    }
}

/// Writes the line of the refusal of a list of steps, of which the line of this number, from 1, is
/// no step.
///
/// A fault of the sink leaves a prefix of the line in it. Nothing is settled.
pub fn put_steps_fault<K: Sink>(sink: &mut K, line: u32) -> Result<(), WriteFault>
    ensures { Writes (K.state sink.old) (K.state sink.new) (steps_fault_line line) result }
{
    put_numbered(sink, b"refused: steps line ", line, b"\n")
}
