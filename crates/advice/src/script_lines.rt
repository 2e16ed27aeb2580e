ghost use Rattle.std.specs.Prelude.{◌≡◌};
ghost use Rattle.tab_io.specs.Sinks.{Writes};
ghost use Rattle.advice.specs.Lines.{line_at};
ghost use Rattle.advice.specs.Scripts.{bad_line_words, script_fault_text, script_line_text};

use crate::line::line_at;
use crate::mistaken::{kind_of_script_line, script_kind_text};
use crate::part::{Part, put_parts};
use script_doc::ScriptFault;
use tab_io::{Sink, WriteFault};

// Writes the advice on a script of this text.
#[tactic(auto, using(tab_io::proofs::SinkLemmas::writes_nothing))]
pub(crate) fn put_script<K: Sink>(
    sink: &mut K,
    script: &[u8],
    fault: &ScriptFault,
) -> Result<(), WriteFault>
    ensures { Writes (K.state sink.old) (K.state sink.new) (script_fault_text script.now fault.now) result }
{
    match fault {
        ScriptFault::BadLine { line } => put_bad_line(sink, script, *line),
        ScriptFault::UnknownName { line } => put_script_line(
            sink,
            script,
            *line,
            b"its name is no vCPU's of the host;\ntableau: name the vCPU there, with admitted = false where it has no reservation yet",
        ),
        ScriptFault::OutOfOrder { line } => put_script_line(
            sink,
            script,
            *line,
            b"its tick is below that of the event before;\ntableau: put the events in the order of their ticks",
        ),
        ScriptFault::LateEvent { line } => put_script_line(
            sink,
            script,
            *line,
            b"its tick isn't below the run's end,\ntableau: which is at 102600 for each round",
        ),
        ScriptFault::TooManyEvents { line } => put_script_line(
            sink,
            script,
            *line,
            b"a script has at most 65535 events; leave some out",
        ),
        ScriptFault::TooManyChanges { line } => put_script_line(
            sink,
            script,
            *line,
            b"a script has at most 15 changes;\ntableau: leave some out, or join the edits of several in one",
        ),
        ScriptFault::NoMemory => Ok(()),
    }
}

// Writes the line of this number and what is wrong with it.
fn put_script_line<'a, K: Sink>(
    sink: &mut K,
    script: &'a [u8],
    number: u32,
    what: &'a [u8],
) -> Result<(), WriteFault>
    ensures { Writes (K.state sink.old) (K.state sink.new) (script_line_text script.now number what.now) result }
{
    put_parts(
        sink,
        &[
            Part::Text(b"tableau: script line "),
            Part::Number(number),
            Part::Text(b", "),
            Part::Quoted(line_at(script, number)),
            Part::Text(b": "),
            Part::Text(what),
            Part::Text(b"\n"),
        ],
    )
}

// Writes the line of this number, which is none of a script.
fn put_bad_line<K: Sink>(sink: &mut K, script: &[u8], number: u32) -> Result<(), WriteFault>
    ensures { Writes (K.state sink.old) (K.state sink.new)
        (script_line_text script.now number (bad_line_words (line_at number script.now))) result }
{
    put_script_line(
        sink,
        script,
        number,
        bad_line_words(line_at(script, number)),
    )
}

// What is wrong with a line that is none of a script.
fn bad_line_words(line: &[u8]) -> &[u8]
    ensures { result.now ≡ bad_line_words line.now }
{
    script_kind_text(
        kind_of_script_line(line),
        b"wanted is TICK wake NAME, TICK block NAME, TICK burst NAME WORK, or TICK change and edits,\ntableau: each set NAME PPM NS or leave NAME; a tick is a whole number (5 ms are 4995), a comment\ntableau: has a line of its own, and lines end in LF alone",
    )
}
