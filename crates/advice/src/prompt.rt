ghost use Rattle.std.specs.Prelude.{[]};
ghost use Rattle.tab_io.specs.Sinks.{Writes};
ghost use Rattle.tab_words.specs.Commands.{IsCommand, IsNoCommand, texts};
ghost use Rattle.tab_words.specs.declared.command.Command.{Command as CommandValue};
ghost use Rattle.advice.specs.Prompt.{asking_text, ending_text, prompt_text, reading_text, typed_text};

use crate::part::{Part, put_parts};
use crate::usage::put_spaced;
use tab_io::{Sink, WriteFault, write_all};
use tab_words::{Command, read_words};

/// Writes which texts the command of these words reads, in their order, how their input ends, and how a file
/// is read instead, in two lines that begin with `tableau: `. It is meant for a terminal, before the input is
/// read.
///
/// Of words that are no command, and of a command that reads nothing, nothing is written. A fault of the sink
/// leaves a prefix of the lines in it. Nothing is settled.
pub fn write_prompt<K: Sink>(words: &[String], sink: &mut K) -> Result<(), WriteFault>
    ensures asks { (command : CommandValue) → IsCommand (texts words.now) command
        → Writes (K.state sink.old) (K.state sink.new) (prompt_text (texts words.now) command) result }
    ensures silent { IsNoCommand (texts words.now)
        → Writes (K.state sink.old) (K.state sink.new) [] result }
{
    match read_words(words) {
        Ok(command) => put_prompt(sink, words, command),
        Err(_) => Ok(()),
    }
}

// Writes what the command of these words reads.
fn put_prompt<K: Sink>(sink: &mut K, words: &[String], command: Command) -> Result<(), WriteFault>
    ensures { Writes (K.state sink.old) (K.state sink.new) (prompt_text (texts words.now) command) result }
{
    match command {
        Command::Plan => put_asking(sink, words, b"a host document"),
        Command::PlanWhole => put_asking(sink, words, b"a host document"),
        Command::PlanStay => put_asking(
            sink,
            words,
            b"a host document, a line %% and an earlier plan text",
        ),
        Command::Check => put_asking(sink, words, b"a host document, a line %% and a plan text"),
        Command::Replay { .. } => put_asking(
            sink,
            words,
            b"a host document, a line %%, a script, a line %% and a list of steps",
        ),
        Command::Run { .. } => put_asking(sink, words, b"a host document, a line %% and a script"),
        _ => Ok(()),
    }
}

// Writes that these texts are read, and what to type.
fn put_asking<K: Sink>(sink: &mut K, words: &[String], input: &[u8]) -> Result<(), WriteFault>
    ensures { Writes (K.state sink.old) (K.state sink.new) (asking_text (texts words.now) input.now) result }
{
    if let Err(fault) = put_reading(sink, input) {
        return Err(fault);
    }
    put_ending(sink, words)
}

fn put_reading<K: Sink>(sink: &mut K, input: &[u8]) -> Result<(), WriteFault>
    ensures { Writes (K.state sink.old) (K.state sink.new) (reading_text input.now) result }
{
    put_parts(
        sink,
        &[
            Part::Text(b"tableau: reading "),
            Part::Text(input),
            Part::Text(b" from the terminal\n"),
        ],
    )
}

// Writes what ends the input, and what to type to read a file.
fn put_ending<K: Sink>(sink: &mut K, words: &[String]) -> Result<(), WriteFault>
    ensures { Writes (K.state sink.old) (K.state sink.new) (ending_text (texts words.now)) result }
{
    if let Err(fault) = write_all(sink, b"tableau: end the input with Ctrl-D, or use: tableau") {
        return Err(fault);
    }
    put_typed(sink, words)
}

// Writes the words, and a file after them.
fn put_typed<K: Sink>(sink: &mut K, words: &[String]) -> Result<(), WriteFault>
    ensures { Writes (K.state sink.old) (K.state sink.new) (typed_text (texts words.now)) result }
{
    if let Err(fault) = put_spaced(sink, words) {
        return Err(fault);
    }
    write_all(sink, b" < FILE\n")
}
