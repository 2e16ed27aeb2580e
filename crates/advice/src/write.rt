ghost use Rattle.std.specs.Prelude.{◌≡◌, ◌↔◌, ◌<◌, ◌^◌, IsTrue, length};
ghost use Rattle.tab_io.specs.Sinks.{Writes};
ghost use Rattle.tab_words.specs.Commands.{IsCommand, texts};
ghost use Rattle.tab_words.specs.declared.command.Command.{Command as CommandValue};
ghost use Rattle.advice.specs.Advice.{IsAdvice, IsLineAdvice, IsNoRoomAdvice, WritesSome, known_text, plain_text};

use crate::fault::{AdviceFault, of_sink};
use crate::hosts::{put_host, put_no_period, put_no_room, put_no_room_to_stay, put_plan};
use crate::line::section_at;
use crate::plan_lines::{put_old_line, put_shape, put_short, put_twice};
use crate::refusal::Refusal;
use crate::room::put_room;
use crate::script_lines::put_script;
use crate::sections::put_sections;
use crate::step_lines::{put_bad_step, put_due, put_waits};
use crate::usage::put_usage;
use std::alloc::Global;
use tab_core::Host;
use tab_io::{Sink, WriteFault, write_all};
use tab_words::{Command, read_words};

/// Writes the advice on a refusal of these words with this input, of less than 2^32 bytes: where the fault
/// is and what to do, in up to four lines that begin with `tableau: `.
///
/// The host is read again where its text is no TOML, has an unknown key or a fault of a vCPU, where a vCPU has no
/// period, and where the host isn't that of a plan text. Where it isn't refused so, there is then no advice, and
/// nothing is written. Nor is anything where memory runs out (`NoMemory`). A host without room is given with the
/// refusal. For `plan stay` it is planned afresh, in the calling thread, to say whether `plan` has a plan. A fault
/// of the sink leaves a prefix of the advice in it. Nothing is settled.
pub fn write_advice<K: Sink>(
    alloc: Global,
    words: &[String],
    input: &[u8],
    refusal: &Refusal<'_>,
    sink: &mut K,
) -> Result<(), AdviceFault>
    requires short { length input.now < 2 ^ 32 }
    ensures { WritesSome (IsAdvice (texts words.now) input.now refusal.now)
        (K.state sink.old) (K.state sink.new) result }
{
    match refusal {
        Refusal::Host(fault) => put_host(alloc, sink, section_at(input, 0), fault),
        Refusal::NoPeriod { vcpu } => put_no_period(alloc, sink, section_at(input, 0), vcpu),
        Refusal::NoRoom { host } => put_room_advice(alloc, words, sink, host),
        Refusal::BadPlanLine { line } => put_line_advice(
            alloc,
            words,
            sink,
            section_at(input, 0),
            section_at(input, 1),
            *line,
        ),
        _ => of_sink(put_plain(words, input, refusal, sink)),
    }
}

// Writes the advice on a host of which a vCPU finds no room, for the command of these words.
fn put_room_advice<K: Sink>(
    alloc: Global,
    words: &[String],
    sink: &mut K,
    host: &Host,
) -> Result<(), AdviceFault>
    ensures { WritesSome (IsNoRoomAdvice (texts words.now) host.now)
        (K.state sink.old) (K.state sink.new) result }
{
    if is_plan_stay(words) {
        put_no_room_to_stay(alloc, sink, host)
    } else {
        put_no_room(alloc, sink, host)
    }
}

// Writes the advice on a plan text's line, for the command of these words.
fn put_line_advice<K: Sink>(
    alloc: Global,
    words: &[String],
    sink: &mut K,
    section: &[u8],
    plan: &[u8],
    line: u32,
) -> Result<(), AdviceFault>
    ensures { WritesSome (IsLineAdvice (texts words.now) section.now plan.now line)
        (K.state sink.old) (K.state sink.new) result }
{
    if is_plan_stay(words) {
        of_sink(put_old_line(sink, plan, line))
    } else {
        put_plan(alloc, sink, section, plan, line)
    }
}

fn is_plan_stay(words: &[String]) -> bool
    ensures { IsTrue result ↔ IsCommand (texts words.now) CommandValue.PlanStay }
{
    match read_words(words) {
        Ok(Command::PlanStay) => true,
        Ok(_) => false,
        Err(_) => false,
    }
}

// Writes the advice on a refusal that needs no second look at the host.
fn put_plain<K: Sink>(
    words: &[String],
    input: &[u8],
    refusal: &Refusal<'_>,
    sink: &mut K,
) -> Result<(), WriteFault>
    requires short { length input.now < 2 ^ 32 }
    ensures { Writes (K.state sink.old) (K.state sink.new)
        (plain_text (texts words.now) input.now refusal.now) result }
{
    match refusal {
        Refusal::Usage { place } => put_usage(sink, words, *place),
        Refusal::BadSections { found, wanted } => put_sections(sink, input, *found, *wanted),
        Refusal::NoFit { demand, room } => put_room(sink, *demand, *room),
        Refusal::BadShape { core, place } => put_shape(sink, *core, *place),
        Refusal::Twice { tick, core, other } => put_twice(sink, *tick, *core, *other),
        Refusal::Short {
            period_no,
            got,
            cost,
        } => put_short(sink, *period_no, *got, *cost),
        Refusal::Script(fault) => put_script(sink, section_at(input, 1), fault),
        Refusal::BadStep { line } => put_bad_step(sink, section_at(input, 2), *line),
        Refusal::NotNow { line, due } => put_due(sink, section_at(input, 2), *line, *due),
        Refusal::Behind { line, who, tick } => {
            put_waits(sink, section_at(input, 2), *line, who, *tick)
        }
        _ => write_all(sink, known_text(refusal)),
    }
}

// The advice on what the line of the refusal tells whole.
fn known_text(refusal: &Refusal<'_>) -> &'static [u8]
    ensures { result.now ≡ known_text refusal.now }
{
    match refusal {
        Refusal::ReadFault =>
            b"tableau: standard input failed; a folder can't be read, nor what is closed\n",
        Refusal::TooLong =>
            b"tableau: an input has at most 4194304 bytes; cut the script, or make the host smaller\n",
        Refusal::TraceTooLong =>
            b"tableau: a run keeps 1048576 stints at most; take fewer rounds, or a longer lag or quantum,\ntableau: or the report alone: tableau run ROUNDS\n",
        Refusal::WriteFault =>
            b"tableau: the output failed; what is there may be only the beginning of the answer\n",
        Refusal::NoMemory => b"tableau: memory ran out; take fewer rounds or a smaller host\n",
        _ => b"",
    }
}
