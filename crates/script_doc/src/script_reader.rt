ghost use Rattle.std.specs.Prelude.{◌≡◌, ◌<◌, ◌^◌, ◌⊎◌, List, length, IfErr, IfOk};
ghost use Rattle.vcpu_names.specs.Names.{names_of};
ghost use Rattle.script_doc.specs.Events.{is_change};
ghost use Rattle.script_doc.specs.Inside.Reading.{fault_at};
ghost use Rattle.script_doc.specs.Script.{AreInRun, AreWithin, IsScript};
ghost use Rattle.script_doc.specs.ScriptFaults.{IsFirstFault, broken_limit};
ghost use Rattle.script_doc.specs.Statements.{statements_of};
ghost use Rattle.script_doc.specs.declared.event.Event.{Event as EventValue};

use crate::event::{Act, Event};
use crate::event_reader::{LineFault, event_of};
use crate::line::is_skipped;
use crate::script::Script;
use crate::script_fault::ScriptFault;
use std::alloc::Global;
use tab_core::{Host, MAX_CHANGES, MAX_EVENTS, ROUND};
use tab_words::Lines;
use vcpu_names::Names;

/// The script of a text of less than 2^32 bytes, for a host and a run of so many rounds.
///
/// An event's line is `TICK wake NAME`, `TICK block NAME`, `TICK burst NAME WORK` or `TICK change` and
/// one edit at least, each `set NAME SHARE LATENCY` or `leave NAME`. Its tick is below 2^32, the work is
/// 1 to 1026000000 ticks, the share 1 to 1000000 parts per million and the latency 0 to 1000000000000 ns.
/// A line without words and one whose first byte is `#` are skipped, and count as lines. The fault is the
/// first of the first line with one, and a text with a fault is never read as a script.
/// A script that is read names only vCPUs of the host, and its events are before the run's end.
pub fn read_script(
    alloc: Global,
    bytes: &[u8],
    host: &Host,
    rounds: u32,
) -> Result<Script, ScriptFault>
    requires { length bytes.now < 2 ^ 32 }
    ensures ok { IfOk result (IsScript (names_of host.now.vcpus) rounds (statements_of bytes.now)) }
    ensures known { IfOk result (AreWithin (length host.now.vcpus)) }
    ensures in_run { IfOk result (AreInRun rounds) }
    ensures fault { IfErr result (λ fault. (fault ≡ ScriptFault.NoMemory)
        ⊎ IsFirstFault (names_of host.now.vcpus) rounds (statements_of bytes.now) fault) }
    // A script is read, and a first fault is answered.
    ensures read { (events : List EventValue)
        → IsScript (names_of host.now.vcpus) rounds (statements_of bytes.now) events
        → (result ≡ Ok events) ⊎ (result ≡ Err ScriptFault.NoMemory) }
    ensures due { (fault : ScriptFault)
        → IsFirstFault (names_of host.now.vcpus) rounds (statements_of bytes.now) fault
        → (result ≡ Err fault) ⊎ (result ≡ Err ScriptFault.NoMemory) }
{
    let names = Names::of(alloc, host.vcpus.items())?;
    script_of(alloc, bytes, &names, rounds)
}

// The script of a text, for a host whose vCPUs have these names.
fn script_of(
    alloc: Global,
    bytes: &[u8],
    names: &Names<'_>,
    rounds: u32,
) -> Result<Script, ScriptFault>
    requires { length bytes.now < 2 ^ 32 }
    ensures ok { IfOk result (IsScript names.now rounds (statements_of bytes.now)) }
    ensures fault { IfErr result (λ fault. (fault ≡ ScriptFault.NoMemory)
        ⊎ IsFirstFault names.now rounds (statements_of bytes.now) fault) }
{
    let mut events = Vec::new(alloc);
    let mut tick = 0;
    let mut changes = 0;
    let mut number = 0;
    for line in Lines::over(bytes) {
        number += 1;
        if !is_skipped(line) {
            let event = match event_of(alloc, line, names) {
                Ok(event) => event,
                Err(fault) => return Err(at_line(fault, number)),
            };
            if let Some(fault) = broken_limit(&event, tick, rounds, events.len(), changes, number) {
                return Err(fault);
            }
            tick = event.tick;
            changes += u32::from(is_change(&event.act));
            events.push(event)?;
        }
    }
    Ok(Script::of(events))
}

// The fault of a line's form, at the line of this number.
fn at_line(fault: LineFault, line: u32) -> ScriptFault
    ensures { result ≡ fault_at line fault }
{
    match fault {
        LineFault::BadLine => ScriptFault::BadLine { line },
        LineFault::UnknownName => ScriptFault::UnknownName { line },
        LineFault::NoMemory => ScriptFault::NoMemory,
    }
}

// The limit that an event on this line breaks, after events of which the last has this tick, which
// are so many, and of which so many are changes.
fn broken_limit(
    event: &Event,
    tick: u32,
    rounds: u32,
    count: usize,
    changes: u32,
    line: u32,
) -> Option<ScriptFault>
    ensures { result ≡ broken_limit rounds (record { tick = tick; count = count; changes = changes })
        line event.now }
{
    if event.tick < tick {
        return Some(ScriptFault::OutOfOrder { line });
    }
    if u64::from(event.tick) >= u64::from(rounds) * u64::from(ROUND) {
        return Some(ScriptFault::LateEvent { line });
    }
    if count >= MAX_EVENTS as usize {
        return Some(ScriptFault::TooManyEvents { line });
    }
    if is_change(&event.act) && changes >= MAX_CHANGES {
        return Some(ScriptFault::TooManyChanges { line });
    }
    None
}

fn is_change(act: &Act) -> bool
    ensures { result ≡ is_change act.now }
{
    matches!(act, Act::Change(_))
}
