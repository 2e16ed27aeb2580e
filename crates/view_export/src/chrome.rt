ghost use Rattle.std.specs.Prelude.{◌*◌, ◌-◌, ◌≤◌, flat_map};
ghost use Rattle.tab_core.specs.declared.TheConstants.{MAX_TICK_NS, ROUND};
ghost use Rattle.tab_io.specs.Sinks.{Writes};
ghost use Rattle.tab_words.specs.Texts.{texts_below};
ghost use Rattle.view_export.specs.Chrome.{chrome_of, chrome_text, core_events, entry_by, entry_count, entry_event, held_counts, held_event, holder_event, micros, stretch_event};

use crate::shown::{holder_name, how_text, lanes_in, shown_in};
use tab_core::{Name, ROUND};
use tab_io::{Sink, WriteFault, write_all};
use tab_words::{TextPiece, put_pieces};
use view_doc::{Entry, Stretch, Use, View};

/// Writes a view as trace events, one a line, for a tick of so many nanoseconds, at most 2002.
///
/// Each core is a thread with its name and place; each slot or stint of a vCPU is an event of its
/// core's, with the ticks and the counts of events as arguments; each entry into a round is an instant
/// event. Times are microseconds with three digits, which is exact. Idle time isn't written.
///
/// A fault leaves a prefix of the text in the sink. Nothing is settled, and nothing is allocated.
pub fn write_chrome<K: Sink>(sink: &mut K, view: &View, tick_ns: u32) -> Result<(), WriteFault>
    requires { tick_ns ≤ MAX_TICK_NS }
    ensures { Writes (K.state sink.old) (K.state sink.new) (chrome_text tick_ns view.now) result }
{
    put_chrome(
        sink,
        tick_ns,
        lanes_in(view),
        &view.names,
        shown_in(view),
        &view.entries,
    )
}

// Writes the text of so many lanes with these stretches and entries.
fn put_chrome<K: Sink>(
    sink: &mut K,
    tick_ns: u32,
    lanes: u32,
    names: &[Name],
    stretches: &[Stretch],
    entries: &[Entry],
) -> Result<(), WriteFault>
    requires { tick_ns ≤ MAX_TICK_NS }
    ensures { Writes (K.state sink.old) (K.state sink.new)
        (chrome_of tick_ns lanes names.now stretches.now entries.now) result }
{
    write_all(
        sink,
        b"{\"displayTimeUnit\":\"ns\",\"traceEvents\":[\n{\"ph\":\"M\",\"pid\":0,\"name\":\"process_name\",\"args\":{\"name\":\"tableau\"}}",
    )?;
    put_cores(sink, lanes)?;
    put_stretches(sink, tick_ns, names, stretches)?;
    put_entries(sink, tick_ns, entries)?;
    write_all(sink, b"\n]}\n")
}

// Writes the events of the cores below this number.
fn put_cores<K: Sink>(sink: &mut K, lanes: u32) -> Result<(), WriteFault>
    ensures { Writes (K.state sink.old) (K.state sink.new) (texts_below core_events lanes) result }
{
    for core in 0..lanes {
        put_core(sink, core)?;
    }
    Ok(())
}

#[tactic(auto, unfolding(crate::specs::Chrome::core_events))]
fn put_core<K: Sink>(sink: &mut K, core: u32) -> Result<(), WriteFault>
    ensures { Writes (K.state sink.old) (K.state sink.new) (core_events core) result }
{
    put_pieces(
        sink,
        &[
            TextPiece::Text(b",\n{\"ph\":\"M\",\"pid\":0,\"tid\":"),
            TextPiece::Number(core),
            TextPiece::Text(b",\"name\":\"thread_name\",\"args\":{\"name\":\"core "),
            TextPiece::Number(core),
            TextPiece::Text(b"\"}},\n{\"ph\":\"M\",\"pid\":0,\"tid\":"),
            TextPiece::Number(core),
            TextPiece::Text(b",\"name\":\"thread_sort_index\",\"args\":{\"sort_index\":"),
            TextPiece::Number(core),
            TextPiece::Text(b"}}"),
        ],
    )
}

// Writes the event of each stretch that somebody has.
fn put_stretches<K: Sink>(
    sink: &mut K,
    tick_ns: u32,
    names: &[Name],
    stretches: &[Stretch],
) -> Result<(), WriteFault>
    ensures { Writes (K.state sink.old) (K.state sink.new)
        (flat_map (stretch_event tick_ns names.now) stretches.now) result }
{
    for stretch in stretches {
        if let Err(fault) = put_stretch(sink, tick_ns, names, stretch) {
            return Err(fault);
        }
    }
    Ok(())
}

fn put_stretch<K: Sink>(
    sink: &mut K,
    tick_ns: u32,
    names: &[Name],
    stretch: &Stretch,
) -> Result<(), WriteFault>
    ensures { Writes (K.state sink.old) (K.state sink.new)
        (stretch_event tick_ns names.now stretch.now) result }
{
    match stretch.by {
        Use::Idle => Ok(()),
        Use::Slot(_) | Use::Shared(_) => put_held(sink, tick_ns, names, stretch),
    }
}

fn put_held<K: Sink>(
    sink: &mut K,
    tick_ns: u32,
    names: &[Name],
    s: &Stretch,
) -> Result<(), WriteFault>
    ensures { Writes (K.state sink.old) (K.state sink.new) (held_event tick_ns names.now s.now) result }
{
    put_held_by(sink, names, s)?;
    put_tick(sink, s.from, tick_ns)?;
    write_all(sink, b",\"dur\":")?;
    put_duration(sink, s.from, s.end, tick_ns)?;
    put_held_counts(sink, s)
}

#[tactic(auto, unfolding(crate::specs::Chrome::holder_event))]
fn put_held_by<K: Sink>(sink: &mut K, names: &[Name], s: &Stretch) -> Result<(), WriteFault>
    ensures { Writes (K.state sink.old) (K.state sink.new) (holder_event names.now s.now) result }
{
    put_pieces(
        sink,
        &[
            TextPiece::Text(b",\n{\"ph\":\"X\",\"pid\":0,\"tid\":"),
            TextPiece::Number(s.core.0),
            TextPiece::Text(b",\"name\":\""),
            TextPiece::Text(holder_name(names, &s.by)),
            TextPiece::Text(b"\",\"cat\":\""),
            TextPiece::Text(how_text(&s.by)),
            TextPiece::Text(b"\",\"ts\":"),
        ],
    )
}

#[tactic(auto, unfolding(crate::specs::Chrome::held_counts))]
fn put_held_counts<K: Sink>(sink: &mut K, s: &Stretch) -> Result<(), WriteFault>
    ensures { Writes (K.state sink.old) (K.state sink.new) (held_counts s.now) result }
{
    put_pieces(
        sink,
        &[
            TextPiece::Text(b",\"args\":{\"from\":"),
            TextPiece::Number(s.from),
            TextPiece::Text(b",\"end\":"),
            TextPiece::Number(s.end),
            TextPiece::Text(b",\"used\":"),
            TextPiece::Number(s.used),
            TextPiece::Text(b",\"seen\":"),
            TextPiece::Number(s.seen),
            TextPiece::Text(b"}}"),
        ],
    )
}

// Writes when a tick begins.
fn put_tick<K: Sink>(sink: &mut K, tick: u32, tick_ns: u32) -> Result<(), WriteFault>
    ensures { Writes (K.state sink.old) (K.state sink.new) (micros (tick * tick_ns)) result }
{
    put_micros(sink, u64::from(tick) * u64::from(tick_ns))
}

// Writes how long the ticks from one to another last.
fn put_duration<K: Sink>(sink: &mut K, from: u32, end: u32, tick_ns: u32) -> Result<(), WriteFault>
    ensures { Writes (K.state sink.old) (K.state sink.new) (micros ((end - from) * tick_ns)) result }
{
    put_tick(sink, end.saturating_sub(from), tick_ns)
}

// Writes when a round begins.
fn put_round<K: Sink>(sink: &mut K, round: u32, tick_ns: u32) -> Result<(), WriteFault>
    requires { tick_ns ≤ MAX_TICK_NS }
    ensures { Writes (K.state sink.old) (K.state sink.new) (micros (round * ROUND * tick_ns)) result }
{
    put_micros(
        sink,
        u64::from(round) * u64::from(ROUND) * u64::from(tick_ns),
    )
}

// Writes nanoseconds as microseconds.
#[tactic(auto, unfolding(crate::specs::Chrome::micros, crate::specs::Chrome::three_digits))]
fn put_micros<K: Sink>(sink: &mut K, ns: u64) -> Result<(), WriteFault>
    ensures { Writes (K.state sink.old) (K.state sink.new) (micros ns) result }
{
    let rest = ns % 1000;
    put_pieces(
        sink,
        &[
            TextPiece::Wide(ns / 1000),
            TextPiece::Text(b"."),
            TextPiece::Wide(rest / 100),
            TextPiece::Wide(rest / 10 % 10),
            TextPiece::Wide(rest % 10),
        ],
    )
}

// Writes the event of each entry.
fn put_entries<K: Sink>(sink: &mut K, tick_ns: u32, entries: &[Entry]) -> Result<(), WriteFault>
    requires { tick_ns ≤ MAX_TICK_NS }
    ensures { Writes (K.state sink.old) (K.state sink.new)
        (flat_map (entry_event tick_ns) entries.now) result }
{
    for entry in entries {
        if let Err(fault) = put_entry(sink, tick_ns, entry) {
            return Err(fault);
        }
    }
    Ok(())
}

fn put_entry<K: Sink>(sink: &mut K, tick_ns: u32, entry: &Entry) -> Result<(), WriteFault>
    requires { tick_ns ≤ MAX_TICK_NS }
    ensures { Writes (K.state sink.old) (K.state sink.new) (entry_event tick_ns entry.now) result }
{
    put_entry_by(sink, entry)?;
    put_round(sink, entry.round, tick_ns)?;
    put_entry_count(sink, entry)
}

#[tactic(auto, unfolding(crate::specs::Chrome::entry_by))]
fn put_entry_by<K: Sink>(sink: &mut K, entry: &Entry) -> Result<(), WriteFault>
    ensures { Writes (K.state sink.old) (K.state sink.new) (entry_by entry.now) result }
{
    put_pieces(
        sink,
        &[
            TextPiece::Text(b",\n{\"ph\":\"i\",\"s\":\"t\",\"pid\":0,\"tid\":"),
            TextPiece::Number(entry.core.0),
            TextPiece::Text(b",\"name\":\"round "),
            TextPiece::Number(entry.round),
            TextPiece::Text(b"\",\"ts\":"),
        ],
    )
}

#[tactic(auto, unfolding(crate::specs::Chrome::entry_count))]
fn put_entry_count<K: Sink>(sink: &mut K, entry: &Entry) -> Result<(), WriteFault>
    ensures { Writes (K.state sink.old) (K.state sink.new) (entry_count entry.now) result }
{
    put_pieces(
        sink,
        &[
            TextPiece::Text(b",\"args\":{\"count\":"),
            TextPiece::Number(entry.count),
            TextPiece::Text(b"}}"),
        ],
    )
}
