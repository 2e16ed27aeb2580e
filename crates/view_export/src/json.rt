ghost use Rattle.std.specs.Prelude.{◌≡◌, ◌<◌, ◌++◌, codes, flat_map, length};
ghost use Rattle.tab_words.specs.Texts.{texts_below};
ghost use Rattle.vcpu_names.specs.Names.{name_at as name_of};
ghost use Rattle.tab_io.specs.Sinks.{Writes};
ghost use Rattle.view_export.specs.Json.{bare_row, entry_head, entry_row, json_begin, json_table, json_text, kind_text, quoted_holder, row_begin, row_end, slot_head, stint_head, stretch_row, task_row, vcpu_row};

use crate::shown::{how_text, name_at};
use tab_core::{Name, VcpuNo};
use tab_io::{Sink, WriteFault, write_all};
use tab_words::{TextPiece, put_pieces};
use view_doc::{Entry, Stretch, Task, Use, View};

/// Writes a view as JSON, for a tick of so many nanoseconds: what it is, and tables of its vCPUs, slots,
/// entries into rounds and stints, of which each has a first row with the columns' names.
///
/// Ticks are whole numbers. A vCPU without a `vcpu` line has null for its period, cost and home, and
/// where nobody has the ticks, the vCPU is null.
///
/// A fault leaves a prefix of the text in the sink. Nothing is settled, and nothing is allocated.
pub fn write_json<K: Sink>(sink: &mut K, view: &View, tick_ns: u32) -> Result<(), WriteFault>
    ensures { Writes (K.state sink.old) (K.state sink.new) (json_text tick_ns view.now) result }
{
    let names: &[Name] = &view.names;
    put_begin(sink, tick_ns, view.cores, view.is_run)?;
    put_vcpus(sink, names, &view.tasks)?;
    put_slot_table(sink, names, &view.slots)?;
    put_entry_table(sink, &view.entries)?;
    put_stint_table(sink, names, &view.stints)?;
    write_all(sink, b"\n]}\n")
}

fn kind_of(is_run: bool) -> &'static [u8]
    ensures { result.now ≡ kind_text is_run }
{
    if is_run { b"run" } else { b"plan" }
}

// Writes the text up to the rows of vCPUs.
fn put_begin<K: Sink>(
    sink: &mut K,
    tick_ns: u32,
    cores: u32,
    is_run: bool,
) -> Result<(), WriteFault>
    ensures { Writes (K.state sink.old) (K.state sink.new)
        (json_begin tick_ns cores (kind_text is_run)) result }
{
    put_kind(sink, tick_ns, cores, kind_of(is_run))
}

#[tactic(auto, unfolding(crate::specs::Json::json_begin))]
fn put_kind<K: Sink>(sink: &mut K, tick_ns: u32, cores: u32, kind: &[u8]) -> Result<(), WriteFault>
    ensures { Writes (K.state sink.old) (K.state sink.new) (json_begin tick_ns cores kind.now) result }
{
    put_pieces(
        sink,
        &[
            TextPiece::Text(b"{\"form\":1,\"kind\":\""),
            TextPiece::Text(kind),
            TextPiece::Text(b"\",\"tick_ns\":"),
            TextPiece::Number(tick_ns),
            TextPiece::Text(b",\"cores\":"),
            TextPiece::Number(cores),
            TextPiece::Text(b",\"vcpus\":[\n[\"name\",\"period\",\"cost\",\"home\"]"),
        ],
    )
}

// Writes the table of the slots.
fn put_slot_table<K: Sink>(
    sink: &mut K,
    names: &[Name],
    slots: &[Stretch],
) -> Result<(), WriteFault>
    ensures { Writes (K.state sink.old) (K.state sink.new)
        (json_table slot_head (stretch_row names.now) slots.now) result }
{
    write_all(
        sink,
        b"\n],\"slots\":[\n[\"core\",\"from\",\"end\",\"vcpu\",\"how\",\"used\",\"seen\"]",
    )?;
    put_stretches(sink, names, slots)
}

// Writes the table of the stints.
fn put_stint_table<K: Sink>(
    sink: &mut K,
    names: &[Name],
    stints: &[Stretch],
) -> Result<(), WriteFault>
    ensures { Writes (K.state sink.old) (K.state sink.new)
        (json_table stint_head (stretch_row names.now) stints.now) result }
{
    write_all(
        sink,
        b"\n],\"stints\":[\n[\"core\",\"from\",\"end\",\"vcpu\",\"how\",\"used\",\"seen\"]",
    )?;
    put_stretches(sink, names, stints)
}

// Writes the table of the entries.
fn put_entry_table<K: Sink>(sink: &mut K, entries: &[Entry]) -> Result<(), WriteFault>
    ensures { Writes (K.state sink.old) (K.state sink.new)
        (json_table entry_head entry_row entries.now) result }
{
    write_all(sink, b"\n],\"rounds\":[\n[\"core\",\"round\",\"count\"]")?;
    put_entries(sink, entries)
}

// Writes the rows of the vCPUs by number, of which the first have these reservations.
fn put_vcpus<K: Sink>(sink: &mut K, names: &[Name], tasks: &[Task]) -> Result<(), WriteFault>
    ensures { Writes (K.state sink.old) (K.state sink.new)
        (texts_below (vcpu_row names.now tasks.now) (length names.now)) result }
{
    for vcpu in 0..names.len() {
        put_vcpu(sink, names, tasks, vcpu)?;
    }
    Ok(())
}

// Writes the row of the vCPU of this number.
fn put_vcpu<K: Sink>(
    sink: &mut K,
    names: &[Name],
    tasks: &[Task],
    vcpu: usize,
) -> Result<(), WriteFault>
    requires { vcpu < length names.now }
    ensures { Writes (K.state sink.old) (K.state sink.new) (vcpu_row names.now tasks.now vcpu) result }
{
    let name = names[vcpu].bytes();
    match tasks.get(vcpu) {
        Some(task) => put_task(sink, name, task),
        None => put_bare(sink, name),
    }
}

#[tactic(auto, unfolding(crate::specs::Json::task_row))]
fn put_task<K: Sink>(sink: &mut K, name: &[u8], task: &Task) -> Result<(), WriteFault>
    ensures { Writes (K.state sink.old) (K.state sink.new) (task_row name.now task.now) result }
{
    put_pieces(
        sink,
        &[
            TextPiece::Text(b",\n[\""),
            TextPiece::Text(name),
            TextPiece::Text(b"\","),
            TextPiece::Number(task.period),
            TextPiece::Text(b","),
            TextPiece::Number(task.cost),
            TextPiece::Text(b","),
            TextPiece::Number(task.home.0),
            TextPiece::Text(b"]"),
        ],
    )
}

#[tactic(auto, unfolding(crate::specs::Json::bare_row))]
fn put_bare<K: Sink>(sink: &mut K, name: &[u8]) -> Result<(), WriteFault>
    ensures { Writes (K.state sink.old) (K.state sink.new) (bare_row name.now) result }
{
    put_pieces(
        sink,
        &[
            TextPiece::Text(b",\n[\""),
            TextPiece::Text(name),
            TextPiece::Text(b"\",null,null,null]"),
        ],
    )
}

// Writes the row of each of these.
fn put_stretches<K: Sink>(
    sink: &mut K,
    names: &[Name],
    stretches: &[Stretch],
) -> Result<(), WriteFault>
    ensures { Writes (K.state sink.old) (K.state sink.new)
        (flat_map (stretch_row names.now) stretches.now) result }
{
    for stretch in stretches {
        if let Err(fault) = put_stretch(sink, names, stretch) {
            return Err(fault);
        }
    }
    Ok(())
}

fn put_stretch<K: Sink>(sink: &mut K, names: &[Name], s: &Stretch) -> Result<(), WriteFault>
    ensures { Writes (K.state sink.old) (K.state sink.new) (stretch_row names.now s.now) result }
{
    put_row_begin(sink, s)?;
    put_holder(sink, names, &s.by)?;
    put_row_end(sink, s)
}

#[tactic(auto, unfolding(crate::specs::Json::row_begin))]
fn put_row_begin<K: Sink>(sink: &mut K, s: &Stretch) -> Result<(), WriteFault>
    ensures { Writes (K.state sink.old) (K.state sink.new) (row_begin s.now) result }
{
    put_pieces(
        sink,
        &[
            TextPiece::Text(b",\n["),
            TextPiece::Number(s.core.0),
            TextPiece::Text(b","),
            TextPiece::Number(s.from),
            TextPiece::Text(b","),
            TextPiece::Number(s.end),
            TextPiece::Text(b","),
        ],
    )
}

#[tactic(auto, unfolding(crate::specs::Json::row_end))]
fn put_row_end<K: Sink>(sink: &mut K, s: &Stretch) -> Result<(), WriteFault>
    ensures { Writes (K.state sink.old) (K.state sink.new) (row_end s.now) result }
{
    put_pieces(
        sink,
        &[
            TextPiece::Text(b",\""),
            TextPiece::Text(how_text(&s.by)),
            TextPiece::Text(b"\","),
            TextPiece::Number(s.used),
            TextPiece::Text(b","),
            TextPiece::Number(s.seen),
            TextPiece::Text(b"]"),
        ],
    )
}

// Writes a name in quotes, or null for nobody.
fn put_holder<K: Sink>(sink: &mut K, names: &[Name], by: &Use) -> Result<(), WriteFault>
    ensures { Writes (K.state sink.old) (K.state sink.new) (quoted_holder names.now by.now) result }
{
    match *by {
        Use::Idle => write_all(sink, b"null"),
        Use::Slot(vcpu) | Use::Shared(vcpu) => put_quoted(sink, names, vcpu),
    }
}

fn put_quoted<K: Sink>(sink: &mut K, names: &[Name], vcpu: VcpuNo) -> Result<(), WriteFault>
    ensures { Writes (K.state sink.old) (K.state sink.new)
        (codes "\"" ++ (name_of names.now vcpu ++ codes "\"")) result }
{
    put_pieces(
        sink,
        &[
            TextPiece::Text(b"\""),
            TextPiece::Text(name_at(names, vcpu)),
            TextPiece::Text(b"\""),
        ],
    )
}

// Writes the row of each entry.
fn put_entries<K: Sink>(sink: &mut K, entries: &[Entry]) -> Result<(), WriteFault>
    ensures { Writes (K.state sink.old) (K.state sink.new) (flat_map entry_row entries.now) result }
{
    for entry in entries {
        if let Err(fault) = put_entry(sink, entry) {
            return Err(fault);
        }
    }
    Ok(())
}

#[tactic(auto, unfolding(crate::specs::Json::entry_row))]
fn put_entry<K: Sink>(sink: &mut K, entry: &Entry) -> Result<(), WriteFault>
    ensures { Writes (K.state sink.old) (K.state sink.new) (entry_row entry.now) result }
{
    put_pieces(
        sink,
        &[
            TextPiece::Text(b",\n["),
            TextPiece::Number(entry.core.0),
            TextPiece::Text(b","),
            TextPiece::Number(entry.round),
            TextPiece::Text(b","),
            TextPiece::Number(entry.count),
            TextPiece::Text(b"]"),
        ],
    )
}
