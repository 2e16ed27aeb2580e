ghost use Rattle.std.specs.Prelude.{◌≡◌, ◌<◌, ◌*◌, ◌==◌, IfSome, length, min};
ghost use Rattle.tab_io.specs.Sinks.{Writes};
ghost use Rattle.tab_words.specs.Texts.{texts_below};
ghost use Rattle.view_cells.specs.Cells.{count_cell, millis_cell, percent_cell};
ghost use Rattle.view_table.specs.Diff.{changes, count_change, count_line, diff_text, difference_line, home_change, is_shared_named, is_slot_named, load_change, load_line, load_lines, lone_line, new_lines, number_of, old_lines, period_change, same_slot, same_slots, same_use, share_change, slots_change, vcpu_word, wait_change, wait_word};
ghost use Rattle.view_table.specs.Figures.{AreFigures};
ghost use Rattle.view_cells.specs.CellTexts.{cell_text};
ghost use Rattle.view_table.specs.Waits.{wait_of};

use crate::figures::Figures;
use crate::rows::{load_of, name_at, of_round, share_of};
use tab_core::{Name, ROUND};
use tab_io::{Sink, WriteFault, write_all};
use view_cells::{Cell, put_cells};
use view_doc::{Stretch, Task, Use, View};

/// Writes what differs between two plans, whose figures these are, for a tick of so many nanoseconds: a
/// line for each home, share, period and wait that is another, for each vCPU that is gone or new, for
/// each core's load, and one where the slots are others. It writes nothing where the plans say the same.
///
/// A fault leaves a prefix of the text in the sink. Nothing is settled, and nothing is allocated.
pub fn write_diff<K: Sink>(
    sink: &mut K,
    old: &View,
    old_figures: &Figures,
    new: &View,
    new_figures: &Figures,
    tick_ns: u32,
) -> Result<(), WriteFault>
    requires old { AreFigures old.now old_figures.now }
    requires new { AreFigures new.now new_figures.now }
    ensures { Writes (K.state sink.old) (K.state sink.new) (diff_text tick_ns old.now new.now) result }
{
    put_count_change(sink, old.cores, new.cores)?;
    put_old(sink, old, old_figures, new, new_figures, tick_ns)?;
    put_new(sink, old, new)?;
    put_loads(sink, old, new)?;
    put_slots(sink, old, new)
}

pub(crate) fn put_count_change<K: Sink>(sink: &mut K, old: u32, new: u32) -> Result<(), WriteFault>
    ensures { Writes (K.state sink.old) (K.state sink.new) (count_change old new) result }
{
    if old == new {
        return Ok(());
    }
    put_count_line(sink, old, new)
}

fn put_count_line<K: Sink>(sink: &mut K, old: u32, new: u32) -> Result<(), WriteFault>
    ensures { Writes (K.state sink.old) (K.state sink.new) (count_line old new) result }
{
    put_cells(
        sink,
        &[
            Cell::Text(b"cores "),
            count_of(old),
            Cell::Text(b" to "),
            count_of(new),
            Cell::Text(b"\n"),
        ],
    )
}

fn count_of(n: u32) -> Cell<'static>
    ensures { cell_text result ≡ count_cell 0 n }
{
    Cell::Count(0, u64::from(n))
}

fn share_cell(share: u64) -> Cell<'static>
    ensures { cell_text result ≡ percent_cell 0 share }
{
    Cell::Percent(0, share)
}

fn ticks_cell(ticks: u32, tick_ns: u32) -> Cell<'static>
    ensures { cell_text result ≡ millis_cell 0 (ticks * tick_ns) }
{
    Cell::Millis(0, u64::from(ticks) * u64::from(tick_ns))
}

fn wait_word(tick_ns: u32, wait: u32) -> Cell<'static>
    ensures { cell_text result ≡ wait_word tick_ns wait }
{
    if wait < 2 * ROUND {
        ticks_cell(wait, tick_ns)
    } else {
        Cell::Text(b"endless")
    }
}

// Writes the lines of each vCPU of the old plan.
fn put_old<K: Sink>(
    sink: &mut K,
    old: &View,
    old_figures: &Figures,
    new: &View,
    new_figures: &Figures,
    tick_ns: u32,
) -> Result<(), WriteFault>
    requires old { AreFigures old.now old_figures.now }
    requires new { AreFigures new.now new_figures.now }
    ensures { Writes (K.state sink.old) (K.state sink.new)
        (texts_below (old_lines tick_ns old.now new.now) (length old.now.tasks.items)) result }
{
    for vcpu in 0..old.tasks.len() {
        put_old_vcpu(sink, old, old_figures, new, new_figures, tick_ns, vcpu)?;
    }
    Ok(())
}

fn put_old_vcpu<K: Sink>(
    sink: &mut K,
    old: &View,
    old_figures: &Figures,
    new: &View,
    new_figures: &Figures,
    tick_ns: u32,
    vcpu: usize,
) -> Result<(), WriteFault>
    requires old { AreFigures old.now old_figures.now }
    requires new { AreFigures new.now new_figures.now }
    requires low { vcpu < length old.now.tasks.items }
    ensures { Writes (K.state sink.old) (K.state sink.new) (old_lines tick_ns old.now new.now vcpu) result }
{
    let name = name_at(&old.names, vcpu);
    let Some(other) = number_of(&new.names, new.tasks.len(), name) else {
        return put_lone(sink, b"vcpu ", name, b" gone\n");
    };
    let wait = figure_of(old, old_figures, vcpu);
    let now = figure_of(new, new_figures, other);
    put_changes(
        sink,
        tick_ns,
        name,
        &old.tasks[vcpu],
        &new.tasks[other],
        wait,
        now,
    )
}

// The longest wait of a vCPU.
pub(crate) fn figure_of(view: &View, figures: &Figures, vcpu: usize) -> u32
    requires figures { AreFigures view.now figures.now }
    requires low { vcpu < length view.now.tasks.items }
    ensures { result ≡ wait_of view.now.slots.items vcpu }
{
    figures.waits[vcpu]
}

// The number below the count of the vCPU of this name.
pub(crate) fn number_of(names: &[Name], count: usize, name: &[u8]) -> Option<usize>
    ensures value { result ≡ number_of names.now count name.now }
    ensures low { IfSome result (λ vcpu. vcpu < count) }
{
    let mut found = None;
    for vcpu in 0..count {
        if name_at(names, vcpu) == name {
            found = Some(vcpu);
        }
    }
    found
}

// Writes that a vCPU or a VM is in one of the plans alone.
#[tactic(auto, unfolding(crate::specs::Diff::lone_line))]
pub(crate) fn put_lone<'a, K: Sink>(
    sink: &mut K,
    kind: &'a [u8],
    name: &'a [u8],
    word: &'a [u8],
) -> Result<(), WriteFault>
    ensures { Writes (K.state sink.old) (K.state sink.new) (lone_line kind.now name.now word.now) result }
{
    put_cells(
        sink,
        &[Cell::Text(kind), Cell::Text(name), Cell::Text(word)],
    )
}

// Writes what changed of a vCPU that both plans have.
fn put_changes<K: Sink>(
    sink: &mut K,
    tick_ns: u32,
    name: &[u8],
    old: &Task,
    new: &Task,
    wait: u32,
    now: u32,
) -> Result<(), WriteFault>
    ensures { Writes (K.state sink.old) (K.state sink.new)
        (changes tick_ns name.now old.now new.now wait now) result }
{
    let before = share_of(old);
    let after = share_of(new);
    put_home(sink, name, old, new)?;
    put_share(sink, b"vcpu ", name, before, after)?;
    put_period(sink, tick_ns, name, old, new)?;
    put_wait(sink, b"vcpu ", tick_ns, name, wait, now)
}

fn put_home<K: Sink>(sink: &mut K, name: &[u8], old: &Task, new: &Task) -> Result<(), WriteFault>
    ensures { Writes (K.state sink.old) (K.state sink.new) (home_change name.now old.now new.now) result }
{
    if old.home.0 == new.home.0 {
        return Ok(());
    }
    put_change(
        sink,
        b"vcpu ",
        name,
        b" home ",
        &count_of(old.home.0),
        &count_of(new.home.0),
        b"\n",
    )
}

// Writes that a share is another.
pub(crate) fn put_share<K: Sink>(
    sink: &mut K,
    kind: &[u8],
    name: &[u8],
    before: u64,
    now: u64,
) -> Result<(), WriteFault>
    ensures { Writes (K.state sink.old) (K.state sink.new) (share_change kind.now name.now before now) result }
{
    if before == now {
        return Ok(());
    }
    put_change(
        sink,
        kind,
        name,
        b" share ",
        &share_cell(before),
        &share_cell(now),
        b" %\n",
    )
}

fn put_period<K: Sink>(
    sink: &mut K,
    tick_ns: u32,
    name: &[u8],
    old: &Task,
    new: &Task,
) -> Result<(), WriteFault>
    ensures { Writes (K.state sink.old) (K.state sink.new)
        (period_change tick_ns name.now old.now new.now) result }
{
    if old.period == new.period {
        return Ok(());
    }
    put_change(
        sink,
        b"vcpu ",
        name,
        b" period ",
        &ticks_cell(old.period, tick_ns),
        &ticks_cell(new.period, tick_ns),
        b" ms\n",
    )
}

// Writes that a longest wait is another.
pub(crate) fn put_wait<K: Sink>(
    sink: &mut K,
    kind: &[u8],
    tick_ns: u32,
    name: &[u8],
    wait: u32,
    now: u32,
) -> Result<(), WriteFault>
    ensures { Writes (K.state sink.old) (K.state sink.new)
        (wait_change kind.now tick_ns name.now wait now) result }
{
    if wait == now {
        return Ok(());
    }
    put_change(
        sink,
        kind,
        name,
        b" wait ",
        &wait_word(tick_ns, wait),
        &wait_word(tick_ns, now),
        b" ms\n",
    )
}

// Writes that something of a vCPU or of a VM was one thing and is another.
#[tactic(auto, unfolding(crate::specs::Diff::difference_line))]
pub(crate) fn put_change<'a, K: Sink>(
    sink: &mut K,
    kind: &'a [u8],
    name: &'a [u8],
    what: &'a [u8],
    old: &Cell<'a>,
    new: &Cell<'a>,
    unit: &'a [u8],
) -> Result<(), WriteFault>
    ensures { Writes (K.state sink.old) (K.state sink.new)
        (difference_line kind.now name.now what.now (cell_text old.now) (cell_text new.now) unit.now) result }
{
    put_cells(
        sink,
        &[
            Cell::Text(kind),
            Cell::Text(name),
            Cell::Text(what),
            *old,
            Cell::Text(b" to "),
            *new,
            Cell::Text(unit),
        ],
    )
}

// Writes the line of each vCPU that is new.
fn put_new<K: Sink>(sink: &mut K, old: &View, new: &View) -> Result<(), WriteFault>
    ensures { Writes (K.state sink.old) (K.state sink.new)
        (texts_below (new_lines old.now new.now) (length new.now.tasks.items)) result }
{
    for vcpu in 0..new.tasks.len() {
        put_new_vcpu(sink, old, new, vcpu)?;
    }
    Ok(())
}

fn put_new_vcpu<K: Sink>(
    sink: &mut K,
    old: &View,
    new: &View,
    vcpu: usize,
) -> Result<(), WriteFault>
    ensures { Writes (K.state sink.old) (K.state sink.new) (new_lines old.now new.now vcpu) result }
{
    let name = name_at(&new.names, vcpu);
    match number_of(&old.names, old.tasks.len(), name) {
        None => put_lone(sink, b"vcpu ", name, b" new\n"),
        Some(_) => Ok(()),
    }
}

// Writes the line of each core whose load is another.
pub(crate) fn put_loads<K: Sink>(sink: &mut K, old: &View, new: &View) -> Result<(), WriteFault>
    ensures { Writes (K.state sink.old) (K.state sink.new)
        (texts_below (load_lines old.now new.now) (min old.now.cores new.now.cores)) result }
{
    let cores = old.cores.min(new.cores);
    for core in 0..cores {
        put_load(sink, old, new, core)?;
    }
    Ok(())
}

fn put_load<K: Sink>(sink: &mut K, old: &View, new: &View, core: u32) -> Result<(), WriteFault>
    ensures { Writes (K.state sink.old) (K.state sink.new) (load_lines old.now new.now core) result }
{
    let before = load_of(&old.slots, core);
    let now = load_of(&new.slots, core);
    put_load_change(sink, core, before, now)
}

fn put_load_change<K: Sink>(
    sink: &mut K,
    core: u32,
    before: u32,
    now: u32,
) -> Result<(), WriteFault>
    ensures { Writes (K.state sink.old) (K.state sink.new) (load_change core before now) result }
{
    if before == now {
        return Ok(());
    }
    put_load_line(sink, core, before, now)
}

fn put_load_line<K: Sink>(sink: &mut K, core: u32, before: u32, now: u32) -> Result<(), WriteFault>
    ensures { Writes (K.state sink.old) (K.state sink.new) (load_line core before now) result }
{
    let share = of_round(before);
    put_cells(
        sink,
        &[
            Cell::Text(b"core "),
            count_of(core),
            Cell::Text(b" load "),
            Cell::Percent(0, share),
            Cell::Text(b" to "),
            Cell::Percent(0, of_round(now)),
            Cell::Text(b" %\n"),
        ],
    )
}

// Writes whether the slots are others.
pub(crate) fn put_slots<K: Sink>(sink: &mut K, old: &View, new: &View) -> Result<(), WriteFault>
    ensures { Writes (K.state sink.old) (K.state sink.new) (slots_change old.now new.now) result }
{
    if have_same_slots(old, new) {
        Ok(())
    } else {
        write_all(sink, b"slots differ\n")
    }
}

pub(crate) fn have_same_slots(old: &View, new: &View) -> bool
    ensures { result ≡ same_slots old.now.names.items new.now.names.items old.now.slots.items
        new.now.slots.items }
{
    same_slots(&old.names, &new.names, &old.slots, &new.slots)
}

fn same_slots(names: &[Name], others: &[Name], old: &[Stretch], new: &[Stretch]) -> bool
    ensures { result ≡ same_slots names.now others.now old.now new.now }
{
    if old.len() != new.len() {
        return false;
    }
    for at in 0..old.len() {
        if !same_slot(names, others, &old[at], &new[at]) {
            return false;
        }
    }
    true
}

fn same_slot(names: &[Name], others: &[Name], s: &Stretch, t: &Stretch) -> bool
    ensures { result ≡ same_slot names.now others.now s.now t.now }
{
    s.core.0 == t.core.0
        && s.from == t.from
        && s.end == t.end
        && same_use(names, others, &s.by, &t.by)
}

// Whether one has both stretches by name, in the same way.
fn same_use(names: &[Name], others: &[Name], s: &Use, t: &Use) -> bool
    ensures { result ≡ same_use names.now others.now s.now t.now }
{
    match *s {
        Use::Idle => matches!(*t, Use::Idle),
        Use::Slot(v) => is_slot_named(others, t, name_at(names, v.index())),
        Use::Shared(v) => is_shared_named(others, t, name_at(names, v.index())),
    }
}

fn is_slot_named(names: &[Name], by: &Use, name: &[u8]) -> bool
    ensures { result ≡ is_slot_named names.now by.now name.now }
{
    match *by {
        Use::Slot(v) => name == name_at(names, v.index()),
        _ => false,
    }
}

fn is_shared_named(names: &[Name], by: &Use, name: &[u8]) -> bool
    ensures { result ≡ is_shared_named names.now by.now name.now }
{
    match *by {
        Use::Shared(v) => name == name_at(names, v.index()),
        _ => false,
    }
}
