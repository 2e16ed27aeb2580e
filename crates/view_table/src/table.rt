ghost use Rattle.std.specs.Prelude.{◌≡◌, ◌<◌, ◌≤◌, ℕ, length, option_copied, slice_index};
ghost use Rattle.tab_core.specs.declared.TheConstants.{MAX_CORES, MAX_VCPUS};
ghost use Rattle.tab_io.specs.Sinks.{Writes};
ghost use Rattle.tab_words.specs.Texts.{texts_below};
ghost use Rattle.view_table.specs.Figures.{AreFigures};
ghost use Rattle.view_table.specs.Given.{is_refused};
ghost use Rattle.view_table.specs.Loads.{load_of_core};
ghost use Rattle.view_table.specs.Table.{asked_cells, core_cells, core_head, core_row, core_word, cores_cell, plain_cells, row_cells, table_head, table_row};
ghost use Rattle.view_table.specs.TableTexts.{refusal_lines, refusal_text, table_of, table_text, width_in};

use crate::figures::{Figure, Figures, figure_at};
use crate::rows::{
    asked_cell, asked_of, core_cell, kept_cell, load_of, loads_of, name_at, of_round, period_cell,
    promised_cell, rest_of_round, wait_cell, width_of,
};
use crate::totals::put_end;
use tab_core::{MAX_CORES, Reservation, Vcpu};
use tab_io::{Sink, WriteFault, write_all};
use tab_words::{TextPiece, put_numbered, put_pieces};
use view_cells::{Cell, put_cells, put_left};
use view_doc::{Stretch, Task, View};

/// Writes the tables of a plan, whose figures these are, for a tick of so many nanoseconds.
///
/// A row for each `vcpu` line has the share in percent of a core, by the slots, the period, the longest wait, and the
/// cores where it has slots. Beside a host it has what the host's vCPU of this name has reserved too, and
/// whether the plan keeps it, or dashes where no such vCPU is admitted. Where `tableau check` refuses the tables, its
/// line is above all, and whether the plan keeps it is a question mark. A row for each core has its load
/// and what is left of a round. The last line has how many vCPUs there are, their shares together, how full the
/// cores are together, how many of the admitted vCPUs have what they were promised, and how many have slots on several cores.
/// Times are in milliseconds, with three digits.
///
/// A fault leaves a prefix of the text in the sink. Nothing is settled, and nothing is allocated.
pub fn write_table<K: Sink>(
    sink: &mut K,
    host: Option<&[Vcpu]>,
    view: &View,
    figures: &Figures,
    tick_ns: u32,
) -> Result<(), WriteFault>
    requires figures { AreFigures view.now figures.now }
    requires few { view.now.cores ≤ MAX_CORES }
    requires vcpus { length view.now.tasks.items ≤ MAX_VCPUS }
    ensures { Writes (K.state sink.old) (K.state sink.new)
        (table_text (option_copied host.entry) figures.now.refusal.items tick_ns view.now) result }
{
    put_refusal(sink, &figures.refusal)?;
    put_wide_table(sink, host, view, figures, tick_ns)
}

// Writes the tables, with names in a column of their width.
fn put_wide_table<K: Sink>(
    sink: &mut K,
    host: Option<&[Vcpu]>,
    view: &View,
    figures: &Figures,
    tick_ns: u32,
) -> Result<(), WriteFault>
    requires figures { AreFigures view.now figures.now }
    requires few { view.now.cores ≤ MAX_CORES }
    requires vcpus { length view.now.tasks.items ≤ MAX_VCPUS }
    ensures { Writes (K.state sink.old) (K.state sink.new)
        (table_of (option_copied host.entry) (is_refused figures.now.refusal.items) tick_ns (width_in view.now) view.now)
        result }
{
    let width = width_of(&view.names, view.tasks.len());
    put_table(sink, host, view, figures, tick_ns, width)
}

// Writes the line by which the tables are refused, and an empty line, where they are.
pub(crate) fn put_refusal<K: Sink>(sink: &mut K, refusal: &[u8]) -> Result<(), WriteFault>
    ensures { Writes (K.state sink.old) (K.state sink.new) (refusal_text refusal.now) result }
{
    if refusal.is_empty() {
        Ok(())
    } else {
        put_refusal_lines(sink, refusal)
    }
}

#[tactic(auto, unfolding(crate::specs::TableTexts::refusal_lines))]
fn put_refusal_lines<K: Sink>(sink: &mut K, refusal: &[u8]) -> Result<(), WriteFault>
    ensures { Writes (K.state sink.old) (K.state sink.new) (refusal_lines refusal.now) result }
{
    put_pieces(
        sink,
        &[
            TextPiece::Text(b"tableau check: "),
            TextPiece::Text(refusal),
            TextPiece::Text(b"\n\n"),
        ],
    )
}

// Writes the tables, with names in a column of this width.
fn put_table<K: Sink>(
    sink: &mut K,
    host: Option<&[Vcpu]>,
    view: &View,
    figures: &Figures,
    tick_ns: u32,
    width: usize,
) -> Result<(), WriteFault>
    requires figures { AreFigures view.now figures.now }
    requires few { view.now.cores ≤ MAX_CORES }
    requires vcpus { length view.now.tasks.items ≤ MAX_VCPUS }
    ensures { Writes (K.state sink.old) (K.state sink.new)
        (table_of (option_copied host.entry) (is_refused figures.now.refusal.items) tick_ns width view.now) result }
{
    put_left(sink, width, b"vcpu")?;
    put_head(sink, &host)?;
    put_vcpus(sink, host, view, figures, tick_ns, width)?;
    put_end(sink, host, view, figures, tick_ns)
}

// Writes the names of the columns after the first.
fn put_head<K: Sink>(sink: &mut K, host: &Option<&[Vcpu]>) -> Result<(), WriteFault>
    ensures { Writes (K.state sink.old) (K.state sink.new) (table_head (option_copied host.now)) result }
{
    match host {
        None => write_all(sink, b"   share %  period ms    wait ms  cores\n"),
        Some(_) => write_all(
            sink,
            b"   asked %   given %  period ms    wait ms  promised ms  kept  cores\n",
        ),
    }
}

pub(crate) fn put_core_head<K: Sink>(sink: &mut K) -> Result<(), WriteFault>
    ensures { Writes (K.state sink.old) (K.state sink.new) core_head result }
{
    write_all(sink, b"\ncore    load %  headroom %\n")
}

// Writes the row of each vCPU.
fn put_vcpus<K: Sink>(
    sink: &mut K,
    host: Option<&[Vcpu]>,
    view: &View,
    figures: &Figures,
    tick_ns: u32,
    width: usize,
) -> Result<(), WriteFault>
    requires figures { AreFigures view.now figures.now }
    requires few { view.now.cores ≤ MAX_CORES }
    ensures { Writes (K.state sink.old) (K.state sink.new)
        (texts_below (table_row (option_copied host.entry) (is_refused figures.now.refusal.items) tick_ns width
        view.now.names.items view.now.tasks.items view.now.slots.items view.now.cores)
        (length view.now.tasks.items)) result }
{
    for vcpu in 0..view.tasks.len() {
        put_vcpu(sink, host, view, figures, tick_ns, width, vcpu)?;
    }
    Ok(())
}

// Writes the row of the vCPU of this number.
fn put_vcpu<K: Sink>(
    sink: &mut K,
    host: Option<&[Vcpu]>,
    view: &View,
    figures: &Figures,
    tick_ns: u32,
    width: usize,
    vcpu: usize,
) -> Result<(), WriteFault>
    requires figures { AreFigures view.now figures.now }
    requires few { view.now.cores ≤ MAX_CORES }
    requires low { vcpu < length view.now.tasks.items }
    ensures { Writes (K.state sink.old) (K.state sink.new)
        (table_row (option_copied host.entry) (is_refused figures.now.refusal.items) tick_ns width
        view.now.names.items view.now.tasks.items view.now.slots.items view.now.cores vcpu) result }
{
    let name = name_at(&view.names, vcpu);
    let figure = figure_at(view, figures, vcpu);
    put_row(sink, host, tick_ns, width, name, &view.tasks[vcpu], figure)?;
    put_core_words(sink, view, figures, vcpu)
}

// Writes the cells of a row up to the cores.
fn put_row<K: Sink>(
    sink: &mut K,
    host: Option<&[Vcpu]>,
    tick_ns: u32,
    width: usize,
    name: &[u8],
    task: &Task,
    figure: Figure,
) -> Result<(), WriteFault>
    ensures { Writes (K.state sink.old) (K.state sink.new)
        (row_cells (option_copied host.entry) tick_ns width name.now task.now figure) result }
{
    match host {
        None => put_plain(sink, tick_ns, width, name, task, figure),
        Some(vcpus) => {
            let asked = asked_of(vcpus, name);
            put_asked(sink, tick_ns, width, name, task, figure, &asked)
        }
    }
}

fn put_plain<K: Sink>(
    sink: &mut K,
    tick_ns: u32,
    width: usize,
    name: &[u8],
    task: &Task,
    figure: Figure,
) -> Result<(), WriteFault>
    ensures { Writes (K.state sink.old) (K.state sink.new)
        (plain_cells tick_ns width name.now task.now figure) result }
{
    let share = of_round(figure.given);
    put_cells(
        sink,
        &[
            Cell::Left(width, name),
            Cell::Percent(5, share),
            period_cell(tick_ns, task),
            wait_cell(tick_ns, figure.wait),
        ],
    )
}

fn put_asked<K: Sink>(
    sink: &mut K,
    tick_ns: u32,
    width: usize,
    name: &[u8],
    task: &Task,
    figure: Figure,
    asked: &Option<Reservation>,
) -> Result<(), WriteFault>
    ensures { Writes (K.state sink.old) (K.state sink.new)
        (asked_cells tick_ns width name.now task.now figure asked.now) result }
{
    let share = of_round(figure.given);
    put_cells(
        sink,
        &[
            Cell::Left(width, name),
            asked_cell(asked),
            Cell::Percent(5, share),
            period_cell(tick_ns, task),
            wait_cell(tick_ns, figure.wait),
            promised_cell(asked),
            kept_cell(tick_ns, asked, figure),
        ],
    )
}

// Writes the cores where the vCPU has slots, and ends its row.
fn put_core_words<K: Sink>(
    sink: &mut K,
    view: &View,
    figures: &Figures,
    vcpu: usize,
) -> Result<(), WriteFault>
    requires figures { AreFigures view.now figures.now }
    requires few { view.now.cores ≤ MAX_CORES }
    requires low { vcpu < length view.now.tasks.items }
    ensures { Writes (K.state sink.old) (K.state sink.new)
        (cores_cell view.now.slots.items view.now.cores vcpu) result }
{
    write_all(sink, b" ")?;
    put_stands(sink, view, figures, vcpu)?;
    write_all(sink, b"\n")
}

fn put_stands<K: Sink>(
    sink: &mut K,
    view: &View,
    figures: &Figures,
    vcpu: usize,
) -> Result<(), WriteFault>
    requires figures { AreFigures view.now figures.now }
    requires few { view.now.cores ≤ MAX_CORES }
    requires low { vcpu < length view.now.tasks.items }
    ensures { Writes (K.state sink.old) (K.state sink.new)
        (texts_below (core_word view.now.slots.items vcpu) view.now.cores) result }
{
    for core in 0..view.cores {
        put_stand(sink, view, figures, vcpu, core)?;
    }
    Ok(())
}

// Writes the core if the vCPU has a slot there.
fn put_stand<K: Sink>(
    sink: &mut K,
    view: &View,
    figures: &Figures,
    vcpu: usize,
    core: u32,
) -> Result<(), WriteFault>
    requires figures { AreFigures view.now figures.now }
    requires few { core < MAX_CORES }
    requires low { vcpu < length view.now.tasks.items }
    ensures { Writes (K.state sink.old) (K.state sink.new)
        (core_word view.now.slots.items vcpu core) result }
{
    if figures.stands[vcpu * MAX_CORES as usize + core as usize] {
        put_numbered(sink, b" ", core, b"")
    } else {
        Ok(())
    }
}

// Writes the row of each core.
pub(crate) fn put_cores<K: Sink>(sink: &mut K, view: &View) -> Result<(), WriteFault>
    ensures { Writes (K.state sink.old) (K.state sink.new)
        (texts_below (core_row view.now.slots.items) view.now.cores) result }
{
    let loads = loads_of(&view.slots);
    for core in 0..view.cores {
        put_core(sink, &view.slots, &loads, core)?;
    }
    Ok(())
}

fn put_core<K: Sink>(
    sink: &mut K,
    slots: &[Stretch],
    loads: &[u32; 32],
    core: u32,
) -> Result<(), WriteFault>
    requires { (core : ℕ) → core < MAX_CORES → slice_index loads.now core ≡ load_of_core slots.now core }
    ensures { Writes (K.state sink.old) (K.state sink.new) (core_row slots.now core) result }
{
    let load = if core < MAX_CORES {
        loads[core as usize]
    } else {
        load_of(slots, core)
    };
    put_core_cells(sink, core, load)
}

fn put_core_cells<K: Sink>(sink: &mut K, core: u32, load: u32) -> Result<(), WriteFault>
    ensures { Writes (K.state sink.old) (K.state sink.new) (core_cells core load) result }
{
    put_cells(
        sink,
        &[
            core_cell(core),
            Cell::Percent(5, of_round(load)),
            Cell::Percent(7, rest_of_round(load)),
            Cell::Text(b"\n"),
        ],
    )
}
