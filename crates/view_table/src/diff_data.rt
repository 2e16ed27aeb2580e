ghost use Rattle.std.specs.Prelude.{◌≡◌, ◌<◌, ◌≤◌, ◌++◌, IfSome, length, slice_get};
ghost use Rattle.tab_core.specs.declared.TheConstants.{MAX_VCPUS};
ghost use Rattle.tab_io.specs.Sinks.{Writes};
ghost use Rattle.tab_words.specs.Texts.{texts_below};
ghost use Rattle.view_cells.specs.CellTexts.{comma_before};
ghost use Rattle.view_table.specs.DiffData.{added_row, both_rows, csv_name, csv_side, diff_csv, diff_head, diff_json, json_name, json_side, new_loads, new_part, new_row, no_side, old_loads, old_part, old_row, row_begin, row_end, row_middle, side_in, side_of, side_text, slots_end, slots_part};
ghost use Rattle.view_table.specs.Figures.{AreFigures};
ghost use Rattle.view_table.specs.Waits.{wait_of};

use crate::data::{home_piece, number_or, period_piece, put_begin, put_comma, put_loads, wait_or};
use crate::diff::{figure_of, have_same_slots, number_of};
use crate::figures::Figures;
use crate::rows::{name_at, share_of};
use tab_io::{Sink, WriteFault, write_all};
use tab_words::{TextPiece, put_pieces};
use view_doc::{Task, View};

// What is written.
#[derive(Clone, Copy)]
pub(crate) enum Form {
    Json,
    // Comma-separated values.
    Csv,
}

// What is written, and nanoseconds of a tick.
#[derive(Clone, Copy)]
pub(crate) struct Style {
    pub(crate) form: Form,
    pub(crate) tick_ns: u32,
}

/// Writes each vCPU of two plans, whose figures these are, with what it has in either, and the loads of their cores,
/// as JSON, in one line. Times are in nanoseconds, for a tick of so many, and shares and loads in parts per million.
/// Where a plan hasn't the vCPU, and where a wait has no end, the value is null. Last it says whether the slots are
/// others.
///
/// A fault leaves a prefix of the text in the sink. Nothing is settled, and nothing is allocated.
pub fn write_diff_json<K: Sink>(
    sink: &mut K,
    old: &View,
    old_figures: &Figures,
    new: &View,
    new_figures: &Figures,
    tick_ns: u32,
) -> Result<(), WriteFault>
    requires old { AreFigures old.now old_figures.now }
    requires new { AreFigures new.now new_figures.now }
    requires few { length old.now.tasks.items ≤ MAX_VCPUS }
    requires few_new { length new.now.tasks.items ≤ MAX_VCPUS }
    ensures { Writes (K.state sink.old) (K.state sink.new) (diff_json tick_ns old.now new.now) result }
{
    let style = Style {
        form: Form::Json,
        tick_ns,
    };
    put_begin(sink, tick_ns)?;
    put_rows(sink, style, old, old_figures, new, new_figures)?;
    put_old_loads(sink, old)?;
    put_new_loads(sink, new)?;
    put_slots_part(sink, old, new)
}

/// Writes each vCPU of two plans, whose figures these are, with what it has in either, as comma-separated values,
/// after a line with the columns' names. Times are in nanoseconds, for a tick of so many, and shares in parts per
/// million. Where a plan hasn't the vCPU, and where a wait has no end, the value is empty.
///
/// A fault leaves a prefix of the text in the sink. Nothing is settled, and nothing is allocated.
pub fn write_diff_csv<K: Sink>(
    sink: &mut K,
    old: &View,
    old_figures: &Figures,
    new: &View,
    new_figures: &Figures,
    tick_ns: u32,
) -> Result<(), WriteFault>
    requires old { AreFigures old.now old_figures.now }
    requires new { AreFigures new.now new_figures.now }
    requires few { length old.now.tasks.items ≤ MAX_VCPUS }
    requires few_new { length new.now.tasks.items ≤ MAX_VCPUS }
    ensures { Writes (K.state sink.old) (K.state sink.new) (diff_csv tick_ns old.now new.now) result }
{
    let style = Style {
        form: Form::Csv,
        tick_ns,
    };
    put_head(sink)?;
    put_rows(sink, style, old, old_figures, new, new_figures)
}

fn put_head<K: Sink>(sink: &mut K) -> Result<(), WriteFault>
    ensures { Writes (K.state sink.old) (K.state sink.new) diff_head result }
{
    write_all(
        sink,
        b"vcpu,old_share_ppm,old_period_ns,old_wait_ns,old_home,new_share_ppm,new_period_ns,new_wait_ns,new_home\n",
    )
}

// Writes each vCPU of either plan.
fn put_rows<K: Sink>(
    sink: &mut K,
    style: Style,
    old: &View,
    old_figures: &Figures,
    new: &View,
    new_figures: &Figures,
) -> Result<(), WriteFault>
    requires old { AreFigures old.now old_figures.now }
    requires new { AreFigures new.now new_figures.now }
    requires few { length old.now.tasks.items ≤ MAX_VCPUS }
    requires few_new { length new.now.tasks.items ≤ MAX_VCPUS }
    ensures { Writes (K.state sink.old) (K.state sink.new) (both_rows style old.now new.now) result }
{
    put_old_rows(sink, style, old, old_figures, new, new_figures)?;
    put_new_rows(sink, style, old, old_figures, new, new_figures)
}

fn put_old_rows<K: Sink>(
    sink: &mut K,
    style: Style,
    old: &View,
    old_figures: &Figures,
    new: &View,
    new_figures: &Figures,
) -> Result<(), WriteFault>
    requires old { AreFigures old.now old_figures.now }
    requires new { AreFigures new.now new_figures.now }
    ensures { Writes (K.state sink.old) (K.state sink.new)
        (texts_below (old_row style old.now new.now) (length old.now.tasks.items)) result }
{
    for vcpu in 0..old.tasks.len() {
        put_old_row(sink, style, old, old_figures, new, new_figures, vcpu)?;
    }
    Ok(())
}

fn put_old_row<K: Sink>(
    sink: &mut K,
    style: Style,
    old: &View,
    old_figures: &Figures,
    new: &View,
    new_figures: &Figures,
    vcpu: usize,
) -> Result<(), WriteFault>
    requires old { AreFigures old.now old_figures.now }
    requires new { AreFigures new.now new_figures.now }
    requires low { vcpu < length old.now.tasks.items }
    ensures { Writes (K.state sink.old) (K.state sink.new) (old_row style old.now new.now vcpu) result }
{
    let name = name_at(&old.names, vcpu);
    let other = number_of(&new.names, new.tasks.len(), name);
    put_old_part(sink, style, vcpu, name, old, old_figures, Some(vcpu))?;
    put_new_part(sink, style, new, new_figures, other)
}

// Writes the vCPUs of the new plan that the old one hasn't.
fn put_new_rows<K: Sink>(
    sink: &mut K,
    style: Style,
    old: &View,
    old_figures: &Figures,
    new: &View,
    new_figures: &Figures,
) -> Result<(), WriteFault>
    requires old { AreFigures old.now old_figures.now }
    requires new { AreFigures new.now new_figures.now }
    requires few { length old.now.tasks.items ≤ MAX_VCPUS }
    requires few_new { length new.now.tasks.items ≤ MAX_VCPUS }
    ensures { Writes (K.state sink.old) (K.state sink.new)
        (texts_below (new_row style old.now new.now) (length new.now.tasks.items)) result }
{
    for vcpu in 0..new.tasks.len() {
        put_new_row(sink, style, old, old_figures, new, new_figures, vcpu)?;
    }
    Ok(())
}

fn put_new_row<K: Sink>(
    sink: &mut K,
    style: Style,
    old: &View,
    old_figures: &Figures,
    new: &View,
    new_figures: &Figures,
    vcpu: usize,
) -> Result<(), WriteFault>
    requires old { AreFigures old.now old_figures.now }
    requires new { AreFigures new.now new_figures.now }
    requires few { length old.now.tasks.items ≤ MAX_VCPUS }
    requires few_new { length new.now.tasks.items ≤ MAX_VCPUS }
    requires low { vcpu < length new.now.tasks.items }
    ensures { Writes (K.state sink.old) (K.state sink.new) (new_row style old.now new.now vcpu) result }
{
    let name = name_at(&new.names, vcpu);
    match number_of(&old.names, old.tasks.len(), name) {
        None => put_added_row(sink, style, old, old_figures, new, new_figures, vcpu),
        Some(_) => Ok(()),
    }
}

fn put_added_row<K: Sink>(
    sink: &mut K,
    style: Style,
    old: &View,
    old_figures: &Figures,
    new: &View,
    new_figures: &Figures,
    vcpu: usize,
) -> Result<(), WriteFault>
    requires old { AreFigures old.now old_figures.now }
    requires new { AreFigures new.now new_figures.now }
    requires few { length old.now.tasks.items ≤ MAX_VCPUS }
    requires few_new { length new.now.tasks.items ≤ MAX_VCPUS }
    requires low { vcpu < length new.now.tasks.items }
    ensures { Writes (K.state sink.old) (K.state sink.new) (added_row style old.now new.now vcpu) result }
{
    let name = name_at(&new.names, vcpu);
    let before = old.tasks.len() + vcpu;
    put_old_part(sink, style, before, name, old, old_figures, None)?;
    put_new_part(sink, style, new, new_figures, Some(vcpu))
}

// Writes a row up to the old plan's part and that.
fn put_old_part<K: Sink>(
    sink: &mut K,
    style: Style,
    before: usize,
    name: &[u8],
    old: &View,
    old_figures: &Figures,
    vcpu: Option<usize>,
) -> Result<(), WriteFault>
    requires figures { AreFigures old.now old_figures.now }
    requires low { IfSome vcpu (λ v. v < length old.now.tasks.items) }
    ensures { Writes (K.state sink.old) (K.state sink.new) (old_part style before name.now old.now vcpu) result }
{
    put_row_begin(sink, style.form, before, name)?;
    put_side(sink, style, old, old_figures, vcpu)
}

// Writes the new plan's part of a row, and its end.
fn put_new_part<K: Sink>(
    sink: &mut K,
    style: Style,
    new: &View,
    new_figures: &Figures,
    vcpu: Option<usize>,
) -> Result<(), WriteFault>
    requires figures { AreFigures new.now new_figures.now }
    requires low { IfSome vcpu (λ v. v < length new.now.tasks.items) }
    ensures { Writes (K.state sink.old) (K.state sink.new) (new_part style new.now vcpu) result }
{
    put_middle(sink, style.form)?;
    put_side(sink, style, new, new_figures, vcpu)?;
    put_row_end(sink, style.form)
}

fn put_row_begin<K: Sink>(
    sink: &mut K,
    form: Form,
    before: usize,
    name: &[u8],
) -> Result<(), WriteFault>
    ensures { Writes (K.state sink.old) (K.state sink.new) (row_begin form before name.now) result }
{
    match form {
        Form::Json => put_json_begin(sink, before, name),
        Form::Csv => put_csv_name(sink, name),
    }
}

fn put_json_begin<K: Sink>(sink: &mut K, before: usize, name: &[u8]) -> Result<(), WriteFault>
    ensures { Writes (K.state sink.old) (K.state sink.new) (comma_before before ++ json_name name.now) result }
{
    put_comma(sink, before)?;
    put_json_name(sink, name)
}

#[tactic(auto, unfolding(crate::specs::DiffData::json_name))]
fn put_json_name<'a, K: Sink>(sink: &mut K, name: &'a [u8]) -> Result<(), WriteFault>
    ensures { Writes (K.state sink.old) (K.state sink.new) (json_name name.now) result }
{
    put_pieces(
        sink,
        &[
            TextPiece::Text(b"{\"name\":\""),
            TextPiece::Text(name),
            TextPiece::Text(b"\",\"old\":"),
        ],
    )
}

#[tactic(auto, unfolding(crate::specs::DiffData::csv_name))]
fn put_csv_name<'a, K: Sink>(sink: &mut K, name: &'a [u8]) -> Result<(), WriteFault>
    ensures { Writes (K.state sink.old) (K.state sink.new) (csv_name name.now) result }
{
    put_pieces(sink, &[TextPiece::Text(name), TextPiece::Text(b",")])
}

fn put_middle<K: Sink>(sink: &mut K, form: Form) -> Result<(), WriteFault>
    ensures { Writes (K.state sink.old) (K.state sink.new) (row_middle form) result }
{
    match form {
        Form::Json => write_all(sink, b",\"new\":"),
        Form::Csv => write_all(sink, b","),
    }
}

fn put_row_end<K: Sink>(sink: &mut K, form: Form) -> Result<(), WriteFault>
    ensures { Writes (K.state sink.old) (K.state sink.new) (row_end form) result }
{
    match form {
        Form::Json => write_all(sink, b"}"),
        Form::Csv => write_all(sink, b"\n"),
    }
}

// Writes what a vCPU has in a plan, or that the plan hasn't it.
fn put_side<K: Sink>(
    sink: &mut K,
    style: Style,
    view: &View,
    figures: &Figures,
    vcpu: Option<usize>,
) -> Result<(), WriteFault>
    requires figures { AreFigures view.now figures.now }
    requires low { IfSome vcpu (λ v. v < length view.now.tasks.items) }
    ensures { Writes (K.state sink.old) (K.state sink.new) (side_in style view.now vcpu) result }
{
    match vcpu {
        None => put_no_side(sink, style.form),
        Some(v) => put_there(sink, style, view, figures, v),
    }
}

fn put_there<K: Sink>(
    sink: &mut K,
    style: Style,
    view: &View,
    figures: &Figures,
    vcpu: usize,
) -> Result<(), WriteFault>
    requires figures { AreFigures view.now figures.now }
    requires low { vcpu < length view.now.tasks.items }
    ensures { Writes (K.state sink.old) (K.state sink.new)
        (side_of style (slice_get view.now.tasks.items vcpu) (wait_of view.now.slots.items vcpu)) result }
{
    let wait = figure_of(view, figures, vcpu);
    put_task(sink, style.form, style.tick_ns, &view.tasks[vcpu], wait)
}

fn put_no_side<K: Sink>(sink: &mut K, form: Form) -> Result<(), WriteFault>
    ensures { Writes (K.state sink.old) (K.state sink.new) (no_side form) result }
{
    match form {
        Form::Json => write_all(sink, b"null"),
        Form::Csv => write_all(sink, b",,,"),
    }
}

fn put_task<K: Sink>(
    sink: &mut K,
    form: Form,
    tick_ns: u32,
    task: &Task,
    wait: u32,
) -> Result<(), WriteFault>
    ensures { Writes (K.state sink.old) (K.state sink.new) (side_text form tick_ns task.now wait) result }
{
    match form {
        Form::Json => put_json_side(sink, tick_ns, task, wait),
        Form::Csv => put_csv_side(sink, tick_ns, task, wait),
    }
}

fn put_json_side<K: Sink>(
    sink: &mut K,
    tick_ns: u32,
    task: &Task,
    wait: u32,
) -> Result<(), WriteFault>
    ensures { Writes (K.state sink.old) (K.state sink.new) (json_side tick_ns task.now wait) result }
{
    let share = share_of(task);
    let period = period_piece(task, tick_ns);
    let ended = wait_or(tick_ns, wait);
    let wait_piece = number_or(b"null", ended);
    let home = home_piece(task);
    put_pieces(
        sink,
        &[
            TextPiece::Text(b"{\"share_ppm\":"),
            TextPiece::Wide(share),
            TextPiece::Text(b",\"period_ns\":"),
            period,
            TextPiece::Text(b",\"wait_ns\":"),
            wait_piece,
            TextPiece::Text(b",\"home\":"),
            home,
            TextPiece::Text(b"}"),
        ],
    )
}

fn put_csv_side<K: Sink>(
    sink: &mut K,
    tick_ns: u32,
    task: &Task,
    wait: u32,
) -> Result<(), WriteFault>
    ensures { Writes (K.state sink.old) (K.state sink.new) (csv_side tick_ns task.now wait) result }
{
    let share = share_of(task);
    let period = period_piece(task, tick_ns);
    let ended = wait_or(tick_ns, wait);
    let wait_piece = number_or(b"", ended);
    let home = home_piece(task);
    put_pieces(
        sink,
        &[
            TextPiece::Wide(share),
            TextPiece::Text(b","),
            period,
            TextPiece::Text(b","),
            wait_piece,
            TextPiece::Text(b","),
            home,
        ],
    )
}

// Writes the loads of the old plan's cores.
fn put_old_loads<K: Sink>(sink: &mut K, view: &View) -> Result<(), WriteFault>
    ensures { Writes (K.state sink.old) (K.state sink.new) (old_loads view.now) result }
{
    write_all(sink, b"],\"load_ppm\":{\"old\":[")?;
    put_loads(sink, view)
}

fn put_new_loads<K: Sink>(sink: &mut K, view: &View) -> Result<(), WriteFault>
    ensures { Writes (K.state sink.old) (K.state sink.new) (new_loads view.now) result }
{
    write_all(sink, b"],\"new\":[")?;
    put_loads(sink, view)
}

// Writes whether the slots are others.
fn put_slots_part<K: Sink>(sink: &mut K, old: &View, new: &View) -> Result<(), WriteFault>
    ensures { Writes (K.state sink.old) (K.state sink.new) (slots_part old.now new.now) result }
{
    write_all(sink, slots_end(have_same_slots(old, new)))
}

fn slots_end(same: bool) -> &'static [u8]
    ensures { result.now ≡ slots_end same }
{
    if same {
        b"]},\"slots_differ\":false}\n"
    } else {
        b"]},\"slots_differ\":true}\n"
    }
}
