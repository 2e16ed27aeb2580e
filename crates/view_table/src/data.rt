ghost use Rattle.std.specs.Prelude.{ℕ, ◌≡◌, ◌<◌, ◌≤◌, ◌*◌, ◌++◌, Some, decimal, length, option_copied, slice_index};
ghost use Rattle.tab_core.specs.declared.TheConstants.{MAX_CORES};
ghost use Rattle.tab_io.specs.Sinks.{Writes};
ghost use Rattle.tab_words.specs.Pieces.{piece_text};
ghost use Rattle.tab_words.specs.Texts.{texts_below};
ghost use Rattle.vcpu_names.specs.Names.{name_at as name_of};
ghost use Rattle.view_cells.specs.CellTexts.{comma_before, truth_text};
ghost use Rattle.view_table.specs.Data.{asked_by, core_data, csv_facts, csv_home, csv_kept, csv_row, csv_shares, csv_times, json_end, json_facts, json_home, json_kept, json_loads_begin, json_refusal, json_row, json_shares, json_times, kept_value, latency_or, load_data, number_or, part_before, share_or, table_csv, table_csv_head, table_json, table_json_begin, vcpu_csv, vcpu_json, wait_or};
ghost use Rattle.view_table.specs.Figures.{AreFigures};
ghost use Rattle.view_table.specs.Given.{figure_at, is_refused};
ghost use Rattle.view_table.specs.Groups.{any_below};
ghost use Rattle.view_table.specs.Loads.{has_slot_on, load_of_core};
ghost use Rattle.view_table.specs.Table.{of_round};
ghost use Rattle.view_table.specs.Waits.{wait_of};

use crate::figures::{Figure, Figures, figure_at};
use crate::rows::{asked_of, has_promise, kept_word, load_of, loads_of, name_at, of_round};
use tab_core::{MAX_CORES, ROUND, Reservation, Vcpu};
use tab_io::{Sink, WriteFault, write_all};
use tab_words::{TextPiece, put_number, put_numbered, put_pieces};
use view_doc::{Stretch, Task, View};

/// Writes the vCPUs of a plan, whose figures these are, and the loads of its cores as JSON, in one line. Times are in
/// nanoseconds, for a tick of so many, and shares and loads in parts per million. Where there is no host, or it admits
/// no vCPU of the name, and where a wait has no end, the value is null. Where `tableau check` refuses the tables, whether
/// the plan keeps what was promised is null, and the last member is its line.
///
/// A fault leaves a prefix of the text in the sink. Nothing is settled, and nothing is allocated.
pub fn write_table_json<K: Sink>(
    sink: &mut K,
    host: Option<&[Vcpu]>,
    view: &View,
    figures: &Figures,
    tick_ns: u32,
) -> Result<(), WriteFault>
    requires figures { AreFigures view.now figures.now }
    requires few { view.now.cores ≤ MAX_CORES }
    ensures { Writes (K.state sink.old) (K.state sink.new)
        (table_json (option_copied host.entry) figures.now.refusal.items tick_ns view.now) result }
{
    put_begin(sink, tick_ns)?;
    put_json_rows(sink, host, view, figures, tick_ns)?;
    put_load_head(sink)?;
    put_loads(sink, view)?;
    put_json_end(sink, &figures.refusal)
}

/// Writes the vCPUs of a plan, whose figures these are, as comma-separated values, after a line with the columns'
/// names. Times are in nanoseconds, for a tick of so many, and shares in parts per million. What there isn't is empty,
/// and between two cores is a space. Where `tableau check` refuses the tables, whether the plan keeps what was promised
/// is a question mark.
///
/// A fault leaves a prefix of the text in the sink. Nothing is settled, and nothing is allocated.
pub fn write_table_csv<K: Sink>(
    sink: &mut K,
    host: Option<&[Vcpu]>,
    view: &View,
    figures: &Figures,
    tick_ns: u32,
) -> Result<(), WriteFault>
    requires figures { AreFigures view.now figures.now }
    requires few { view.now.cores ≤ MAX_CORES }
    ensures { Writes (K.state sink.old) (K.state sink.new)
        (table_csv (option_copied host.entry) (is_refused figures.now.refusal.items) tick_ns view.now) result }
{
    put_csv_head(sink)?;
    put_csv_rows(sink, host, view, figures, tick_ns)
}

#[tactic(auto, unfolding(crate::specs::Data::table_json_begin))]
pub(crate) fn put_begin<K: Sink>(sink: &mut K, tick_ns: u32) -> Result<(), WriteFault>
    ensures { Writes (K.state sink.old) (K.state sink.new) (table_json_begin tick_ns) result }
{
    put_numbered(sink, b"{\"form\":1,\"tick_ns\":", tick_ns, b",\"vcpus\":[")
}

fn put_load_head<K: Sink>(sink: &mut K) -> Result<(), WriteFault>
    ensures { Writes (K.state sink.old) (K.state sink.new) json_loads_begin result }
{
    write_all(sink, b"],\"load_ppm\":[")
}

// Writes what is after the loads.
fn put_json_end<K: Sink>(sink: &mut K, refusal: &[u8]) -> Result<(), WriteFault>
    ensures { Writes (K.state sink.old) (K.state sink.new) (json_end refusal.now) result }
{
    if refusal.is_empty() {
        write_all(sink, b"]}\n")
    } else {
        put_json_refusal(sink, refusal)
    }
}

#[tactic(auto, unfolding(crate::specs::Data::json_refusal))]
fn put_json_refusal<K: Sink>(sink: &mut K, refusal: &[u8]) -> Result<(), WriteFault>
    ensures { Writes (K.state sink.old) (K.state sink.new) (json_refusal refusal.now) result }
{
    put_pieces(
        sink,
        &[
            TextPiece::Text(b"],\"refused\":\""),
            TextPiece::Text(refusal),
            TextPiece::Text(b"\"}\n"),
        ],
    )
}

fn put_csv_head<K: Sink>(sink: &mut K) -> Result<(), WriteFault>
    ensures { Writes (K.state sink.old) (K.state sink.new) table_csv_head result }
{
    write_all(
        sink,
        b"vcpu,asked_ppm,given_ppm,period_ns,wait_ns,promised_ns,kept,home,cores\n",
    )
}

// Writes the object of each vCPU.
fn put_json_rows<K: Sink>(
    sink: &mut K,
    host: Option<&[Vcpu]>,
    view: &View,
    figures: &Figures,
    tick_ns: u32,
) -> Result<(), WriteFault>
    requires figures { AreFigures view.now figures.now }
    requires few { view.now.cores ≤ MAX_CORES }
    ensures { Writes (K.state sink.old) (K.state sink.new)
        (texts_below (json_row (option_copied host.entry) (is_refused figures.now.refusal.items) tick_ns view.now)
        (length view.now.tasks.items)) result }
{
    for vcpu in 0..view.tasks.len() {
        put_json_row(sink, host, view, figures, tick_ns, vcpu)?;
    }
    Ok(())
}

fn put_json_row<K: Sink>(
    sink: &mut K,
    host: Option<&[Vcpu]>,
    view: &View,
    figures: &Figures,
    tick_ns: u32,
    vcpu: usize,
) -> Result<(), WriteFault>
    requires figures { AreFigures view.now figures.now }
    requires few { view.now.cores ≤ MAX_CORES }
    requires low { vcpu < length view.now.tasks.items }
    ensures { Writes (K.state sink.old) (K.state sink.new)
        (json_row (option_copied host.entry) (is_refused figures.now.refusal.items) tick_ns view.now vcpu) result }
{
    put_object(sink, host, view, figures, tick_ns, vcpu, &view.tasks[vcpu])
}

// Writes the object of a vCPU with this task.
fn put_object<K: Sink>(
    sink: &mut K,
    host: Option<&[Vcpu]>,
    view: &View,
    figures: &Figures,
    tick_ns: u32,
    vcpu: usize,
    task: &Task,
) -> Result<(), WriteFault>
    requires figures { AreFigures view.now figures.now }
    requires few { view.now.cores ≤ MAX_CORES }
    requires low { vcpu < length view.now.tasks.items }
    ensures { Writes (K.state sink.old) (K.state sink.new)
        (vcpu_json (option_copied host.entry) (is_refused figures.now.refusal.items) tick_ns view.now.names.items view.now.slots.items view.now.cores vcpu (Some task.now)) result }
{
    put_comma(sink, vcpu)?;
    put_json_named(sink, host, view, figures, tick_ns, vcpu, task)?;
    put_core_list(sink, view, figures, vcpu, b",")?;
    write_all(sink, b"]}")
}

fn put_json_named<K: Sink>(
    sink: &mut K,
    host: Option<&[Vcpu]>,
    view: &View,
    figures: &Figures,
    tick_ns: u32,
    vcpu: usize,
    task: &Task,
) -> Result<(), WriteFault>
    requires figures { AreFigures view.now figures.now }
    requires low { vcpu < length view.now.tasks.items }
    ensures { Writes (K.state sink.old) (K.state sink.new) (json_facts tick_ns (name_of view.now.names.items vcpu)
        (asked_by (option_copied host.entry) (name_of view.now.names.items vcpu)) task.now
        (figure_at view.now.slots.items (is_refused figures.now.refusal.items) vcpu)) result }
{
    let name = name_at(&view.names, vcpu);
    let asked = asked_by(host, name);
    let figure = figure_at(view, figures, vcpu);
    put_json_facts(sink, tick_ns, name, &asked, task, figure)
}

pub(crate) fn put_comma<K: Sink>(sink: &mut K, number: usize) -> Result<(), WriteFault>
    ensures { Writes (K.state sink.old) (K.state sink.new) (comma_before number) result }
{
    if number == 0 {
        Ok(())
    } else {
        write_all(sink, b",")
    }
}

// Writes a vCPU's object up to its cores.
fn put_json_facts<K: Sink>(
    sink: &mut K,
    tick_ns: u32,
    name: &[u8],
    asked: &Option<Reservation>,
    task: &Task,
    figure: Figure,
) -> Result<(), WriteFault>
    ensures { Writes (K.state sink.old) (K.state sink.new)
        (json_facts tick_ns name.now asked.now task.now figure) result }
{
    put_json_shares(sink, name, asked, figure)?;
    put_json_times(sink, tick_ns, asked, task, figure.wait)?;
    put_json_home(sink, tick_ns, asked, task, figure)
}

fn put_json_shares<K: Sink>(
    sink: &mut K,
    name: &[u8],
    asked: &Option<Reservation>,
    figure: Figure,
) -> Result<(), WriteFault>
    ensures { Writes (K.state sink.old) (K.state sink.new) (json_shares name.now asked.now figure) result }
{
    let share = of_round(figure.given);
    let asked_share = share_or(asked);
    let asked_piece = number_or(b"null", asked_share);
    put_pieces(
        sink,
        &[
            TextPiece::Text(b"{\"name\":\""),
            TextPiece::Text(name),
            TextPiece::Text(b"\",\"asked_ppm\":"),
            asked_piece,
            TextPiece::Text(b",\"given_ppm\":"),
            TextPiece::Wide(share),
            TextPiece::Text(b","),
        ],
    )
}

fn put_json_times<K: Sink>(
    sink: &mut K,
    tick_ns: u32,
    asked: &Option<Reservation>,
    task: &Task,
    wait: u32,
) -> Result<(), WriteFault>
    ensures { Writes (K.state sink.old) (K.state sink.new) (json_times tick_ns asked.now task.now wait) result }
{
    let period = period_piece(task, tick_ns);
    let ended = wait_or(tick_ns, wait);
    let latency = latency_or(asked);
    let wait_piece = number_or(b"null", ended);
    let latency_piece = number_or(b"null", latency);
    put_pieces(
        sink,
        &[
            TextPiece::Text(b"\"period_ns\":"),
            period,
            TextPiece::Text(b",\"wait_ns\":"),
            wait_piece,
            TextPiece::Text(b",\"promised_ns\":"),
            latency_piece,
            TextPiece::Text(b","),
        ],
    )
}

fn put_json_home<K: Sink>(
    sink: &mut K,
    tick_ns: u32,
    asked: &Option<Reservation>,
    task: &Task,
    figure: Figure,
) -> Result<(), WriteFault>
    ensures { Writes (K.state sink.old) (K.state sink.new) (json_home tick_ns asked.now task.now figure) result }
{
    let kept = json_kept(tick_ns, asked, figure);
    let home = home_piece(task);
    put_pieces(
        sink,
        &[
            TextPiece::Text(b"\"kept\":"),
            TextPiece::Text(kept),
            TextPiece::Text(b",\"home\":"),
            home,
            TextPiece::Text(b",\"cores\":["),
        ],
    )
}

// Writes the row of each vCPU.
fn put_csv_rows<K: Sink>(
    sink: &mut K,
    host: Option<&[Vcpu]>,
    view: &View,
    figures: &Figures,
    tick_ns: u32,
) -> Result<(), WriteFault>
    requires figures { AreFigures view.now figures.now }
    requires few { view.now.cores ≤ MAX_CORES }
    ensures { Writes (K.state sink.old) (K.state sink.new)
        (texts_below (csv_row (option_copied host.entry) (is_refused figures.now.refusal.items) tick_ns view.now)
        (length view.now.tasks.items)) result }
{
    for vcpu in 0..view.tasks.len() {
        put_csv_row(sink, host, view, figures, tick_ns, vcpu)?;
    }
    Ok(())
}

fn put_csv_row<K: Sink>(
    sink: &mut K,
    host: Option<&[Vcpu]>,
    view: &View,
    figures: &Figures,
    tick_ns: u32,
    vcpu: usize,
) -> Result<(), WriteFault>
    requires figures { AreFigures view.now figures.now }
    requires few { view.now.cores ≤ MAX_CORES }
    requires low { vcpu < length view.now.tasks.items }
    ensures { Writes (K.state sink.old) (K.state sink.new)
        (csv_row (option_copied host.entry) (is_refused figures.now.refusal.items) tick_ns view.now vcpu) result }
{
    put_csv_line(sink, host, view, figures, tick_ns, vcpu, &view.tasks[vcpu])
}

// Writes the row of a vCPU with this task.
fn put_csv_line<K: Sink>(
    sink: &mut K,
    host: Option<&[Vcpu]>,
    view: &View,
    figures: &Figures,
    tick_ns: u32,
    vcpu: usize,
    task: &Task,
) -> Result<(), WriteFault>
    requires figures { AreFigures view.now figures.now }
    requires few { view.now.cores ≤ MAX_CORES }
    requires low { vcpu < length view.now.tasks.items }
    ensures { Writes (K.state sink.old) (K.state sink.new)
        (vcpu_csv (option_copied host.entry) (is_refused figures.now.refusal.items) tick_ns view.now.names.items view.now.slots.items view.now.cores vcpu (Some task.now)) result }
{
    put_csv_named(sink, host, view, figures, tick_ns, vcpu, task)?;
    put_core_list(sink, view, figures, vcpu, b" ")?;
    write_all(sink, b"\n")
}

fn put_csv_named<K: Sink>(
    sink: &mut K,
    host: Option<&[Vcpu]>,
    view: &View,
    figures: &Figures,
    tick_ns: u32,
    vcpu: usize,
    task: &Task,
) -> Result<(), WriteFault>
    requires figures { AreFigures view.now figures.now }
    requires low { vcpu < length view.now.tasks.items }
    ensures { Writes (K.state sink.old) (K.state sink.new) (csv_facts tick_ns (name_of view.now.names.items vcpu)
        (asked_by (option_copied host.entry) (name_of view.now.names.items vcpu)) task.now
        (figure_at view.now.slots.items (is_refused figures.now.refusal.items) vcpu)) result }
{
    let name = name_at(&view.names, vcpu);
    let asked = asked_by(host, name);
    let figure = figure_at(view, figures, vcpu);
    put_csv_facts(sink, tick_ns, name, &asked, task, figure)
}

// Writes a vCPU's row up to its cores.
fn put_csv_facts<K: Sink>(
    sink: &mut K,
    tick_ns: u32,
    name: &[u8],
    asked: &Option<Reservation>,
    task: &Task,
    figure: Figure,
) -> Result<(), WriteFault>
    ensures { Writes (K.state sink.old) (K.state sink.new)
        (csv_facts tick_ns name.now asked.now task.now figure) result }
{
    put_csv_shares(sink, name, asked, figure)?;
    put_csv_times(sink, tick_ns, asked, task, figure.wait)?;
    put_csv_home(sink, tick_ns, asked, task, figure)
}

fn put_csv_shares<K: Sink>(
    sink: &mut K,
    name: &[u8],
    asked: &Option<Reservation>,
    figure: Figure,
) -> Result<(), WriteFault>
    ensures { Writes (K.state sink.old) (K.state sink.new) (csv_shares name.now asked.now figure) result }
{
    let share = of_round(figure.given);
    let asked_share = share_or(asked);
    let asked_piece = number_or(b"", asked_share);
    put_pieces(
        sink,
        &[
            TextPiece::Text(name),
            TextPiece::Text(b","),
            asked_piece,
            TextPiece::Text(b","),
            TextPiece::Wide(share),
            TextPiece::Text(b","),
        ],
    )
}

fn put_csv_times<K: Sink>(
    sink: &mut K,
    tick_ns: u32,
    asked: &Option<Reservation>,
    task: &Task,
    wait: u32,
) -> Result<(), WriteFault>
    ensures { Writes (K.state sink.old) (K.state sink.new) (csv_times tick_ns asked.now task.now wait) result }
{
    let period = period_piece(task, tick_ns);
    let ended = wait_or(tick_ns, wait);
    let latency = latency_or(asked);
    let wait_piece = number_or(b"", ended);
    let latency_piece = number_or(b"", latency);
    put_pieces(
        sink,
        &[
            period,
            TextPiece::Text(b","),
            wait_piece,
            TextPiece::Text(b","),
            latency_piece,
            TextPiece::Text(b","),
        ],
    )
}

fn put_csv_home<K: Sink>(
    sink: &mut K,
    tick_ns: u32,
    asked: &Option<Reservation>,
    task: &Task,
    figure: Figure,
) -> Result<(), WriteFault>
    ensures { Writes (K.state sink.old) (K.state sink.new) (csv_home tick_ns asked.now task.now figure) result }
{
    let kept = csv_kept(tick_ns, asked, figure);
    let home = home_piece(task);
    put_pieces(
        sink,
        &[
            TextPiece::Text(kept),
            TextPiece::Text(b","),
            home,
            TextPiece::Text(b","),
        ],
    )
}

// A period in nanoseconds, as a piece of a text.
pub(crate) fn period_piece(task: &Task, tick_ns: u32) -> TextPiece<'static>
    ensures { piece_text result ≡ decimal (task.now.period * tick_ns) }
{
    TextPiece::Wide(u64::from(task.period) * u64::from(tick_ns))
}

// The number of a home, as a piece of a text.
pub(crate) fn home_piece(task: &Task) -> TextPiece<'static>
    ensures { piece_text result ≡ decimal task.now.home }
{
    TextPiece::Number(task.home.0)
}

// A number, or this where there is none.
pub(crate) fn number_or<'a>(nothing: &'a [u8], number: Option<u64>) -> TextPiece<'a>
    ensures { piece_text result ≡ number_or nothing.now number }
{
    match number {
        Some(n) => TextPiece::Wide(n),
        None => TextPiece::Text(nothing),
    }
}

// What the host's vCPU of this name has reserved.
fn asked_by(host: Option<&[Vcpu]>, name: &[u8]) -> Option<Reservation>
    ensures { result ≡ asked_by (option_copied host.entry) name.now }
{
    match host {
        Some(vcpus) => asked_of(vcpus, name),
        None => None,
    }
}

fn share_or(asked: &Option<Reservation>) -> Option<u64>
    ensures { result ≡ share_or asked.now }
{
    match asked {
        Some(r) => Some(u64::from(r.share_ppm)),
        None => None,
    }
}

fn latency_or(asked: &Option<Reservation>) -> Option<u64>
    ensures { result ≡ latency_or asked.now }
{
    match asked {
        Some(r) => Some(r.latency_ns),
        None => None,
    }
}

pub(crate) fn wait_or(tick_ns: u32, wait: u32) -> Option<u64>
    ensures { result ≡ wait_or tick_ns wait }
{
    if wait < 2 * ROUND {
        Some(u64::from(wait) * u64::from(tick_ns))
    } else {
        None
    }
}

fn json_kept(tick_ns: u32, asked: &Option<Reservation>, figure: Figure) -> &'static [u8]
    ensures { result.now ≡ json_kept tick_ns asked.now figure }
{
    match asked {
        Some(r) => kept_value(figure.is_refused, has_promise(tick_ns, r, figure)),
        None => b"null",
    }
}

// Whether all was kept, which is open where the tables are refused.
fn kept_value(is_refused: bool, is_kept: bool) -> &'static [u8]
    ensures { result.now ≡ kept_value is_refused is_kept }
{
    if is_refused {
        b"null"
    } else {
        truth_text(is_kept)
    }
}

fn truth_text(truth: bool) -> &'static [u8]
    ensures { result.now ≡ truth_text truth }
{
    if truth { b"true" } else { b"false" }
}

fn csv_kept(tick_ns: u32, asked: &Option<Reservation>, figure: Figure) -> &'static [u8]
    ensures { result.now ≡ csv_kept tick_ns asked.now figure }
{
    match asked {
        Some(r) => kept_word(figure.is_refused, has_promise(tick_ns, r, figure)),
        None => &[],
    }
}

// Writes the cores where the vCPU has slots, with this between each two.
fn put_core_list<K: Sink>(
    sink: &mut K,
    view: &View,
    figures: &Figures,
    vcpu: usize,
    between: &[u8],
) -> Result<(), WriteFault>
    requires figures { AreFigures view.now figures.now }
    requires few { view.now.cores ≤ MAX_CORES }
    requires low { vcpu < length view.now.tasks.items }
    ensures { Writes (K.state sink.old) (K.state sink.new)
        (texts_below (core_data between.now view.now.slots.items vcpu) view.now.cores) result }
{
    for core in 0..view.cores {
        put_core_data(sink, view, figures, vcpu, between, core)?;
    }
    Ok(())
}

fn put_core_data<K: Sink>(
    sink: &mut K,
    view: &View,
    figures: &Figures,
    vcpu: usize,
    between: &[u8],
    core: u32,
) -> Result<(), WriteFault>
    requires figures { AreFigures view.now figures.now }
    requires few { core < MAX_CORES }
    requires low { vcpu < length view.now.tasks.items }
    ensures { Writes (K.state sink.old) (K.state sink.new)
        (core_data between.now view.now.slots.items vcpu core) result }
{
    if !stands_on(view, figures, vcpu, core) {
        return Ok(());
    }
    let before = part_before(between, stands_below(view, figures, vcpu, core));
    put_numbered(sink, before, core, b"")
}

fn part_before(between: &[u8], is_later: bool) -> &[u8]
    ensures { result.now ≡ part_before between.now is_later }
{
    if is_later { between } else { &[] }
}

// Whether the vCPU has a slot on a core below this one.
fn stands_below(view: &View, figures: &Figures, vcpu: usize, count: u32) -> bool
    requires figures { AreFigures view.now figures.now }
    requires few { count < MAX_CORES }
    requires low { vcpu < length view.now.tasks.items }
    ensures { result ≡ any_below (has_slot_on view.now.slots.items vcpu) count }
{
    let mut found = false;
    for core in 0..count {
        if stands_on(view, figures, vcpu, core) {
            found = true;
        }
    }
    found
}

fn stands_on(view: &View, figures: &Figures, vcpu: usize, core: u32) -> bool
    requires figures { AreFigures view.now figures.now }
    requires few { core < MAX_CORES }
    requires low { vcpu < length view.now.tasks.items }
    ensures { result ≡ has_slot_on view.now.slots.items vcpu core }
{
    figures.stands[vcpu * MAX_CORES as usize + core as usize]
}

// Writes the load of each core.
pub(crate) fn put_loads<K: Sink>(sink: &mut K, view: &View) -> Result<(), WriteFault>
    ensures { Writes (K.state sink.old) (K.state sink.new)
        (texts_below (load_data view.now.slots.items) view.now.cores) result }
{
    let loads = loads_of(&view.slots);
    for core in 0..view.cores {
        put_load(sink, &view.slots, &loads, core)?;
    }
    Ok(())
}

fn put_load<K: Sink>(
    sink: &mut K,
    slots: &[Stretch],
    loads: &[u32; 32],
    core: u32,
) -> Result<(), WriteFault>
    requires { (core : ℕ) → core < MAX_CORES → slice_index loads.now core ≡ load_of_core slots.now core }
    ensures { Writes (K.state sink.old) (K.state sink.new) (load_data slots.now core) result }
{
    let load = if core < MAX_CORES {
        loads[core as usize]
    } else {
        load_of(slots, core)
    };
    put_load_text(sink, core, load)
}

fn put_load_text<K: Sink>(sink: &mut K, core: u32, load: u32) -> Result<(), WriteFault>
    ensures { Writes (K.state sink.old) (K.state sink.new) (comma_before core ++ decimal (of_round load)) result }
{
    let part = of_round(load);
    put_comma(sink, core as usize)?;
    put_number(sink, part)
}
