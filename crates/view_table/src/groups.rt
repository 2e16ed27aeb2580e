ghost use Rattle.std.specs.Prelude.{◌==◌, ◌&&◌, nat_lt, slice_index, ◌≡◌, ◌<◌, ◌≤◌, ◌^◌, None, Some, length, option_copied, slice_get};
ghost use Rattle.tab_core.specs.declared.TheConstants.{MAX_CORES, MAX_VCPUS};
ghost use Rattle.tab_io.specs.Sinks.{Writes};
ghost use Rattle.tab_words.specs.Texts.{texts_below};
ghost use Rattle.vcpu_names.specs.Names.{name_at};
ghost use Rattle.view_table.specs.Figures.{AreFigures};
ghost use Rattle.view_table.specs.Groups.{all_kept_cell, any_below, asked_at, asked_ppm, count_where, is_broken, is_broken_by, is_of_vm, least_in, least_latency_cell, lesser, most_in, named_vm_row, share_in, sum_cell, sum_in, vm_breaks, vm_core, vm_figures, vm_head, vm_of, vm_row, vm_stands};
ghost use Rattle.view_table.specs.Given.{is_refused};
ghost use Rattle.view_table.specs.Table.{given_share};
ghost use Rattle.view_table.specs.TableTexts.{vm_table_of, vm_table_text, width_in};
ghost use Rattle.view_cells.specs.CellTexts.{cell_text};
ghost use Rattle.view_table.specs.Waits.{wait_of};

use crate::diff::figure_of;
use crate::figures::{Figures, given_at, is_refused};
use crate::rows::{asked_of, is_kept, kept_word, name_at, of_round, share_of, wait_cell, width_of};
use crate::table::put_refusal;
use crate::totals::put_end;
use tab_core::{MAX_CORES, Name, Reservation, Vcpu};
use tab_io::{Sink, WriteFault, write_all};
use tab_words::put_numbered;
use view_cells::{Cell, put_cells, put_left};
use view_doc::View;

/// Writes the tables of a plan by virtual machine: a row for each VM, which is the part of its vCPUs'
/// names before the last dot, with how many vCPUs it has, their shares together, by the slots, the longest of their
/// waits, and the cores where one of them has slots; then a row for each core and the line of totals. Beside a
/// host a row has what the VM's admitted vCPUs have reserved too: their shares together and the least of their
/// latencies, and whether each has what it was promised, or dashes where none is admitted. Where `tableau check` refuses
/// the tables, its line is above all, and whether each has what it was promised is a question mark.
///
/// A fault leaves a prefix of the text in the sink. Nothing is settled, and nothing is allocated.
pub fn write_vm_table<K: Sink>(
    sink: &mut K,
    host: Option<&[Vcpu]>,
    view: &View,
    figures: &Figures,
    tick_ns: u32,
) -> Result<(), WriteFault>
    requires figures { AreFigures view.now figures.now }
    requires few { view.now.cores ≤ MAX_CORES }
    requires vcpus { length view.now.tasks.items ≤ MAX_VCPUS }
    ensures { Writes (K.state sink.old) (K.state sink.new)
        (vm_table_text (option_copied host.entry) figures.now.refusal.items tick_ns view.now) result }
{
    put_refusal(sink, &figures.refusal)?;
    put_wide_vm_table(sink, host, view, figures, tick_ns)
}

// Writes the tables, with names in a column of their width.
fn put_wide_vm_table<K: Sink>(
    sink: &mut K,
    host: Option<&[Vcpu]>,
    view: &View,
    figures: &Figures,
    tick_ns: u32,
) -> Result<(), WriteFault>
    requires figures { AreFigures view.now figures.now }
    requires few { view.now.cores ≤ MAX_CORES }
    requires vcpus { length view.now.tasks.items ≤ MAX_VCPUS }
    ensures { Writes (K.state sink.old) (K.state sink.new) (vm_table_of (option_copied host.entry)
        (is_refused figures.now.refusal.items) tick_ns (width_in view.now) view.now) result }
{
    let width = width_of(&view.names, view.tasks.len());
    put_vm_table(sink, host, view, figures, tick_ns, width)
}

fn put_vm_table<K: Sink>(
    sink: &mut K,
    host: Option<&[Vcpu]>,
    view: &View,
    figures: &Figures,
    tick_ns: u32,
    width: usize,
) -> Result<(), WriteFault>
    requires figures { AreFigures view.now figures.now }
    requires few { view.now.cores ≤ MAX_CORES }
    requires vcpus { length view.now.tasks.items ≤ MAX_VCPUS }
    ensures { Writes (K.state sink.old) (K.state sink.new)
        (vm_table_of (option_copied host.entry) (is_refused figures.now.refusal.items) tick_ns width view.now) result }
{
    put_left(sink, width, b"vm")?;
    put_vm_head(sink, &host)?;
    put_vms(sink, host, view, figures, tick_ns, width)?;
    put_end(sink, host, view, figures, tick_ns)
}

fn put_vm_head<K: Sink>(sink: &mut K, host: &Option<&[Vcpu]>) -> Result<(), WriteFault>
    ensures { Writes (K.state sink.old) (K.state sink.new) (vm_head (option_copied host.now)) result }
{
    match host {
        None => write_all(sink, b"  vcpus   share %    wait ms  cores\n"),
        Some(_) => write_all(
            sink,
            b"  vcpus   asked %   given %    wait ms  promised ms  kept  cores\n",
        ),
    }
}

// Writes the row of each VM.
fn put_vms<K: Sink>(
    sink: &mut K,
    host: Option<&[Vcpu]>,
    view: &View,
    figures: &Figures,
    tick_ns: u32,
    width: usize,
) -> Result<(), WriteFault>
    requires figures { AreFigures view.now figures.now }
    requires few { view.now.cores ≤ MAX_CORES }
    requires vcpus { length view.now.tasks.items ≤ MAX_VCPUS }
    ensures { Writes (K.state sink.old) (K.state sink.new)
        (texts_below (vm_row (option_copied host.entry) (is_refused figures.now.refusal.items) tick_ns width
        view.now.names.items view.now.tasks.items view.now.slots.items view.now.cores) (length view.now.tasks.items)) result }
{
    for vcpu in 0..view.tasks.len() {
        put_vm(sink, host, view, figures, tick_ns, width, vcpu)?;
    }
    Ok(())
}

// Writes the row of the VM whose first vCPU this is, and nothing for another.
fn put_vm<K: Sink>(
    sink: &mut K,
    host: Option<&[Vcpu]>,
    view: &View,
    figures: &Figures,
    tick_ns: u32,
    width: usize,
    vcpu: usize,
) -> Result<(), WriteFault>
    requires figures { AreFigures view.now figures.now }
    requires few { view.now.cores ≤ MAX_CORES }
    requires vcpus { length view.now.tasks.items ≤ MAX_VCPUS }
    ensures { Writes (K.state sink.old) (K.state sink.new)
        (vm_row (option_copied host.entry) (is_refused figures.now.refusal.items) tick_ns width view.now.names.items
        view.now.tasks.items view.now.slots.items view.now.cores vcpu) result }
{
    let vm = vm_at(&view.names, vcpu);
    if has_vm(view, vm, vcpu) {
        return Ok(());
    }
    put_vm_line(sink, host, view, figures, tick_ns, width, vm)
}

fn put_vm_line<K: Sink>(
    sink: &mut K,
    host: Option<&[Vcpu]>,
    view: &View,
    figures: &Figures,
    tick_ns: u32,
    width: usize,
    vm: &[u8],
) -> Result<(), WriteFault>
    requires figures { AreFigures view.now figures.now }
    requires few { view.now.cores ≤ MAX_CORES }
    requires vcpus { length view.now.tasks.items ≤ MAX_VCPUS }
    ensures { Writes (K.state sink.old) (K.state sink.new)
        (named_vm_row (option_copied host.entry) (is_refused figures.now.refusal.items) tick_ns width
        view.now.names.items view.now.tasks.items view.now.slots.items view.now.cores vm.now) result }
{
    put_figures(sink, host, view, figures, tick_ns, width, vm)?;
    put_vm_cores(sink, view, figures, vm)?;
    write_all(sink, b"\n")
}

// Writes the cells of a VM's row up to the cores.
fn put_figures<K: Sink>(
    sink: &mut K,
    host: Option<&[Vcpu]>,
    view: &View,
    figures: &Figures,
    tick_ns: u32,
    width: usize,
    vm: &[u8],
) -> Result<(), WriteFault>
    requires figures { AreFigures view.now figures.now }
    requires vcpus { length view.now.tasks.items ≤ MAX_VCPUS }
    ensures { Writes (K.state sink.old) (K.state sink.new)
        (vm_figures (option_copied host.entry) (is_refused figures.now.refusal.items) tick_ns width
        view.now.names.items (length view.now.tasks.items) view.now.slots.items vm.now) result }
{
    match host {
        None => put_plain_vm(sink, view, figures, tick_ns, width, vm),
        Some(vcpus) => put_asked_vm(sink, vcpus, view, figures, tick_ns, width, vm),
    }
}

fn put_plain_vm<K: Sink>(
    sink: &mut K,
    view: &View,
    figures: &Figures,
    tick_ns: u32,
    width: usize,
    vm: &[u8],
) -> Result<(), WriteFault>
    requires figures { AreFigures view.now figures.now }
    requires vcpus { length view.now.tasks.items ≤ MAX_VCPUS }
    ensures { Writes (K.state sink.old) (K.state sink.new)
        (vm_figures None (is_refused figures.now.refusal.items) tick_ns width view.now.names.items
        (length view.now.tasks.items) view.now.slots.items vm.now) result }
{
    let count = count_in(view, vm);
    let share = given_in(view, figures, vm);
    let wait = wait_in(view, figures, vm);
    put_cells(
        sink,
        &[
            Cell::Left(width, vm),
            Cell::Count(7, count),
            Cell::Percent(5, share),
            wait_cell(tick_ns, wait),
            Cell::Text(b" "),
        ],
    )
}

fn put_asked_vm<K: Sink>(
    sink: &mut K,
    vcpus: &[Vcpu],
    view: &View,
    figures: &Figures,
    tick_ns: u32,
    width: usize,
    vm: &[u8],
) -> Result<(), WriteFault>
    requires figures { AreFigures view.now figures.now }
    requires vcpus { length view.now.tasks.items ≤ MAX_VCPUS }
    ensures { Writes (K.state sink.old) (K.state sink.new)
        (vm_figures (Some vcpus.now) (is_refused figures.now.refusal.items) tick_ns width view.now.names.items
        (length view.now.tasks.items) view.now.slots.items vm.now) result }
{
    let count = count_in(view, vm);
    let asked = asked_in(view, vcpus, vm);
    let share = given_in(view, figures, vm);
    let wait = wait_in(view, figures, vm);
    let promised = least_in(view, vcpus, vm);
    let breaks = breaks_in(view, vcpus, figures, tick_ns, vm);
    put_cells(
        sink,
        &[
            Cell::Left(width, vm),
            Cell::Count(7, count),
            sum_cell(promised, asked),
            Cell::Percent(5, share),
            wait_cell(tick_ns, wait),
            least_cell(promised),
            all_kept_cell(promised, is_refused(figures), breaks),
            Cell::Text(b" "),
        ],
    )
}

// The shares that were asked for together.
fn sum_cell(promised: Option<u64>, share: u64) -> Cell<'static>
    ensures { cell_text result ≡ sum_cell promised share }
{
    match promised {
        Some(_) => Cell::Percent(5, share),
        None => Cell::Right(10, b"-"),
    }
}

// The least latency that was promised.
fn least_cell(promised: Option<u64>) -> Cell<'static>
    ensures { cell_text result ≡ least_latency_cell promised }
{
    match promised {
        Some(ns) => Cell::Millis(9, ns),
        None => Cell::Right(13, b"-"),
    }
}

// Whether each vCPU has what it was promised.
fn all_kept_cell(promised: Option<u64>, is_refused: bool, breaks: bool) -> Cell<'static>
    ensures { cell_text result ≡ all_kept_cell promised is_refused breaks }
{
    match promised {
        Some(_) => Cell::Right(6, kept_word(is_refused, !breaks)),
        None => Cell::Right(6, b"-"),
    }
}

// The part of a name before the last dot, or all of it.
fn vm_of(name: &[u8]) -> &[u8]
    ensures { result.now ≡ vm_of name.now }
{
    let mut end = name.len();
    for k in 0..name.len() {
        if is_last_part(name, k) {
            end = k;
        }
    }
    &name[..end]
}

// Whether a name's last part may begin after this byte.
fn is_last_part(name: &[u8], k: usize) -> bool
    requires { k < length name.now }
    ensures { result ≡ ((slice_index name.now k == 46) && nat_lt 0 k) }
{
    name[k] == b'.' && 0 < k
}

pub(crate) fn vm_at(names: &[Name], vcpu: usize) -> &[u8]
    ensures { result.now ≡ vm_of (name_at names.now vcpu) }
{
    vm_of(name_at(names, vcpu))
}

pub(crate) fn is_of(view: &View, vm: &[u8], vcpu: usize) -> bool
    ensures { result ≡ is_of_vm view.now.names.items vm.now vcpu }
{
    vm_at(&view.names, vcpu) == vm
}

// Whether a vCPU below the number is of the VM.
pub(crate) fn has_vm(view: &View, vm: &[u8], count: usize) -> bool
    ensures { result ≡ any_below (is_of_vm view.now.names.items vm.now) count }
{
    let mut found = false;
    for vcpu in 0..count {
        if is_of(view, vm, vcpu) {
            found = true;
        }
    }
    found
}

// How many vCPUs the VM has.
pub(crate) fn count_in(view: &View, vm: &[u8]) -> u64
    requires { length view.now.tasks.items ≤ MAX_VCPUS }
    ensures { result ≡ count_where (is_of_vm view.now.names.items vm.now) (length view.now.tasks.items) }
{
    let mut count = 0;
    for vcpu in 0..view.tasks.len() {
        if is_of(view, vm, vcpu) {
            count += 1;
        }
    }
    count
}

// The shares of the VM's vCPUs together.
pub(crate) fn share_in(view: &View, vm: &[u8]) -> u64
    requires { length view.now.tasks.items ≤ MAX_VCPUS }
    ensures { result ≡ sum_in (λ v. share_in (slice_get view.now.tasks.items v)) view.now.names.items vm.now
        (length view.now.tasks.items) }
{
    let mut share = 0;
    for vcpu in 0..view.tasks.len() {
        if is_of(view, vm, vcpu) {
            share += share_at(view, vcpu);
        }
    }
    share
}

// What the slots of the VM's vCPUs give them of a core together.
fn given_in(view: &View, figures: &Figures, vm: &[u8]) -> u64
    requires figures { AreFigures view.now figures.now }
    requires vcpus { length view.now.tasks.items ≤ MAX_VCPUS }
    ensures { result ≡ sum_in (given_share view.now.slots.items) view.now.names.items vm.now
        (length view.now.tasks.items) }
{
    let mut share = 0;
    for vcpu in 0..view.tasks.len() {
        if is_of(view, vm, vcpu) {
            share += given_share(view, figures, vcpu);
        }
    }
    share
}

// What the slots give a vCPU of a core.
pub(crate) fn given_share(view: &View, figures: &Figures, vcpu: usize) -> u64
    requires figures { AreFigures view.now figures.now }
    requires low { vcpu < length view.now.tasks.items }
    ensures value { result ≡ given_share view.now.slots.items vcpu }
    ensures small { result < 2 ^ 52 }
{
    of_round(given_at(view, figures, vcpu))
}

pub(crate) fn share_at(view: &View, vcpu: usize) -> u64
    requires { vcpu < length view.now.tasks.items }
    ensures value { result ≡ share_in (slice_get view.now.tasks.items vcpu) }
    ensures small { result < 2 ^ 52 }
{
    share_of(&view.tasks[vcpu])
}

// The shares that the VM's vCPUs asked for together.
fn asked_in(view: &View, vcpus: &[Vcpu], vm: &[u8]) -> u64
    requires { length view.now.tasks.items ≤ MAX_VCPUS }
    ensures { result ≡ sum_in (λ v. asked_ppm (asked_at vcpus.now view.now.names.items v)) view.now.names.items
        vm.now (length view.now.tasks.items) }
{
    let mut share = 0;
    for vcpu in 0..view.tasks.len() {
        if is_of(view, vm, vcpu) {
            share += ppm_at(view, vcpus, vcpu);
        }
    }
    share
}

pub(crate) fn ppm_at(view: &View, vcpus: &[Vcpu], vcpu: usize) -> u64
    ensures value { result ≡ asked_ppm (asked_at vcpus.now view.now.names.items vcpu) }
    ensures small { result < 2 ^ 32 }
{
    match asked_at(view, vcpus, vcpu) {
        Some(r) => u64::from(r.share_ppm),
        None => 0,
    }
}

pub(crate) fn asked_at(view: &View, vcpus: &[Vcpu], vcpu: usize) -> Option<Reservation>
    ensures { result ≡ asked_at vcpus.now view.now.names.items vcpu }
{
    asked_of(vcpus, name_at(&view.names, vcpu))
}

// The least latency that was promised to one of the VM's vCPUs, if any was.
fn least_in(view: &View, vcpus: &[Vcpu], vm: &[u8]) -> Option<u64>
    ensures { result ≡ least_in vcpus.now view.now.names.items vm.now (length view.now.tasks.items) }
{
    let mut least = None;
    for vcpu in 0..view.tasks.len() {
        if is_of(view, vm, vcpu) {
            least = lesser(least, &asked_at(view, vcpus, vcpu));
        }
    }
    least
}

fn lesser(least: Option<u64>, asked: &Option<Reservation>) -> Option<u64>
    ensures { result ≡ lesser least asked.now }
{
    match (least, asked) {
        (_, None) => least,
        (None, Some(r)) => Some(r.latency_ns),
        (Some(ns), Some(r)) => Some(ns.min(r.latency_ns)),
    }
}

// The longest of the VM's vCPUs' waits.
pub(crate) fn wait_in(view: &View, figures: &Figures, vm: &[u8]) -> u32
    requires { AreFigures view.now figures.now }
    ensures { result ≡ most_in (wait_of view.now.slots.items) view.now.names.items vm.now
        (length view.now.tasks.items) }
{
    let mut wait = 0u32;
    for vcpu in 0..view.tasks.len() {
        if is_of(view, vm, vcpu) {
            wait = wait.max(figure_of(view, figures, vcpu));
        }
    }
    wait
}

// Whether one of the VM's vCPUs hasn't what it was promised.
fn breaks_in(view: &View, vcpus: &[Vcpu], figures: &Figures, tick_ns: u32, vm: &[u8]) -> bool
    requires { AreFigures view.now figures.now }
    ensures { result ≡ any_below (vm_breaks tick_ns vcpus.now view.now.names.items vm.now view.now.slots.items)
        (length view.now.tasks.items) }
{
    let mut found = false;
    for vcpu in 0..view.tasks.len() {
        if breaks_there(view, vcpus, figures, tick_ns, vm, vcpu) {
            found = true;
        }
    }
    found
}

fn breaks_there(
    view: &View,
    vcpus: &[Vcpu],
    figures: &Figures,
    tick_ns: u32,
    vm: &[u8],
    vcpu: usize,
) -> bool
    requires figures { AreFigures view.now figures.now }
    requires low { vcpu < length view.now.tasks.items }
    ensures { result ≡ vm_breaks tick_ns vcpus.now view.now.names.items vm.now view.now.slots.items vcpu }
{
    is_broken(view, vcpus, figures, tick_ns, vcpu) && is_of(view, vm, vcpu)
}

// Whether the vCPU hasn't what it was promised, if anything was.
pub(crate) fn is_broken(
    view: &View,
    vcpus: &[Vcpu],
    figures: &Figures,
    tick_ns: u32,
    vcpu: usize,
) -> bool
    requires figures { AreFigures view.now figures.now }
    requires low { vcpu < length view.now.tasks.items }
    ensures { result ≡ is_broken tick_ns vcpus.now view.now.names.items view.now.slots.items vcpu }
{
    let asked = asked_at(view, vcpus, vcpu);
    let share = given_share(view, figures, vcpu);
    let wait = figure_of(view, figures, vcpu);
    is_broken_by(tick_ns, &asked, share, wait)
}

fn is_broken_by(tick_ns: u32, asked: &Option<Reservation>, share: u64, wait: u32) -> bool
    ensures { result ≡ is_broken_by tick_ns asked.now share wait }
{
    match asked {
        Some(r) => !is_kept(tick_ns, r, share, wait),
        None => false,
    }
}

// Writes the cores where some vCPU of the VM has a slot.
fn put_vm_cores<K: Sink>(
    sink: &mut K,
    view: &View,
    figures: &Figures,
    vm: &[u8],
) -> Result<(), WriteFault>
    requires figures { AreFigures view.now figures.now }
    requires few { view.now.cores ≤ MAX_CORES }
    ensures { Writes (K.state sink.old) (K.state sink.new)
        (texts_below (vm_core view.now.names.items vm.now view.now.slots.items (length view.now.tasks.items))
        view.now.cores) result }
{
    for core in 0..view.cores {
        put_vm_core(sink, view, figures, vm, core)?;
    }
    Ok(())
}

fn put_vm_core<K: Sink>(
    sink: &mut K,
    view: &View,
    figures: &Figures,
    vm: &[u8],
    core: u32,
) -> Result<(), WriteFault>
    requires figures { AreFigures view.now figures.now }
    requires few { core < MAX_CORES }
    ensures { Writes (K.state sink.old) (K.state sink.new)
        (vm_core view.now.names.items vm.now view.now.slots.items (length view.now.tasks.items) core) result }
{
    if stands_in(view, figures, vm, core) {
        put_numbered(sink, b" ", core, b"")
    } else {
        Ok(())
    }
}

fn stands_in(view: &View, figures: &Figures, vm: &[u8], core: u32) -> bool
    requires figures { AreFigures view.now figures.now }
    requires few { core < MAX_CORES }
    ensures { result ≡ any_below (vm_stands view.now.names.items vm.now view.now.slots.items core)
        (length view.now.tasks.items) }
{
    let mut found = false;
    for vcpu in 0..view.tasks.len() {
        if stands_there(view, figures, vm, core, vcpu) {
            found = true;
        }
    }
    found
}

fn stands_there(view: &View, figures: &Figures, vm: &[u8], core: u32, vcpu: usize) -> bool
    requires figures { AreFigures view.now figures.now }
    requires few { core < MAX_CORES }
    requires low { vcpu < length view.now.tasks.items }
    ensures { result ≡ vm_stands view.now.names.items vm.now view.now.slots.items core vcpu }
{
    figures.stands[vcpu * MAX_CORES as usize + core as usize] && is_of(view, vm, vcpu)
}
