ghost use Rattle.std.specs.Prelude.{◌<◌, ◌^◌, ◌≡◌, ◌*◌, ◌-◌, ℕ, slice_index};
ghost use Rattle.tab_core.specs.declared.TheConstants.{MAX_CORES, ROUND};
ghost use Rattle.view_cells.specs.Cells.{count_cell, millis_cell, width_below};
ghost use Rattle.view_cells.specs.CellTexts.{cell_text};
ghost use Rattle.view_table.specs.Loads.{is_slot, load_of_core, ticks_on};
ghost use Rattle.view_table.specs.Table.{asked_cell, asked_of, is_promise_kept, kept_cell, kept_word, of_round, promised_cell, task_share, wait_cell};
ghost use Rattle.vcpu_names.specs.Names.{name_at};

use crate::figures::Figure;
use tab_core::{Name, ROUND, Reservation, Vcpu, WHOLE_PPM};
use view_cells::{Cell, yes_or_no};
use view_doc::{Stretch, Task, Use};

// A cost in each period as parts per million of a core.
#[tactic(auto, using(crate::proofs::TableLemmas::small_share))]
pub(crate) fn share_of(task: &Task) -> u64
    ensures value { result ≡ task_share task.now }
    ensures small { result < 2 ^ 52 }
{
    if task.period == 0 {
        0
    } else {
        u64::from(task.cost) * u64::from(WHOLE_PPM) / u64::from(task.period)
    }
}

// Ticks as parts per million of a round.
#[tactic(auto, using(crate::proofs::TableLemmas::small_part))]
pub(crate) fn of_round(ticks: u32) -> u64
    ensures value { result ≡ of_round ticks }
    ensures small { result < 2 ^ 52 }
{
    u64::from(ticks) * u64::from(WHOLE_PPM) / u64::from(ROUND)
}

// What a load leaves of a round, likewise.
pub(crate) fn rest_of_round(load: u32) -> u64
    ensures { result ≡ of_round (ROUND - load) }
{
    of_round(ROUND.saturating_sub(load))
}

// What the host's vCPU of this name has reserved.
pub(crate) fn asked_of(vcpus: &[Vcpu], name: &[u8]) -> Option<Reservation>
    ensures { result ≡ asked_of vcpus.now name.now }
{
    for vcpu in vcpus {
        if vcpu.name.bytes() == name {
            return vcpu.reservation;
        }
    }
    None
}

// The load of each core, by one pass over the slots.
pub(crate) fn loads_of(slots: &[Stretch]) -> [u32; 32]
    ensures { (core : ℕ) → core < MAX_CORES → slice_index result core ≡ load_of_core slots.now core }
{
    let mut loads = [0u32; 32];
    for slot in slots {
        let core = slot.core.index();
        loads[core] = loads[core]
            .saturating_add(ticks_on(slot, slot.core.0))
            .min(ROUND);
    }
    loads
}

// The load of a core.
pub(crate) fn load_of(slots: &[Stretch], core: u32) -> u32
    ensures { result ≡ load_of_core slots.now core }
{
    let mut load = 0u32;
    for slot in slots {
        load = load.saturating_add(ticks_on(slot, core)).min(ROUND);
    }
    load
}

// The ticks of a segment that are a slot on this core.
fn ticks_on(slot: &Stretch, core: u32) -> u32
    ensures { result ≡ ticks_on core slot.now }
{
    if slot.core.0 == core && is_slot(&slot.by) {
        slot.end.saturating_sub(slot.from)
    } else {
        0
    }
}

fn is_slot(by: &Use) -> bool
    ensures { result ≡ is_slot by.now }
{
    matches!(by, Use::Slot(_))
}

// The width of the column of the first names.
pub(crate) fn width_of(names: &[Name], count: usize) -> usize
    ensures { result ≡ width_below names.now count }
{
    let mut width = 4;
    for vcpu in 0..count {
        width = width.max(name_at(names, vcpu).len());
    }
    width
}

// The name of a number, or nothing where there is none.
pub(crate) fn name_at(names: &[Name], vcpu: usize) -> &[u8]
    ensures { result.now ≡ name_at names.now vcpu }
{
    match names.get(vcpu) {
        Some(name) => name.bytes(),
        None => &[],
    }
}

// The number of a core.
pub(crate) fn core_cell(core: u32) -> Cell<'static>
    ensures { cell_text result ≡ count_cell 4 core }
{
    Cell::Count(4, u64::from(core))
}

// A period.
pub(crate) fn period_cell(tick_ns: u32, task: &Task) -> Cell<'static>
    ensures { cell_text result ≡ millis_cell 7 (task.now.period * tick_ns) }
{
    Cell::Millis(7, u64::from(task.period) * u64::from(tick_ns))
}

// A wait.
pub(crate) fn wait_cell(tick_ns: u32, wait: u32) -> Cell<'static>
    ensures { cell_text result ≡ wait_cell tick_ns wait }
{
    if wait < 2 * ROUND {
        Cell::Millis(7, u64::from(wait) * u64::from(tick_ns))
    } else {
        Cell::Right(11, b"endless")
    }
}

// The share that was asked for.
pub(crate) fn asked_cell(asked: &Option<Reservation>) -> Cell<'static>
    ensures { cell_text result ≡ asked_cell asked.now }
{
    match asked {
        Some(r) => Cell::Percent(5, u64::from(r.share_ppm)),
        None => Cell::Right(10, b"-"),
    }
}

// The latency that was promised.
pub(crate) fn promised_cell(asked: &Option<Reservation>) -> Cell<'static>
    ensures { cell_text result ≡ promised_cell asked.now }
{
    match asked {
        Some(r) => Cell::Millis(9, r.latency_ns),
        None => Cell::Right(13, b"-"),
    }
}

// Whether all was kept.
pub(crate) fn kept_cell(tick_ns: u32, asked: &Option<Reservation>, figure: Figure) -> Cell<'static>
    ensures { cell_text result ≡ kept_cell tick_ns asked.now figure }
{
    match asked {
        Some(r) => Cell::Right(
            6,
            kept_word(figure.is_refused, has_promise(tick_ns, r, figure)),
        ),
        None => Cell::Right(6, b"-"),
    }
}

// Whether all was kept in words, which is open where the tables are refused.
pub(crate) fn kept_word(is_refused: bool, is_kept: bool) -> &'static [u8]
    ensures { result.now ≡ kept_word is_refused is_kept }
{
    if is_refused { b"?" } else { yes_or_no(is_kept) }
}

// Whether the slots and the wait of a vCPU are as was promised.
pub(crate) fn has_promise(tick_ns: u32, r: &Reservation, figure: Figure) -> bool
    ensures { result ≡ is_promise_kept tick_ns r.now (of_round figure.given) figure.wait }
{
    is_kept(tick_ns, r, of_round(figure.given), figure.wait)
}

// Whether the share and the wait are as was promised.
pub(crate) fn is_kept(tick_ns: u32, r: &Reservation, share: u64, wait: u32) -> bool
    ensures { result ≡ is_promise_kept tick_ns r.now share wait }
{
    u64::from(r.share_ppm) <= share
        && wait < 2 * ROUND
        && u64::from(wait) * u64::from(tick_ns) <= r.latency_ns
}
