ghost use Rattle.std.specs.Prelude.{◌≡◌, ◌*◌, ◌<◌, ◌≤◌, ◌^◌, ◌++◌, flat_map, length};
ghost use Rattle.tab_core.specs.declared.TheConstants.{MAX_CORES, ROUND};
ghost use Rattle.tab_io.specs.Sinks.{Writes};
ghost use Rattle.tab_words.specs.Texts.{texts_below};
ghost use Rattle.view_cells.specs.CellTexts.{cell_text};
ghost use Rattle.size_fit.specs.FitText.{fit_core_row, fit_host_row, fit_text, head_line, load_cells, loads_text, ppm_of, refusal_line, rooms_text, size_row, split_line, total_load};

use crate::fit::{Fit, Room};
use plan_make::{PlanFault, put_no_period, put_no_room};
use tab_core::{ROUND, Vcpu, WHOLE_PPM};
use tab_io::{Sink, WriteFault, write_all};
use tab_words::{TextPiece, put_pieces};
use vcpu_names::name_in;
use view_cells::{Cell, put_cells};

/// Writes how the VMs of a host of so many vCPUs and cores fit it.
///
/// A line says how many vCPUs and cores there are, and how many vCPUs are split. A row for each core has its load and what is left, of a round, and
/// a row has both of all cores together. A row for each size has how many of its VMs there are, and how many more fit.
/// Loads are in percent with four digits, rounded down.
///
/// A fault leaves a prefix of the text in the sink. Nothing is settled, and nothing is allocated.
pub fn write_fit<K: Sink>(
    sink: &mut K,
    vcpus: u32,
    cores: u32,
    fit: &Fit<'_>,
) -> Result<(), WriteFault>
    requires few { length fit.now.loads.items ≤ MAX_CORES }
    requires some { 1 ≤ length fit.now.loads.items }
    ensures { Writes (K.state sink.old) (K.state sink.new)
        (fit_text vcpus cores (length fit.now.split.items) fit.now.loads.items fit.now.rooms.items) result }
{
    put_all(
        sink,
        vcpus,
        cores,
        fit.split.len() as u64,
        &fit.loads,
        &fit.rooms,
    )
}

fn put_all<K: Sink>(
    sink: &mut K,
    vcpus: u32,
    cores: u32,
    split: u64,
    loads: &[u32],
    rooms: &[Room<'_>],
) -> Result<(), WriteFault>
    requires few { length loads.now ≤ MAX_CORES }
    requires some { 1 ≤ length loads.now }
    ensures { Writes (K.state sink.old) (K.state sink.new) (fit_text vcpus cores split loads.now rooms.now) result }
{
    put_head(sink, vcpus, cores, split)?;
    put_loads(sink, loads)?;
    put_rooms(sink, rooms)
}

/// Writes the line of a refusal of a host with these vCPUs. It is the planner's.
///
/// A fault leaves a prefix of it in the sink. Nothing is settled, and nothing is allocated.
pub fn write_refusal<K: Sink>(
    sink: &mut K,
    vcpus: &[Vcpu],
    fault: &PlanFault,
) -> Result<(), WriteFault>
    ensures { Writes (K.state sink.old) (K.state sink.new) (refusal_line vcpus.now fault.now) result }
{
    match fault {
        PlanFault::NoPeriod { vcpu } => put_no_period(sink, name_in(vcpus, vcpu)),
        PlanFault::NoRoom { vcpu, rest, over } => {
            put_no_room(sink, name_in(vcpus, vcpu), *rest, over.items())
        }
        PlanFault::NoMemory => Ok(()),
    }
}

/// Writes the line of a refusal of a host whose vCPU of this name would be split, where none may be.
///
/// A fault leaves a prefix of it in the sink. Nothing is settled, and nothing is allocated.
#[tactic(auto, unfolding(crate::specs::FitText::split_line))]
pub fn write_split<K: Sink>(sink: &mut K, name: &[u8]) -> Result<(), WriteFault>
    ensures { Writes (K.state sink.old) (K.state sink.new) (split_line name.now) result }
{
    put_pieces(
        sink,
        &[
            TextPiece::Text(b"refused: no core has room for all of "),
            TextPiece::Text(name),
            TextPiece::Text(b"\n"),
        ],
    )
}

#[tactic(auto, unfolding(crate::specs::FitText::head_line))]
fn put_head<K: Sink>(sink: &mut K, vcpus: u32, cores: u32, split: u64) -> Result<(), WriteFault>
    ensures { Writes (K.state sink.old) (K.state sink.new) (head_line vcpus cores split) result }
{
    put_pieces(
        sink,
        &[
            TextPiece::Text(b"fits: vCPUs "),
            TextPiece::Number(vcpus),
            TextPiece::Text(b", cores "),
            TextPiece::Number(cores),
            TextPiece::Text(b", split "),
            TextPiece::Wide(split),
            TextPiece::Text(b"\n"),
        ],
    )
}

// Writes the table of loads.
fn put_loads<K: Sink>(sink: &mut K, loads: &[u32]) -> Result<(), WriteFault>
    requires few { length loads.now ≤ MAX_CORES }
    requires some { 1 ≤ length loads.now }
    ensures { Writes (K.state sink.old) (K.state sink.new) (loads_text loads.now) result }
{
    write_all(sink, b"\ncore    load %  headroom %\n")?;
    put_cores(sink, loads)?;
    put_host(sink, loads)
}

// Writes the row of each core.
fn put_cores<K: Sink>(sink: &mut K, loads: &[u32]) -> Result<(), WriteFault>
    requires { length loads.now ≤ MAX_CORES }
    ensures { Writes (K.state sink.old) (K.state sink.new) (texts_below (fit_core_row loads.now) (length loads.now)) result }
{
    for core in 0..loads.len() {
        put_core(sink, loads, core)?;
    }
    Ok(())
}

// Writes the row of a core.
fn put_core<K: Sink>(sink: &mut K, loads: &[u32], core: usize) -> Result<(), WriteFault>
    requires { core < length loads.now }
    ensures { Writes (K.state sink.old) (K.state sink.new) (fit_core_row loads.now core) result }
{
    put_load(
        sink,
        &Cell::Count(4, core as u64),
        u64::from(loads[core]),
        u64::from(ROUND),
    )
}

// Writes the row of all cores.
fn put_host<K: Sink>(sink: &mut K, loads: &[u32]) -> Result<(), WriteFault>
    requires few { length loads.now ≤ MAX_CORES }
    requires some { 1 ≤ length loads.now }
    ensures { Writes (K.state sink.old) (K.state sink.new) (fit_host_row loads.now) result }
{
    let ticks = loads.len() as u64 * u64::from(ROUND);
    put_load(sink, &Cell::Text(b"host"), total_of(loads), ticks)
}

// The load of all cores together.
fn total_of(loads: &[u32]) -> u64
    requires { length loads.now ≤ MAX_CORES }
    ensures total { result ≡ total_load loads.now }
    ensures small { result < 2 ^ 40 }
{
    let mut total = 0;
    for load in loads {
        total += u64::from(*load);
    }
    total
}

// Writes the row of a load and what is left, of so many ticks. Its first cell says whose they are.
#[tactic(auto, unfolding(crate::specs::FitText::load_cells))]
fn put_load<K: Sink>(
    sink: &mut K,
    first: &Cell<'_>,
    load: u64,
    ticks: u64,
) -> Result<(), WriteFault>
    requires small { load < 2 ^ 40 }
    requires few { ticks < 2 ^ 40 }
    requires some { 1 ≤ ticks }
    ensures { Writes (K.state sink.old) (K.state sink.new) (cell_text first.now ++ load_cells load ticks) result }
{
    put_cells(
        sink,
        &[
            *first,
            Cell::Percent(5, ppm_of(load, ticks)),
            Cell::Percent(7, ppm_of(ticks.saturating_sub(load), ticks)),
            Cell::Text(b"\n"),
        ],
    )
}

// A part of a whole, in parts per million.
fn ppm_of(part: u64, whole: u64) -> u64
    requires small { part < 2 ^ 40 }
    requires some { 1 ≤ whole }
    ensures { result ≡ ppm_of part whole }
{
    part * u64::from(WHOLE_PPM) / whole
}

// Writes the table of sizes.
fn put_rooms<K: Sink>(sink: &mut K, rooms: &[Room<'_>]) -> Result<(), WriteFault>
    ensures { Writes (K.state sink.old) (K.state sink.new) (rooms_text rooms.now) result }
{
    write_all(sink, b"\n VMs  more  size\n")?;
    put_sizes(sink, rooms)
}

// Writes the row of each size.
fn put_sizes<K: Sink>(sink: &mut K, rooms: &[Room<'_>]) -> Result<(), WriteFault>
    ensures { Writes (K.state sink.old) (K.state sink.new) (flat_map size_row rooms.now) result }
{
    for room in rooms {
        put_size(sink, room)?;
    }
    Ok(())
}

// Writes the row of a size.
#[tactic(auto, unfolding(crate::specs::FitText::size_row))]
fn put_size<K: Sink>(sink: &mut K, room: &Room<'_>) -> Result<(), WriteFault>
    ensures { Writes (K.state sink.old) (K.state sink.new) (size_row room.now) result }
{
    put_cells(
        sink,
        &[
            Cell::Count(4, u64::from(room.size.machines)),
            Cell::Count(6, u64::from(room.more)),
            Cell::Text(b"  "),
            Cell::Text(room.size.name),
            Cell::Text(b"\n"),
        ],
    )
}
