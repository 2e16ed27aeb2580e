ghost use Rattle.std.specs.Prelude.{◌≡◌, length};
ghost use Rattle.view_cells.specs.CellTexts.{cell_text};
ghost use Rattle.view_cells.specs.Cells.{width_below};
ghost use Rattle.vcpu_names.specs.Names.{names_of};
ghost use Rattle.view_judge.specs.Cells.{begin_cell, cpu_cell, judged_asked_cell, judged_promised_cell, kept_cell, late_cell, least_cell, longest_cell, number_cell, owed_cell, window_cell};

use host_judge::{LeastShare, LongestWait};
use tab_core::{Reservation, Vcpu};
use view_cells::{Cell, yes_or_no};

// The width of the column of names.
pub(crate) fn width_of(vcpus: &[Vcpu]) -> usize
    ensures { result ≡ width_below (names_of vcpus.now) (length vcpus.now) }
{
    let mut width = 4;
    for vcpu in vcpus {
        width = width.max(vcpu.name.bytes().len());
    }
    width
}

// The share that was asked for.
pub(crate) fn asked_cell(reserved: &Option<Reservation>) -> Cell<'static>
    ensures { cell_text result ≡ judged_asked_cell reserved.now }
{
    match reserved {
        Some(r) => Cell::Percent(3, u64::from(r.share_ppm)),
        None => Cell::Right(8, b"-"),
    }
}

// The share of a window that is owed.
pub(crate) fn owed_cell(owed_ppm: Option<u32>) -> Cell<'static>
    ensures { cell_text result ≡ owed_cell owed_ppm }
{
    match owed_ppm {
        Some(ppm) => Cell::Percent(3, u64::from(ppm)),
        None => Cell::Right(8, b"-"),
    }
}

// Whether a promise was kept, or that it wasn't judged.
pub(crate) fn kept_cell(kept: Option<bool>) -> Cell<'static>
    ensures { cell_text result ≡ kept_cell kept }
{
    match kept {
        Some(kept) => Cell::Right(10, yes_or_no(kept)),
        None => Cell::Right(10, b"not judged"),
    }
}

// The latency that was promised.
pub(crate) fn promised_cell(reserved: &Option<Reservation>) -> Cell<'static>
    ensures { cell_text result ≡ judged_promised_cell reserved.now }
{
    match reserved {
        Some(r) => Cell::Millis(7, r.latency_ns),
        None => Cell::Right(11, b"-"),
    }
}

// The least share of a window.
pub(crate) fn least_cell(least: &Option<LeastShare>) -> Cell<'static>
    ensures { cell_text result ≡ least_cell least.now }
{
    match least {
        Some(share) => Cell::Percent(3, u64::from(share.share_ppm)),
        None => Cell::Right(8, b"-"),
    }
}

// When that window begins.
pub(crate) fn window_cell(least: &Option<LeastShare>) -> Cell<'static>
    ensures { cell_text result ≡ window_cell least.now }
{
    match least {
        Some(share) => Cell::Millis(8, share.at_ns),
        None => Cell::Right(12, b"-"),
    }
}

// The longest wait.
pub(crate) fn longest_cell(longest: &Option<LongestWait>) -> Cell<'static>
    ensures { cell_text result ≡ longest_cell longest.now }
{
    match longest {
        Some(wait) => Cell::Millis(7, wait.ns),
        None => Cell::Right(11, b"-"),
    }
}

// When it begins.
pub(crate) fn begin_cell(longest: &Option<LongestWait>) -> Cell<'static>
    ensures { cell_text result ≡ begin_cell longest.now }
{
    match longest {
        Some(wait) => Cell::Millis(8, wait.at_ns),
        None => Cell::Right(12, b"-"),
    }
}

// The CPU that was named last by then.
pub(crate) fn cpu_cell(longest: &Option<LongestWait>) -> Cell<'static>
    ensures { cell_text result ≡ cpu_cell longest.now }
{
    match longest {
        Some(wait) => number_cell(&wait.cpu),
        None => Cell::Right(4, b"-"),
    }
}

// The number of a CPU.
fn number_cell(cpu: &Option<u32>) -> Cell<'static>
    ensures { cell_text result ≡ number_cell cpu.now }
{
    match cpu {
        Some(n) => Cell::Count(4, u64::from(*n)),
        None => Cell::Right(4, b"-"),
    }
}

// How many waits were too long.
pub(crate) fn late_cell(late: Option<u64>) -> Cell<'static>
    ensures { cell_text result ≡ late_cell late }
{
    match late {
        Some(n) => Cell::Count(5, n),
        None => Cell::Right(5, b"-"),
    }
}
