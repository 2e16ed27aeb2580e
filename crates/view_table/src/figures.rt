ghost use Rattle.std.specs.Prelude.{◌≡◌, ℕ, ◌+◌, ◌*◌, ◌<◌, ◌≤◌, ◌||◌, false, IfOk, [], length, min, slice_index, slice_index_or};
ghost use Rattle.tab_core.specs.declared.TheConstants.{MAX_CORES, MAX_VCPUS, ROUND};
ghost use Rattle.view_table.specs.Figures.{AreFigures, AreGiven, AreStands};
ghost use Rattle.view_table.specs.Given.{figure_at, given_to, is_refused, ticks_for};
ghost use Rattle.view_table.specs.Loads.{stands_there};

use crate::diff::figure_of;
use crate::waits::waits_of;
use std::alloc::Global;
use tab_core::{MAX_CORES, NoMemory, ROUND};
use view_doc::{Stretch, Use, View};

/// What is worked out of a plan before its tables are written, for each of its `vcpu` lines.
#[derive(Drop)]
pub struct Figures {
    /// The longest wait of each vCPU, in ticks: the most ticks in a row without a slot, where the plan's
    /// round is repeated without an end. It is two rounds for a vCPU without a slot.
    pub waits: Vec<u32>,
    /// A tick of two rounds at which such a wait ends, for each vCPU.
    pub marks: Vec<u32>,
    /// A row for each vCPU, which says for each of 32 cores whether the vCPU has a slot there.
    pub stands: Vec<bool>,
    /// The ticks of the slots of each vCPU in a round, which are no more than a round has.
    pub given: Vec<u32>,
    /// The line by which `tableau check` refuses the plan's tables, beside their host and without its end; empty where it
    /// doesn't refuse them, or where there is no host.
    pub refusal: Vec<u8>,
}

// What the table has of the figures of one vCPU.
#[derive(Clone, Copy)]
pub(crate) struct Figure {
    // The ticks of its slots in a round.
    pub(crate) given: u32,
    // Its longest wait in ticks.
    pub(crate) wait: u32,
    // Whether the tables are refused, so that nothing is said of what they keep.
    pub(crate) is_refused: bool,
}

/// The figures of a plan of at most 256 `vcpu` lines, whose tables nobody refuses. Fails only when memory runs out, of
/// which it takes 48 bytes for each of these lines, a copy of the segments and what a sort of it takes. It goes from
/// segment to segment, which it puts in the order of their begins.
pub fn figures_of(alloc: Global, view: &View) -> Result<Figures, NoMemory>
    requires { length view.now.tasks.items ≤ MAX_VCPUS }
    ensures figures { IfOk result (AreFigures view.now) }
    ensures sound { IfOk result (λ figures. figures.refusal.items ≡ []) }
{
    refused_figures_of(alloc, view, Vec::new(alloc))
}

/// The figures of a plan as `figures_of` has them, whose tables are refused with this line, if it isn't empty.
pub fn refused_figures_of(alloc: Global, view: &View, refusal: Vec<u8>) -> Result<Figures, NoMemory>
    requires { length view.now.tasks.items ≤ MAX_VCPUS }
    ensures figures { IfOk result (AreFigures view.now) }
    ensures refusal { IfOk result (λ figures. figures.refusal.items ≡ refusal.items) }
{
    let count = view.tasks.len();
    let (waits, marks) = waits_of(alloc, &view.slots, count)?;
    Ok(Figures {
        waits,
        marks,
        stands: stands_of(alloc, &view.slots, count)?,
        given: given_of(alloc, &view.slots, count)?,
        refusal,
    })
}

// Whether the tables are refused.
pub(crate) fn is_refused(figures: &Figures) -> bool
    ensures { result ≡ is_refused figures.now.refusal.items }
{
    !figures.refusal.is_empty()
}

// What the table has of the figures of the vCPU of this number.
pub(crate) fn figure_at(view: &View, figures: &Figures, vcpu: usize) -> Figure
    requires figures { AreFigures view.now figures.now }
    requires low { vcpu < length view.now.tasks.items }
    ensures { result ≡ figure_at view.now.slots.items (is_refused figures.now.refusal.items) vcpu }
{
    Figure {
        given: given_at(view, figures, vcpu),
        wait: figure_of(view, figures, vcpu),
        is_refused: is_refused(figures),
    }
}

// The ticks of the vCPU's slots.
pub(crate) fn given_at(view: &View, figures: &Figures, vcpu: usize) -> u32
    requires figures { AreFigures view.now figures.now }
    requires low { vcpu < length view.now.tasks.items }
    ensures { result ≡ given_to view.now.slots.items vcpu }
{
    figures.given[vcpu]
}

// The ticks of the slots of each of so many vCPUs.
fn given_of(alloc: Global, slots: &[Stretch], count: usize) -> Result<Vec<u32>, NoMemory>
    ensures { IfOk result (λ given. AreGiven slots.now count given.items) }
{
    let mut given = vec![in alloc; 0u32; count]?;
    for slot in slots {
        add_slot(&mut given, slot);
    }
    Ok(given)
}

// Adds the ticks of a slot to those of its vCPU.
fn add_slot(given: &mut [u32], slot: &Stretch)
    requires few { (v : ℕ) → v < length given.old → slice_index given.old v ≤ ROUND }
    ensures size { length given.new ≡ length given.old }
    ensures each { (v : ℕ) → v < length given.old
        → slice_index given.new v ≡ min (slice_index given.old v + ticks_for v slot.now) ROUND }
{
    let Use::Slot(vcpu) = slot.by else {
        return;
    };
    let vcpu = vcpu.index();
    if vcpu >= given.len() {
        return;
    }
    let ticks = slot.end.saturating_sub(slot.from);
    given[vcpu] = given[vcpu].saturating_add(ticks).min(ROUND);
}

// A row of cores for each vCPU.
fn stands_of(alloc: Global, slots: &[Stretch], count: usize) -> Result<Vec<bool>, NoMemory>
    requires { count ≤ MAX_VCPUS }
    ensures { IfOk result (λ grid. AreStands slots.now count grid.items) }
{
    let mut grid = vec![in alloc; false; count * MAX_CORES as usize]?;
    for slot in slots {
        put_core(&mut grid, count, slot);
    }
    Ok(grid)
}

// Puts the core of a slot into the row of its vCPU.
fn put_core(grid: &mut [bool], count: usize, slot: &Stretch)
    requires few { count ≤ MAX_VCPUS }
    requires whole { length grid.old ≡ count * MAX_CORES }
    ensures { (v core : ℕ) → v < count → core < MAX_CORES
        → slice_index_or grid.new (v * MAX_CORES + core) false
        ≡ (slice_index_or grid.old (v * MAX_CORES + core) false || stands_there v core slot.now) }
{
    let Use::Slot(vcpu) = slot.by else {
        return;
    };
    if vcpu.index() >= count {
        return;
    }
    grid[vcpu.index() * MAX_CORES as usize + slot.core.index()] = true;
}
