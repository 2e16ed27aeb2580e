ghost use Rattle.std.specs.Prelude.{◌≡◌, ◌≤◌, length};
ghost use Rattle.tab_core.specs.declared.TheConstants.{MAX_VCPUS};
ghost use Rattle.tab_io.specs.Sinks.{Writes};
ghost use Rattle.tab_words.specs.Texts.{texts_below};
ghost use Rattle.view_table.specs.Figures.{AreFigures};
ghost use Rattle.view_table.specs.VmDiff.{moves_change, moves_line, new_vm, new_vm_lines, old_vm, old_vm_lines, vcpus_change, vm_both, vm_diff_text, vm_moves};

use crate::diff::{
    put_change, put_count_change, put_loads, put_lone, put_share, put_slots, put_wait,
};
use crate::figures::Figures;
use crate::groups::{count_in, has_vm, share_in, vm_at, wait_in};
use crate::sums::{Matter, changes_there, is_first};
use tab_io::{Sink, WriteFault};
use view_cells::{Cell, put_cells};
use view_doc::View;

/// Writes what differs between two plans by virtual machine, whose figures these are, for a tick of so many
/// nanoseconds. The VM of a vCPU is its name's part before the last dot. There is a line for each VM that is gone or
/// new, and of a VM of both plans one where it has another count of vCPUs, for how many of its old vCPUs have another
/// home, and where their shares together or the longest of their waits is another. Lines of cores and slots are as
/// those of `write_diff`.
///
/// A fault leaves a prefix of the text in the sink. Nothing is settled, and nothing is allocated.
pub fn write_vm_diff<K: Sink>(
    sink: &mut K,
    old: &View,
    old_figures: &Figures,
    new: &View,
    new_figures: &Figures,
    tick_ns: u32,
) -> Result<(), WriteFault>
    requires old { AreFigures old.now old_figures.now }
    requires new { AreFigures new.now new_figures.now }
    requires few { length old.now.tasks.items ≤ MAX_VCPUS }
    requires few_new { length new.now.tasks.items ≤ MAX_VCPUS }
    ensures { Writes (K.state sink.old) (K.state sink.new) (vm_diff_text tick_ns old.now new.now) result }
{
    put_count_change(sink, old.cores, new.cores)?;
    put_old_vms(sink, old, old_figures, new, new_figures, tick_ns)?;
    put_new_vms(sink, old, new)?;
    put_loads(sink, old, new)?;
    put_slots(sink, old, new)
}

// Writes the lines of each VM of the old plan.
fn put_old_vms<K: Sink>(
    sink: &mut K,
    old: &View,
    old_figures: &Figures,
    new: &View,
    new_figures: &Figures,
    tick_ns: u32,
) -> Result<(), WriteFault>
    requires old { AreFigures old.now old_figures.now }
    requires new { AreFigures new.now new_figures.now }
    requires few { length old.now.tasks.items ≤ MAX_VCPUS }
    requires few_new { length new.now.tasks.items ≤ MAX_VCPUS }
    ensures { Writes (K.state sink.old) (K.state sink.new)
        (texts_below (old_vm_lines tick_ns old.now new.now) (length old.now.tasks.items)) result }
{
    for vcpu in 0..old.tasks.len() {
        put_first(sink, old, old_figures, new, new_figures, tick_ns, vcpu)?;
    }
    Ok(())
}

// Writes the lines of the VM whose first vCPU this is, and nothing for another.
fn put_first<K: Sink>(
    sink: &mut K,
    old: &View,
    old_figures: &Figures,
    new: &View,
    new_figures: &Figures,
    tick_ns: u32,
    vcpu: usize,
) -> Result<(), WriteFault>
    requires old { AreFigures old.now old_figures.now }
    requires new { AreFigures new.now new_figures.now }
    requires few { length old.now.tasks.items ≤ MAX_VCPUS }
    requires few_new { length new.now.tasks.items ≤ MAX_VCPUS }
    ensures { Writes (K.state sink.old) (K.state sink.new) (old_vm_lines tick_ns old.now new.now vcpu) result }
{
    if is_first(old, vcpu) {
        let vm = vm_at(&old.names, vcpu);
        put_old_vm(sink, old, old_figures, new, new_figures, tick_ns, vm)
    } else {
        Ok(())
    }
}

fn put_old_vm<K: Sink>(
    sink: &mut K,
    old: &View,
    old_figures: &Figures,
    new: &View,
    new_figures: &Figures,
    tick_ns: u32,
    vm: &[u8],
) -> Result<(), WriteFault>
    requires old { AreFigures old.now old_figures.now }
    requires new { AreFigures new.now new_figures.now }
    requires few { length old.now.tasks.items ≤ MAX_VCPUS }
    requires few_new { length new.now.tasks.items ≤ MAX_VCPUS }
    ensures { Writes (K.state sink.old) (K.state sink.new) (old_vm tick_ns old.now new.now vm.now) result }
{
    let count = new.tasks.len();
    if has_vm(new, vm, count) {
        put_both(sink, old, old_figures, new, new_figures, tick_ns, vm)
    } else {
        put_lone(sink, b"vm ", vm, b" gone\n")
    }
}

// Writes what changed of a VM that both plans have.
fn put_both<K: Sink>(
    sink: &mut K,
    old: &View,
    old_figures: &Figures,
    new: &View,
    new_figures: &Figures,
    tick_ns: u32,
    vm: &[u8],
) -> Result<(), WriteFault>
    requires old { AreFigures old.now old_figures.now }
    requires new { AreFigures new.now new_figures.now }
    requires few { length old.now.tasks.items ≤ MAX_VCPUS }
    requires few_new { length new.now.tasks.items ≤ MAX_VCPUS }
    ensures { Writes (K.state sink.old) (K.state sink.new) (vm_both tick_ns old.now new.now vm.now) result }
{
    let count = count_in(old, vm);
    let now_count = count_in(new, vm);
    let moves = moves_in(old, old_figures, new, new_figures, vm);
    let share = share_in(old, vm);
    let now_share = share_in(new, vm);
    let wait = wait_in(old, old_figures, vm);
    let now_wait = wait_in(new, new_figures, vm);
    put_vcpus(sink, vm, count, now_count)?;
    put_moves(sink, vm, moves, count)?;
    put_share(sink, b"vm ", vm, share, now_share)?;
    put_wait(sink, b"vm ", tick_ns, vm, wait, now_wait)
}

// Writes that a VM has another count of vCPUs.
fn put_vcpus<K: Sink>(sink: &mut K, vm: &[u8], before: u64, now: u64) -> Result<(), WriteFault>
    ensures { Writes (K.state sink.old) (K.state sink.new) (vcpus_change vm.now before now) result }
{
    if before == now {
        return Ok(());
    }
    put_change(
        sink,
        b"vm ",
        vm,
        b" vcpus ",
        &Cell::Count(0, before),
        &Cell::Count(0, now),
        b"\n",
    )
}

// Writes how many of a VM's vCPUs have another home, if one has.
fn put_moves<K: Sink>(sink: &mut K, vm: &[u8], moves: u64, count: u64) -> Result<(), WriteFault>
    ensures { Writes (K.state sink.old) (K.state sink.new) (moves_change vm.now moves count) result }
{
    if moves == 0 {
        return Ok(());
    }
    put_moves_line(sink, vm, moves, count)
}

#[tactic(auto, unfolding(crate::specs::VmDiff::moves_line))]
fn put_moves_line<'a, K: Sink>(
    sink: &mut K,
    vm: &'a [u8],
    moves: u64,
    count: u64,
) -> Result<(), WriteFault>
    ensures { Writes (K.state sink.old) (K.state sink.new) (moves_line vm.now moves count) result }
{
    put_cells(
        sink,
        &[
            Cell::Text(b"vm "),
            Cell::Text(vm),
            Cell::Text(b" other homes "),
            Cell::Count(0, moves),
            Cell::Text(b" of "),
            Cell::Count(0, count),
            Cell::Text(b"\n"),
        ],
    )
}

// How many of a VM's vCPUs of the old plan have another home.
fn moves_in(old: &View, old_figures: &Figures, new: &View, new_figures: &Figures, vm: &[u8]) -> u64
    requires old { AreFigures old.now old_figures.now }
    requires new { AreFigures new.now new_figures.now }
    ensures { result ≡ vm_moves old.now new.now vm.now }
{
    let mut count = 0;
    for vcpu in 0..old.tasks.len() {
        if changes_there(Matter::Home, old, old_figures, new, new_figures, vm, vcpu) {
            count += 1;
        }
    }
    count
}

// Writes the line of each VM that is new.
fn put_new_vms<K: Sink>(sink: &mut K, old: &View, new: &View) -> Result<(), WriteFault>
    ensures { Writes (K.state sink.old) (K.state sink.new)
        (texts_below (new_vm_lines old.now new.now) (length new.now.tasks.items)) result }
{
    for vcpu in 0..new.tasks.len() {
        put_new_first(sink, old, new, vcpu)?;
    }
    Ok(())
}

fn put_new_first<K: Sink>(
    sink: &mut K,
    old: &View,
    new: &View,
    vcpu: usize,
) -> Result<(), WriteFault>
    ensures { Writes (K.state sink.old) (K.state sink.new) (new_vm_lines old.now new.now vcpu) result }
{
    if is_first(new, vcpu) {
        let vm = vm_at(&new.names, vcpu);
        put_new_vm(sink, old, vm)
    } else {
        Ok(())
    }
}

fn put_new_vm<K: Sink>(sink: &mut K, old: &View, vm: &[u8]) -> Result<(), WriteFault>
    ensures { Writes (K.state sink.old) (K.state sink.new) (new_vm old.now vm.now) result }
{
    let count = old.tasks.len();
    if has_vm(old, vm, count) {
        Ok(())
    } else {
        put_lone(sink, b"vm ", vm, b" new\n")
    }
}
