ghost use Rattle.std.specs.Prelude.{◌≡◌, ◌<◌, ◌≤◌, length, slice_get};
ghost use Rattle.tab_io.specs.Sinks.{Writes};
ghost use Rattle.view_table.specs.Figures.{AreFigures};
ghost use Rattle.view_table.specs.Groups.{any_below, count_where};
ghost use Rattle.view_table.specs.Sums.{changed_below, changes_there, home_in, is_any, is_changed, is_first, is_other, same_home, same_share, same_wait, sum_line, sums_text, vcpu_sum, vm_changes, vm_sum, vms_changed};

use crate::diff::{figure_of, number_of};
use crate::figures::Figures;
use crate::groups::{has_vm, is_of, share_at, vm_at};
use crate::rows::name_at;
use tab_io::{Sink, WriteFault};
use view_cells::{Cell, put_cells};
use view_doc::View;

// What of a vCPU may be another in another plan.
#[derive(Clone, Copy)]
pub(crate) enum Matter {
    Home,
    Share,
    Wait,
    // One of these, or that it is there.
    Any,
}

/// Writes the sums of what differs between two plans, whose figures these are: of how many vCPUs and VMs of the old
/// plan the new one has another home, another share and another wait, and how many stayed as they were. A VM has
/// another home where one of its vCPUs has, and so on, and stayed where each of them did.
///
/// A fault leaves a prefix of the text in the sink. Nothing is settled, and nothing is allocated.
pub fn write_sums<K: Sink>(
    sink: &mut K,
    old: &View,
    old_figures: &Figures,
    new: &View,
    new_figures: &Figures,
) -> Result<(), WriteFault>
    requires old { AreFigures old.now old_figures.now }
    requires new { AreFigures new.now new_figures.now }
    ensures { Writes (K.state sink.old) (K.state sink.new) (sums_text old.now new.now) result }
{
    put_vcpu_sum(sink, old, old_figures, new, new_figures)?;
    put_vm_sum(sink, old, old_figures, new, new_figures)
}

fn put_vcpu_sum<K: Sink>(
    sink: &mut K,
    old: &View,
    old_figures: &Figures,
    new: &View,
    new_figures: &Figures,
) -> Result<(), WriteFault>
    requires old { AreFigures old.now old_figures.now }
    requires new { AreFigures new.now new_figures.now }
    ensures { Writes (K.state sink.old) (K.state sink.new) (vcpu_sum old.now new.now) result }
{
    let homes = changed_below(Matter::Home, old, old_figures, new, new_figures);
    let shares = changed_below(Matter::Share, old, old_figures, new, new_figures);
    let waits = changed_below(Matter::Wait, old, old_figures, new, new_figures);
    let changed = changed_below(Matter::Any, old, old_figures, new, new_figures);
    let count = old.tasks.len() as u64;
    put_sum(sink, count, b" vCPUs, ", homes, shares, waits, changed)
}

fn put_vm_sum<K: Sink>(
    sink: &mut K,
    old: &View,
    old_figures: &Figures,
    new: &View,
    new_figures: &Figures,
) -> Result<(), WriteFault>
    requires old { AreFigures old.now old_figures.now }
    requires new { AreFigures new.now new_figures.now }
    ensures { Writes (K.state sink.old) (K.state sink.new) (vm_sum old.now new.now) result }
{
    let homes = vms_changed(Matter::Home, old, old_figures, new, new_figures);
    let shares = vms_changed(Matter::Share, old, old_figures, new, new_figures);
    let waits = vms_changed(Matter::Wait, old, old_figures, new, new_figures);
    let changed = vms_changed(Matter::Any, old, old_figures, new, new_figures);
    let count = count_vms(old);
    put_sum(sink, count, b" VMs, ", homes, shares, waits, changed)
}

#[tactic(auto, unfolding(crate::specs::Sums::sum_line))]
fn put_sum<'a, K: Sink>(
    sink: &mut K,
    count: u64,
    what: &'a [u8],
    homes: u64,
    shares: u64,
    waits: u64,
    changed: u64,
) -> Result<(), WriteFault>
    ensures { Writes (K.state sink.old) (K.state sink.new)
        (sum_line count what.now homes shares waits changed) result }
{
    put_cells(
        sink,
        &[
            Cell::Text(b"total: of "),
            Cell::Count(0, count),
            Cell::Text(what),
            Cell::Count(0, homes),
            Cell::Text(b" have another home, "),
            Cell::Count(0, shares),
            Cell::Text(b" another share, "),
            Cell::Count(0, waits),
            Cell::Text(b" another wait; "),
            Cell::Count(0, count.saturating_sub(changed)),
            Cell::Text(b" stayed\n"),
        ],
    )
}

// How many vCPUs of the old plan are changed in this.
fn changed_below(
    matter: Matter,
    old: &View,
    old_figures: &Figures,
    new: &View,
    new_figures: &Figures,
) -> u64
    requires old { AreFigures old.now old_figures.now }
    requires new { AreFigures new.now new_figures.now }
    ensures { result ≡ changed_below matter old.now new.now }
{
    let mut count = 0;
    for vcpu in 0..old.tasks.len() {
        if is_changed(matter, old, old_figures, new, new_figures, vcpu) {
            count += 1;
        }
    }
    count
}

fn is_changed(
    matter: Matter,
    old: &View,
    old_figures: &Figures,
    new: &View,
    new_figures: &Figures,
    vcpu: usize,
) -> bool
    requires old { AreFigures old.now old_figures.now }
    requires new { AreFigures new.now new_figures.now }
    requires low { vcpu < length old.now.tasks.items }
    ensures { result ≡ is_changed matter old.now new.now vcpu }
{
    let name = name_at(&old.names, vcpu);
    match number_of(&new.names, new.tasks.len(), name) {
        None => is_any(matter),
        Some(other) => is_other(matter, old, old_figures, new, new_figures, vcpu, other),
    }
}

fn is_any(matter: Matter) -> bool
    ensures { result ≡ is_any matter }
{
    match matter {
        Matter::Home | Matter::Share | Matter::Wait => false,
        Matter::Any => true,
    }
}

// Whether this of a vCPU of the old plan is another of one of the new plan.
fn is_other(
    matter: Matter,
    old: &View,
    old_figures: &Figures,
    new: &View,
    new_figures: &Figures,
    vcpu: usize,
    other: usize,
) -> bool
    requires old { AreFigures old.now old_figures.now }
    requires new { AreFigures new.now new_figures.now }
    requires low { vcpu < length old.now.tasks.items }
    requires low_other { other < length new.now.tasks.items }
    ensures { result ≡ is_other matter old.now new.now vcpu other }
{
    let home = home_at(old, vcpu) == home_at(new, other);
    let share = share_at(old, vcpu) == share_at(new, other);
    let wait = figure_of(old, old_figures, vcpu) == figure_of(new, new_figures, other);
    match matter {
        Matter::Home => !home,
        Matter::Share => !share,
        Matter::Wait => !wait,
        Matter::Any => !(home && (share && wait)),
    }
}

fn home_at(view: &View, vcpu: usize) -> u32
    requires { vcpu < length view.now.tasks.items }
    ensures { result ≡ home_in (slice_get view.now.tasks.items vcpu) }
{
    view.tasks[vcpu].home.0
}

// How many VMs of the old plan are changed in this.
fn vms_changed(
    matter: Matter,
    old: &View,
    old_figures: &Figures,
    new: &View,
    new_figures: &Figures,
) -> u64
    requires old { AreFigures old.now old_figures.now }
    requires new { AreFigures new.now new_figures.now }
    ensures { result ≡ vms_changed matter old.now new.now }
{
    let mut count = 0;
    for vcpu in 0..old.tasks.len() {
        if vm_changes(matter, old, old_figures, new, new_figures, vcpu) {
            count += 1;
        }
    }
    count
}

// Whether the vCPU is the first of its VM, which is changed in this.
fn vm_changes(
    matter: Matter,
    old: &View,
    old_figures: &Figures,
    new: &View,
    new_figures: &Figures,
    vcpu: usize,
) -> bool
    requires old { AreFigures old.now old_figures.now }
    requires new { AreFigures new.now new_figures.now }
    ensures { result ≡ vm_changes matter old.now new.now vcpu }
{
    let vm = vm_at(&old.names, vcpu);
    is_first(old, vcpu) && changes_in(matter, old, old_figures, new, new_figures, vm)
}

pub(crate) fn is_first(view: &View, vcpu: usize) -> bool
    ensures { result ≡ is_first view.now vcpu }
{
    !has_vm(view, vm_at(&view.names, vcpu), vcpu)
}

// Whether a vCPU of the VM is changed in this.
fn changes_in(
    matter: Matter,
    old: &View,
    old_figures: &Figures,
    new: &View,
    new_figures: &Figures,
    vm: &[u8],
) -> bool
    requires old { AreFigures old.now old_figures.now }
    requires new { AreFigures new.now new_figures.now }
    ensures { result ≡ any_below (changes_there matter old.now new.now vm.now) (length old.now.tasks.items) }
{
    let mut found = false;
    for vcpu in 0..old.tasks.len() {
        if changes_there(matter, old, old_figures, new, new_figures, vm, vcpu) {
            found = true;
        }
    }
    found
}

pub(crate) fn changes_there(
    matter: Matter,
    old: &View,
    old_figures: &Figures,
    new: &View,
    new_figures: &Figures,
    vm: &[u8],
    vcpu: usize,
) -> bool
    requires old { AreFigures old.now old_figures.now }
    requires new { AreFigures new.now new_figures.now }
    requires low { vcpu < length old.now.tasks.items }
    ensures { result ≡ changes_there matter old.now new.now vm.now vcpu }
{
    is_of(old, vm, vcpu) && is_changed(matter, old, old_figures, new, new_figures, vcpu)
}

// How many VMs the plan has.
fn count_vms(view: &View) -> u64
    ensures { result ≡ count_where (is_first view.now) (length view.now.tasks.items) }
{
    let mut count = 0;
    for vcpu in 0..view.tasks.len() {
        if is_first(view, vcpu) {
            count += 1;
        }
    }
    count
}
