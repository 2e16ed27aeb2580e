ghost use Rattle.std.specs.Prelude.{◌≡◌, ◌+◌, ◌<◌, ◌≤◌, true, false, Some, IfNone, IfSome, IsSomeAnd, length};
ghost use Rattle.tab_core.specs.declared.TheConstants.{MAX_CORES, MAX_VCPUS};
ghost use Rattle.table_form.specs.Tables.Serves.{Apart};
ghost use Rattle.table_check.specs.Clashes.{IsFirstClash};
ghost use Rattle.table_check.specs.Shapes.{HaveGoodShapes, rows_of};
ghost use Rattle.table_check.specs.declared.clash.Clash.{Clash};
ghost use Rattle.table_check.specs.Inside.Owners.{HaveOwners};
ghost use Rattle.table_check.specs.Inside.Pairs.{IsFirstBefore};

use crate::fault::CheckFault;
use crate::marks::seem_apart;
use crate::meeting::find_meeting;
use crate::owners::{may_meet, owners_of};
use std::alloc::Global;
use tab_core::{CoreNo, VcpuNo, VcpuSet};
use table_form::Segments;

// A vCPU that is in the rows of two cores at one tick, of which `core` is the lower one.
#[derive(Clone, Copy)]
pub(crate) struct Clash {
    pub(crate) vcpu: VcpuNo,
    pub(crate) tick: u32,
    pub(crate) core: CoreNo,
    pub(crate) other: CoreNo,
}

impl Clash {
    pub(crate) fn fault(&self) -> CheckFault
        ensures { result ≡ CheckFault.Twice self.now.vcpu self.now.tick self.now.core self.now.other }
    {
        CheckFault::Twice {
            vcpu: self.vcpu,
            tick: self.tick,
            core: self.core,
            other: self.other,
        }
    }
}

// Whether there is no clash yet, or only one of a later tick.
fn is_sooner(tick: u32, best: &Option<Clash>) -> bool
    ensures yes { result ≡ true → (clash : Clash) → best.now ≡ Some clash → tick < clash.tick }
    ensures no { result ≡ false → IsSomeAnd best.now (λ clash. clash.tick ≤ tick) }
{
    match best {
        None => true,
        Some(clash) => tick < clash.tick,
    }
}

// The first clash of the pairs of cores up to this one, of which `best` is that of the earlier ones. Rows
// with no owner in common aren't swept.
fn take_pair(
    raw: &[Segments],
    owners: &[VcpuSet],
    core: usize,
    other: usize,
    best: Option<Clash>,
) -> Option<Clash>
    requires good { HaveGoodShapes raw.now }
    requires lower { core < other }
    requires there { other < length raw.now }
    requires few { length raw.now ≤ MAX_CORES }
    requires owners { HaveOwners (rows_of raw.now) owners.now }
    requires before { IsFirstBefore (rows_of raw.now) core other best }
    ensures { IsFirstBefore (rows_of raw.now) core (other + 1) result }
{
    if !may_meet(raw, owners, core, other) {
        return best;
    }
    let Some(meeting) = find_meeting(raw[core].items(), raw[other].items()) else {
        return best;
    };
    if is_sooner(meeting.tick, &best) {
        Some(Clash {
            vcpu: meeting.vcpu,
            tick: meeting.tick,
            core: CoreNo(core as u32),
            other: CoreNo(other as u32),
        })
    } else {
        best
    }
}

// The first clash of the pairs whose first core is at most this one.
fn take_core(
    raw: &[Segments],
    owners: &[VcpuSet],
    core: usize,
    best: Option<Clash>,
) -> Option<Clash>
    requires good { HaveGoodShapes raw.now }
    requires there { core < length raw.now }
    requires few { length raw.now ≤ MAX_CORES }
    requires owners { HaveOwners (rows_of raw.now) owners.now }
    requires before { IsFirstBefore (rows_of raw.now) core 0 best }
    ensures { IsFirstBefore (rows_of raw.now) (core + 1) 0 result }
{
    let mut best = best;
    for other in core + 1..raw.len() {
        best = take_pair(raw, owners, core, other, best);
    }
    best
}

// The first clash of the rows. Where marks don't tell that there is none, the pairs of rows that have an
// owner in common are swept from end to end of a segment. Only speed depends on the count of vCPUs, and on
// memory for the owners.
pub(crate) fn find_clash(alloc: Global, vcpus: usize, raw: &[Segments]) -> Option<Clash>
    requires few { vcpus ≤ MAX_VCPUS }
    requires good { HaveGoodShapes raw.now }
    requires few_rows { length raw.now ≤ MAX_CORES }
    ensures none { IfNone result (Apart (rows_of raw.now)) }
    ensures some { IfSome result
        (λ clash. IsFirstClash (rows_of raw.now) clash.vcpu clash.tick clash.core clash.other) }
{
    if seem_apart(alloc, vcpus, raw) {
        return None;
    }
    let owners = owners_of(alloc, raw);
    let mut best = None;
    for core in 0..raw.len() {
        best = take_core(raw, &owners, core, best);
    }
    best
}
