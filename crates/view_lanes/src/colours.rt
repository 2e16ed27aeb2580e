ghost use Rattle.std.specs.Prelude.{◌≡◌, ◌<◌, ◌≤◌, ◌||◌, ℕ, Bool, IfOk, length, slice_get};
ghost use Rattle.tab_core.specs.VcpuSets.{has_vcpu};
ghost use Rattle.tab_core.specs.declared.TheConstants.{MAX_CORES, MAX_VCPUS};
ghost use Rattle.view_lanes.specs.Colours.{belongs_to_core, colours_of, is_colour_taken, is_home, next_colour, runs_on};
ghost use Rattle.view_lanes.specs.Inside.Standing.{AreMet, AreOn, AreWhole, HaveAlso};
ghost use Rattle.view_lanes.specs.Shown.{has_it};

use std::alloc::{AllocError, Global};
use tab_core::{MAX_CORES, MAX_VCPUS, NoMemory, VcpuNo, VcpuSet};
use view_doc::{Stretch, Task, Use};

// The colours of so many vCPUs, which have these stretches and reservations.
pub(crate) fn colours_of(
    alloc: Global,
    stretches: &[Stretch],
    tasks: &[Task],
    vcpus: usize,
) -> Result<Vec<u32>, NoMemory>
    requires { vcpus ≤ MAX_VCPUS }
    ensures colours { IfOk result (λ colours. colours.items ≡ colours_of stretches.now tasks.now vcpus) }
    ensures count { IfOk result (λ colours. length colours.items ≡ vcpus) }
{
    let sets = sets_of(alloc, stretches, tasks)?;
    let mut colours = Vec::new(alloc);
    for v in 0..vcpus {
        let colour = next_colour(&sets, vcpus, &colours, VcpuNo(v as u32));
        if colours.push(colour).is_err() {
            return Err(AllocError);
        }
    }
    Ok(colours)
}

// For each core the vCPUs that are on it.
fn sets_of(alloc: Global, stretches: &[Stretch], tasks: &[Task]) -> Result<Vec<VcpuSet>, NoMemory>
    ensures { IfOk result (λ sets. AreOn sets.items (belongs_to_core stretches.now tasks.now)) }
{
    let mut sets = home_sets(alloc, tasks)?;
    put_runners(&mut sets, stretches);
    Ok(sets)
}

// For each core the vCPUs whose home it is.
fn home_sets(alloc: Global, tasks: &[Task]) -> Result<Vec<VcpuSet>, NoMemory>
    ensures on { IfOk result (λ sets. AreOn sets.items (λ core v. is_home (slice_get tasks.now v) core)) }
    ensures whole { IfOk result (λ sets. AreWhole sets.items) }
{
    let mut sets = Vec::new(alloc);
    for core in 0..MAX_CORES {
        if sets.push(home_set(tasks, core)).is_err() {
            return Err(AllocError);
        }
    }
    Ok(sets)
}

// The vCPUs whose home is a core.
fn home_set(tasks: &[Task], core: u32) -> VcpuSet
    ensures size { length result ≡ MAX_VCPUS }
    ensures members { (v : ℕ) → v < MAX_VCPUS → has_vcpu result v ≡ is_home (slice_get tasks.now v) core }
{
    let mut set = VcpuSet::empty();
    put_homes(&mut set, tasks, core);
    set
}

// Puts those that have a stretch on a core to the vCPUs of that core.
fn put_runners(sets: &mut [VcpuSet], stretches: &[Stretch])
    requires count { length sets.old ≡ MAX_CORES }
    requires whole { AreWhole sets.old }
    ensures { HaveAlso (runs_on stretches.now) sets.old sets.new }
{
    for stretch in stretches {
        put_holder(&mut sets[stretch.core.index()], &stretch.by);
    }
}

// Puts whoever has a stretch.
#[tactic(auto, using(crate::proofs::ColourLemmas::member_put))]
fn put_holder(set: &mut VcpuSet, by: &Use)
    requires { length set.old ≡ MAX_VCPUS }
    ensures size { length set.new ≡ MAX_VCPUS }
    ensures members { (v : ℕ) → v < MAX_VCPUS → has_vcpu set.new v ≡ (has_vcpu set.old v || has_it by.now v) }
{
    match *by {
        Use::Idle => {}
        Use::Slot(vcpu) | Use::Shared(vcpu) => set.put(vcpu),
    }
}

// Puts those whose home is the core.
#[tactic(auto, using(crate::proofs::ColourLemmas::member_put))]
fn put_homes(set: &mut VcpuSet, tasks: &[Task], core: u32)
    requires { length set.old ≡ MAX_VCPUS }
    ensures size { length set.new ≡ MAX_VCPUS }
    ensures members { (v : ℕ) → v < MAX_VCPUS
        → has_vcpu set.new v ≡ (has_vcpu set.old v || is_home (slice_get tasks.now v) core) }
{
    for v in 0..tasks.len().min(MAX_VCPUS as usize) {
        let home = tasks[v].home;
        if home.0 == core {
            set.put(VcpuNo(v as u32));
        }
    }
}

// The colour of a vCPU, after those of the lower ones.
fn next_colour(sets: &[VcpuSet], vcpus: usize, colours: &[u32], v: VcpuNo) -> u32
    requires sets { length sets.now ≡ MAX_CORES }
    requires lower { length colours.now ≡ v }
    ensures { (on : ℕ → ℕ → Bool) → AreOn sets.now on → result ≡ next_colour on vcpus colours.now v }
{
    if vcpus <= 12 {
        return v.0;
    }
    let met = met_by(sets, v);
    for k in 0..12 {
        if !is_taken(&met, colours, v, k) {
            return k;
        }
    }
    24 + v.0 % 24
}

// Whether a lower one of the vCPUs that a vCPU meets has the colour.
fn is_taken(met: &VcpuSet, colours: &[u32], v: VcpuNo, k: u32) -> bool
    requires { length colours.now ≡ v }
    ensures { (on : ℕ → ℕ → Bool) → AreMet met.now on v → result ≡ is_colour_taken on colours.now v k }
{
    let mut taken = false;
    for u in 0..v.0 {
        taken = taken || (colours[u as usize] == k && met.has(VcpuNo(u)));
    }
    taken
}

// The vCPUs that are on a core with one.
fn met_by(sets: &[VcpuSet], v: VcpuNo) -> VcpuSet
    requires { length sets.now ≡ MAX_CORES }
    ensures { (on : ℕ → ℕ → Bool) → AreOn sets.now on → AreMet result on v }
{
    let mut met = VcpuSet::empty();
    for core in 0..MAX_CORES {
        let set = &sets[core as usize];
        if set.has(v) {
            put_all(&mut met, set);
        }
    }
    met
}

// Puts the members of another set.
#[tactic(auto, using(crate::proofs::ColourLemmas::member_put))]
fn put_all(set: &mut VcpuSet, other: &VcpuSet)
    requires { length set.old ≡ MAX_VCPUS }
    ensures size { length set.new ≡ MAX_VCPUS }
    ensures members { (u : ℕ) → u < MAX_VCPUS
        → has_vcpu set.new u ≡ (has_vcpu set.old u || has_vcpu other.now u) }
{
    for u in 0..MAX_VCPUS {
        if other.has(VcpuNo(u)) {
            set.put(VcpuNo(u));
        }
    }
}
