ghost use Rattle.std.specs.Prelude.{◌≡◌, ◌<◌, ◌≤◌, ◌-◌, ◌^◌, IfOk, decimal, length};
ghost use Rattle.tab_core.specs.declared.TheConstants.{MAX_CORES, MAX_VCPUS};
ghost use Rattle.view_lanes.specs.Colours.{core_names, core_tone, core_tones, has_foot, is_split, stands_at, tone, tones_of, vcpu_tones};

use crate::colours::colours_of;
use crate::shown::shown_in;
use std::alloc::{AllocError, Global};
use tab_core::{MAX_CORES, Name, NoMemory};
use view_doc::View;
use view_table::Figures;

/// The tones of a view's vCPUs, by number: a colour each, and in a plan a dark foot for those that have
/// slots on several cores, as the figures say. There are at most 256 vCPUs.
///
/// Fails only when memory runs out.
pub fn vcpu_tones(alloc: Global, view: &View, figures: &Figures) -> Result<Vec<u32>, NoMemory>
    requires { length view.now.names.items ≤ MAX_VCPUS }
    ensures tones { IfOk result (λ tones. tones.items ≡ vcpu_tones view.now figures.now) }
    ensures count { IfOk result (λ tones. length tones.items ≡ length view.now.names.items) }
{
    let count = view.names.len();
    let colours = colours_of(alloc, shown_in(view), &view.tasks, count)?;
    tones_of(alloc, view.is_run, figures, &colours, count)
}

// The tones of so many vCPUs that have these colours.
pub(crate) fn tones_of(
    alloc: Global,
    is_run: bool,
    figures: &Figures,
    colours: &[u32],
    vcpus: usize,
) -> Result<Vec<u32>, NoMemory>
    requires vcpus { vcpus ≤ MAX_VCPUS }
    requires coloured { vcpus ≤ length colours.now }
    ensures tones { IfOk result (λ tones. tones.items ≡ tones_of is_run figures.now colours.now vcpus) }
    ensures count { IfOk result (λ tones. length tones.items ≡ vcpus) }
{
    let mut tones = Vec::new(alloc);
    for v in 0..vcpus {
        let tone = tone(has_foot(is_run, figures, v), colours[v]);
        if tones.push(tone).is_err() {
            return Err(AllocError);
        }
    }
    Ok(tones)
}

// A colour, with a dark foot or without.
fn tone(foot: bool, colour: u32) -> u32
    ensures { result ≡ tone foot colour }
{
    if foot { 12 + colour % 12 } else { colour }
}

// Whether the vCPU's tone has a dark foot.
fn has_foot(is_run: bool, figures: &Figures, v: usize) -> bool
    requires { v < MAX_VCPUS }
    ensures { result ≡ has_foot is_run figures.now v }
{
    !is_run && is_split(figures, v)
}

// Whether the vCPU has slots on several cores.
fn is_split(figures: &Figures, v: usize) -> bool
    requires { v < MAX_VCPUS }
    ensures { result ≡ is_split figures.now v }
{
    let mut some = false;
    let mut twice = false;
    for core in 0..MAX_CORES as usize {
        let here = stands_at(figures, v, core);
        twice = twice || here && some;
        some = some || here;
    }
    twice
}

// Whether the vCPU has a slot on a core.
fn stands_at(figures: &Figures, v: usize, core: usize) -> bool
    requires vcpu { v < MAX_VCPUS }
    requires core { core < MAX_CORES }
    ensures { result ≡ stands_at figures.now v core }
{
    match figures.stands.get(v * MAX_CORES as usize + core) {
        Some(stands) => *stands,
        None => false,
    }
}

/// The tones of so many cores, at most 32, by number: a colour each, with stripes from the thirteenth
/// core on.
///
/// Fails only when memory runs out.
pub fn core_tones(alloc: Global, cores: u32) -> Result<Vec<u32>, NoMemory>
    requires { cores ≤ MAX_CORES }
    ensures tones { IfOk result (λ tones. tones.items ≡ core_tones cores) }
    ensures count { IfOk result (λ tones. length tones.items ≡ cores) }
{
    let mut tones = Vec::new(alloc);
    for core in 0..cores {
        if tones.push(core_tone(core)).is_err() {
            return Err(AllocError);
        }
    }
    Ok(tones)
}

// The tone of a core: a colour, and stripes from the thirteenth on.
fn core_tone(core: u32) -> u32
    requires { core < 2 ^ 32 - 12 }
    ensures { result ≡ core_tone core }
{
    if core < 12 { core } else { core + 12 }
}

/// The numbers of so many cores as names, in decimal digits.
///
/// Fails only when memory runs out.
pub fn core_names(alloc: Global, cores: u32) -> Result<Vec<Name>, NoMemory>
    ensures names { IfOk result (λ names. names.items ≡ core_names cores) }
    ensures count { IfOk result (λ names. length names.items ≡ cores) }
{
    let mut names = Vec::new(alloc);
    for core in 0..cores {
        let name = core_name(alloc, core)?;
        if names.push(name).is_err() {
            return Err(AllocError);
        }
    }
    Ok(names)
}

// The number of a core as a name. Its digits have the form of one.
fn core_name(alloc: Global, core: u32) -> Result<Name, NoMemory>
    ensures { IfOk result (λ name. name ≡ decimal core) }
{
    let digits = format!(in alloc; "{core}")?;
    match Name::of(alloc, digits.as_bytes()) {
        Ok(name) => Ok(name),
        Err(_) => Err(AllocError),
    }
}
