ghost use Rattle.std.specs.Prelude.{◌≡◌, ◌≤◌};
ghost use Rattle.tab_core.specs.declared.TheConstants.{MAX_CORES};
ghost use Rattle.vcpu_names.specs.Names.{name_at};
ghost use Rattle.view_doc.specs.Views.{reach_of, shown_in};
ghost use Rattle.view_export.specs.Shown.{holder_name, how_text, lanes_in};

use tab_core::{Name, VcpuNo};
use view_doc::{Stretch, Use, View};

// The stints of a run, else the slots of a plan.
pub(crate) fn shown_in(view: &View) -> &[Stretch]
    ensures { result.now ≡ shown_in view.now }
{
    if view.is_run {
        &view.stints
    } else {
        &view.slots
    }
}

// The count of the lanes: that of the plan's cores, or more where the run has more.
pub(crate) fn lanes_in(view: &View) -> u32
    ensures { result ≡ lanes_in view.now }
{
    view.cores.max(reach_of(shown_in(view)))
}

// The name of the vCPU of this number, or nothing where there is none.
pub(crate) fn name_at<'a>(names: &'a [Name], vcpu: VcpuNo) -> &'a [u8]
    ensures { result.now ≡ name_at names.now vcpu }
{
    match names.get(vcpu.index()) {
        Some(name) => name.bytes(),
        None => &[],
    }
}

// The name of whoever has a stretch, or nothing where nobody has.
pub(crate) fn holder_name<'a>(names: &'a [Name], by: &Use) -> &'a [u8]
    ensures { result.now ≡ holder_name names.now by.now }
{
    match *by {
        Use::Idle => &[],
        Use::Slot(vcpu) | Use::Shared(vcpu) => name_at(names, vcpu),
    }
}

// How whoever has a stretch came to run.
pub(crate) fn how_text(by: &Use) -> &'static [u8]
    ensures { result.now ≡ how_text by.now }
{
    match *by {
        Use::Idle => b"idle",
        Use::Slot(_) => b"slot",
        Use::Shared(_) => b"shared",
    }
}

// How many cores the stretches reach.
fn reach_of(stretches: &[Stretch]) -> u32
    ensures value { result ≡ reach_of stretches.now }
    ensures few { result ≤ MAX_CORES }
{
    let mut reach = 0;
    for stretch in stretches {
        reach = reach.max(stretch.core.0 + 1);
    }
    reach
}
