ghost use Rattle.std.specs.Prelude.{◌≡◌, ◌+◌, ◌*◌, ◌≤◌, false, true, IfOk, length};
ghost use Rattle.tab_core.specs.declared.TheConstants.{MAX_VCPUS};
ghost use Rattle.size_fit.specs.Fits.{FitMore, FitNotWith, FitWith};

use crate::fit::split_of;
use crate::more_vms::host_with;
use plan_make::{PlanFault, plan};
use sizes_doc::Size;
use std::alloc::{AllocError, Global};
use tab_core::{Host, MAX_VCPUS, NoMemory, VcpuNo};

// How many more VMs of the size fit the host: so many do, and with one more they don't. Counts are tried upwards, in
// steps that double until one doesn't fit or half of what is left is less.
pub(crate) fn more_of(
    alloc: Global,
    host: &Host,
    no_split: bool,
    size: &Size<'_>,
) -> Result<u32, NoMemory>
    ensures { IfOk result (FitMore no_split host.now size.now) }
{
    let left = MAX_VCPUS - host.vcpus.items().len() as u32;
    let mut fits = 0;
    let mut fails = left / size.vcpus + 1;
    while fails - fits > 1 {
        let count = fits + (fits + 1).min((fails - fits) / 2);
        let fit = fits_with(alloc, host, no_split, size, count)?;
        if fit {
            fits = count;
        } else {
            fails = count;
        }
    }
    Ok(fits)
}

// Whether nobody is split where none may be.
fn is_whole(no_split: bool, split: &[VcpuNo]) -> bool
    ensures whole { result ≡ true → no_split ≡ true → length split.now ≡ 0 }
    ensures split { result ≡ false → no_split ≡ true }
    ensures some { result ≡ false → 1 ≤ length split.now }
{
    !no_split || split.is_empty()
}

// Whether the host has room for so many more VMs of the size.
fn fits_with(
    alloc: Global,
    host: &Host,
    no_split: bool,
    size: &Size<'_>,
    count: u32,
) -> Result<bool, NoMemory>
    requires { length host.now.vcpus + count * size.now.vcpus ≤ MAX_VCPUS }
    ensures fit { IfOk result (λ fits. fits ≡ true → FitWith no_split host.now size.now count) }
    ensures full { IfOk result (λ fits. fits ≡ false → FitNotWith no_split host.now size.now count) }
{
    let other = host_with(alloc, host, size, count)?;
    match plan(alloc, &other) {
        Ok(planned) => {
            let split = split_of(alloc, &other, &planned.tasks)?;
            Ok(is_whole(no_split, &split))
        }
        Err(PlanFault::NoPeriod { .. }) => Ok(false),
        Err(PlanFault::NoRoom { .. }) => Ok(false),
        Err(PlanFault::NoMemory) => Err(AllocError),
    }
}
