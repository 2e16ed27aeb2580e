ghost use Rattle.std.specs.Prelude.{◌<◌, ◌≤◌, ◌^◌, IfOk, length};
ghost use Rattle.tab_core.specs.declared.TheConstants.{MAX_CORES, MAX_VCPUS};

use crate::fault::Fault;
use crate::input::Input;
use crate::mistaken::{Wanted, bad_line};
use host_doc::{HostFault, read_host};
use std::alloc::Global;
use tab_core::{Host, MAX_CORES, MAX_VCPUS};
use view_doc::{ReadView, View, read_view};

/// What a text shows: a plan, a replay or a trace, or a plan and one of these.
pub fn view_of(alloc: Global, input: Input) -> Result<View, Fault> {
    view_in(alloc, &input.place, &input.bytes)
}

/// What bytes of a text show. The place is that of a fault.
pub fn view_in(alloc: Global, place: &str, bytes: &[u8]) -> Result<View, Fault>
    requires { length bytes.now < 2 ^ 31 }
{
    match read_view(alloc, bytes) {
        Ok(view) => Ok(view),
        Err(ReadView::BadLine { line }) => Err(bad_line(alloc, place, bytes, line, Wanted::View)),
        Err(ReadView::NoMemory) => Err(Fault::NoMemory),
    }
}

/// The view, if it isn't too much to be drawn.
pub fn drawable(view: View) -> Result<View, Fault>
    ensures cores { IfOk result (λ view. view.cores ≤ MAX_CORES) }
    ensures vcpus { IfOk result (λ view. length view.names.items ≤ MAX_VCPUS) }
    ensures tasks { IfOk result (λ view. length view.tasks.items ≤ MAX_VCPUS) }
{
    let most = MAX_VCPUS as usize;
    if view.cores > MAX_CORES || view.names.len() > most || view.tasks.len() > most {
        return Err(Fault::TooMany);
    }
    Ok(view)
}

/// What a plan text shows. It is a plan alone, without a run after it. The place is that of a fault.
pub fn plan_of(alloc: Global, place: &str, bytes: &[u8]) -> Result<View, Fault>
    requires { length bytes.now < 2 ^ 31 }
    ensures cores { IfOk result (λ view. view.cores ≤ MAX_CORES) }
    ensures vcpus { IfOk result (λ view. length view.tasks.items ≤ MAX_VCPUS) }
{
    match read_view(alloc, bytes) {
        Ok(view) => checked(alloc, place, view),
        Err(ReadView::BadLine { line }) => Err(bad_line(alloc, place, bytes, line, Wanted::Plan)),
        Err(ReadView::NoMemory) => Err(Fault::NoMemory),
    }
}

// The view, if it is a plan's.
fn checked(alloc: Global, place: &str, view: View) -> Result<View, Fault>
    ensures cores { IfOk result (λ view. view.cores ≤ MAX_CORES) }
    ensures vcpus { IfOk result (λ view. length view.tasks.items ≤ MAX_VCPUS) }
{
    if view.is_run || view.cores > MAX_CORES || view.tasks.len() > MAX_VCPUS as usize {
        return Err(Fault::NoPlan {
            place: String::from_str(alloc, place)?,
        });
    }
    Ok(view)
}

/// The host that a document stands for. The place is that of a fault.
pub fn host_of(alloc: Global, place: &str, bytes: &[u8]) -> Result<Host, Fault> {
    match read_host(alloc, bytes) {
        Ok(host) => Ok(host),
        Err(HostFault::NoMemory) => Err(Fault::NoMemory),
        Err(fault) => Err(Fault::BadHost {
            place: String::from_str(alloc, place)?,
            fault,
        }),
    }
}
