use crate::quote::shown;
use std::alloc::{AllocError, Global};
use std::fmt;
use tab_core::VcpuNo;
use view_doc::View;
use view_schedulers::Unkept;

/// Why the vCPUs of a plan aren't put on a scheduler, with the name of the vCPU, if it is one's.
#[derive(Drop)]
pub struct Refusal {
    fault: Unkept,
    name: String,
}

impl Refusal {
    /// This fault of the plan that the view shows.
    pub fn of(alloc: Global, fault: &Unkept, view: &View) -> Result<Refusal, AllocError> {
        match name_of(alloc, fault, view) {
            Ok(name) => Ok(Refusal {
                fault: *fault,
                name,
            }),
            Err(fault) => Err(fault),
        }
    }
}

// The vCPU whose fault it is.
fn vcpu_of(fault: &Unkept) -> Option<VcpuNo> {
    match *fault {
        Unkept::NoGuest(vcpu)
        | Unkept::NoTask(vcpu)
        | Unkept::OutOfRange(vcpu)
        | Unkept::RoundedOut(vcpu)
        | Unkept::Stranger(vcpu)
        | Unkept::NotKept(vcpu)
        | Unkept::Split(vcpu)
        | Unkept::Unlike(vcpu) => Some(vcpu),
        Unkept::Overbooked(_) => None,
    }
}

// The vCPU's name; nothing where the fault is none of a vCPU's.
fn name_of(alloc: Global, fault: &Unkept, view: &View) -> Result<String, AllocError> {
    let Some(vcpu) = vcpu_of(fault) else {
        return Ok(String::new(alloc));
    };
    match view.names.get(vcpu.index()) {
        Some(name) => shown(alloc, name.bytes()),
        None => Ok(String::new(alloc)),
    }
}

// What is said before the number of the vCPU or the core whose fault it is, that number, and what is said after it. (A
// write for each fault takes the prover two minutes, and one for all of them some seconds.)
fn parts_of(fault: &Unkept) -> (&'static str, u32, &'static str) {
    match *fault {
        Unkept::NoGuest(v) => (
            "the name of vcpu ",
            v.0,
            " isn't GUEST.NUMBER, as web.0 is; --map names its guest",
        ),
        Unkept::NoTask(v) => ("vcpu ", v.0, " has a period and a cost of no plan"),
        Unkept::OutOfRange(v) => (
            "the scheduler takes no such period or budget as vcpu ",
            v.0,
            " has",
        ),
        Unkept::RoundedOut(v) => (
            "vcpu ",
            v.0,
            " needs more than its period in whole microseconds; take a host with format = 2 and tick_ns = 1000",
        ),
        Unkept::Stranger(v) => ("the host admits no vCPU of the name of vcpu ", v.0, ""),
        Unkept::NotKept(v) => (
            "the plan doesn't keep what the host has for vcpu ",
            v.0,
            "; is it this host's?",
        ),
        Unkept::Split(v) => (
            "vcpu ",
            v.0,
            " is split, and each has to stay on one core there; take more cores or fewer VMs, as fit and place do with --no-split, or export scx, whose tables split vCPUs",
        ),
        Unkept::Unlike(v) => (
            "vcpu ",
            v.0,
            " has another period or quota than one before it of its guest, and libvirt has one of each for a guest",
        ),
        Unkept::Overbooked(c) => (
            "the budgets of core ",
            c.0,
            " are more than the scheduler gives away of it; for rtds, cgroup and libvirt take a host with format = 2 and tick_ns = 1000, for deadline --full or a host with less on it",
        ),
    }
}

impl fmt::Display for Refusal {
    fn fmt<W: fmt::Write>(&self, f: &mut fmt::Formatter<W>) -> fmt::Result {
        let (before, number, after) = parts_of(&self.fault);
        write!(f, "{before}{number}")?;
        if vcpu_of(&self.fault).is_some() {
            write!(f, " ({})", self.name)?;
        }
        f.write_str(after)
    }
}
