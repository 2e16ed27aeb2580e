ghost use Rattle.std.specs.Prelude.{◌≡◌, ◌<◌, IfOk, length, map};
ghost use Rattle.tab_core.specs.Edits.{AreEditsOf, IsEdited, edited_once, reservations_of, vcpu_of};

use crate::NoMemory;
use crate::edit::Edit;
use crate::host::Host;
use crate::reservation::Reservation;
use crate::vcpu::{Vcpu, Vcpus};
use std::alloc::Global;

impl Host {
    /// The host with the edits applied in order, of which a later one prevails. All else of it is as it
    /// was.
    ///
    /// Each edit is of one of the host's vCPUs. Fails only when memory runs out.
    pub fn edited(&self, alloc: Global, edits: &[Edit]) -> Result<Host, NoMemory>
        requires { AreEditsOf (length self.now.vcpus) edits.now }
        ensures { IfOk result (IsEdited self.now edits.now) }
    {
        let vcpus = self.vcpus.items();
        let mut reservations = reservations_of(alloc, vcpus)?;
        for edit in edits {
            apply(&mut reservations, edit);
        }
        let vcpus = with_reservations(alloc, vcpus, &reservations)?;
        Ok(Host {
            tick_ns: self.tick_ns,
            cores: self.cores,
            lag: self.lag,
            sliver: self.sliver,
            quantum: self.quantum,
            vcpus: Vcpus::of(vcpus),
        })
    }
}

fn reservations_of(alloc: Global, vcpus: &[Vcpu]) -> Result<Vec<Option<Reservation>>, NoMemory>
    ensures { IfOk result (λ made. made.items ≡ reservations_of vcpus.now) }
{
    let mut made = Vec::with_capacity(alloc, vcpus.len())?;
    for vcpu in vcpus {
        made.push(vcpu.reservation)?;
    }
    Ok(made)
}

fn apply(reservations: &mut Vec<Option<Reservation>>, edit: &Edit)
    requires { vcpu_of edit.now < length reservations.old.items }
    ensures { reservations.new.items ≡ edited_once reservations.old.items edit.now }
{
    match edit {
        Edit::Set { vcpu, reservation } => {
            reservations[vcpu.index()] = Some(*reservation);
        }
        Edit::Leave { vcpu } => reservations[vcpu.index()] = None,
    }
}

// The vCPUs with these reservations in place of theirs.
fn with_reservations(
    alloc: Global,
    vcpus: &[Vcpu],
    reservations: &[Option<Reservation>],
) -> Result<Vec<Vcpu>, NoMemory>
    requires { length reservations.now ≡ length vcpus.now }
    ensures names { IfOk result (λ made. map (λ vcpu. vcpu.name) made.items
        ≡ map (λ vcpu. vcpu.name) vcpus.now) }
    ensures runnable { IfOk result (λ made. map (λ vcpu. vcpu.runnable) made.items
        ≡ map (λ vcpu. vcpu.runnable) vcpus.now) }
    ensures capped { IfOk result (λ made. map (λ vcpu. vcpu.capped) made.items
        ≡ map (λ vcpu. vcpu.capped) vcpus.now) }
    ensures reservations { IfOk result (λ made. reservations_of made.items ≡ reservations.now) }
{
    let mut made = Vec::with_capacity(alloc, vcpus.len())?;
    for (number, vcpu) in vcpus.iter().enumerate() {
        let name = vcpu.name.copy(alloc)?;
        made.push(Vcpu {
            name,
            reservation: reservations[number],
            runnable: vcpu.runnable,
            capped: vcpu.capped,
        })?;
    }
    Ok(made)
}
