use crate::number::VcpuNo;
use crate::reservation::Reservation;

/// One part of a change of reservations.
#[derive(Clone, Copy, Debug, PartialEq, Eq)]
pub enum Edit {
    /// The vCPU has this reservation from now on, and is admitted if it wasn't.
    Set {
        vcpu: VcpuNo,
        reservation: Reservation,
    },
    /// The vCPU has no reservation from now on.
    Leave {
        vcpu: VcpuNo,
    },
}
