use tab_core::VcpuNo;

/// What became of a change of reservations.
#[derive(Clone, Copy, Debug, PartialEq, Eq)]
pub enum Outcome {
    /// The changed host has a plan. Host and plan are the new ones from then on.
    Planned,
    /// Nothing changed: no period meets this vCPU's latency in the changed host. It is the lowest
    /// such vCPU.
    NoPeriod { vcpu: VcpuNo },
    /// Nothing changed: this vCPU has no room in the changed host. It is the first such vCPU in the
    /// order of placement.
    NoRoom { vcpu: VcpuNo },
}
