use tab_core::{VcpuNo, VcpuSet};

/// A span of a core's row: a stretch of places with one owner, at which the same vCPUs may share the
/// time that the owner leaves.
#[derive(Drop)]
pub struct Span<'a> {
    /// The vCPU whose slot it is, or none.
    pub owner: Option<VcpuNo>,
    /// The vCPUs that may run here where the owner doesn't: their home is the core, they aren't the
    /// owner, and no other core's row has them here.
    pub sharers: &'a VcpuSet,
    /// The end of the span, in ticks of the round.
    pub end: u32,
}
