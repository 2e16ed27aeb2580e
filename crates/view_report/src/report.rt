use crate::said::{CoreRan, PlanStart, ReportedChange, VcpuRan};

/// What the report of a run says.
#[derive(Drop)]
pub struct RunReport<'a> {
    pub rounds: u32,
    pub events: u32,
    /// The changes of the script, in its order.
    pub changes: Vec<ReportedChange<'a>>,
    /// The rounds that begin with another plan, in their order.
    pub plans: Vec<PlanStart>,
    /// The vCPUs of the host, by number.
    pub vcpus: Vec<VcpuRan<'a>>,
    /// The cores by number.
    pub cores: Vec<CoreRan>,
}
