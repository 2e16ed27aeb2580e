use tab_core::{CoreNo, VcpuNo};

/// At a tick a vCPU begins to run on a core, or stops.
#[derive(Clone, Copy)]
pub struct Turn {
    pub tick: u32,
    pub vcpu: VcpuNo,
    pub core: CoreNo,
    /// Whether it begins.
    pub begins: bool,
}
