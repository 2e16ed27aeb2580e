use tab_core::{Entry, Stint, VcpuNo};

/// What is kept of a core. `last` is its last shared pick.
#[derive(Drop)]
pub(crate) struct CoreLog {
    pub(crate) clock: u32,
    pub(crate) seen: Option<u32>,
    pub(crate) entries: Vec<Entry>,
    pub(crate) stints: Vec<Stint>,
    pub(crate) last: Option<VcpuNo>,
}
