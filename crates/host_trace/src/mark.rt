use tab_core::VcpuNo;

/// What a vCPU does.
#[derive(Clone, Copy, Debug, PartialEq, Eq)]
pub enum State {
    /// It runs on a CPU.
    Run,
    /// It is runnable and doesn't run.
    Wait,
    /// It has nothing to do.
    Block,
}

/// What a line says: from this time on a vCPU is in this state.
#[derive(Clone, Copy)]
pub struct Mark {
    /// The number of the line, from 1.
    pub line: u64,
    pub time_ns: u64,
    /// The vCPU's number, or none where the host has none of the name that is there.
    pub vcpu: Option<VcpuNo>,
    pub state: State,
    /// The CPU where one is there.
    pub cpu: Option<u32>,
}

/// What a line says of the vCPU that it names: from this time on that is in this state.
#[derive(Clone, Copy)]
pub struct Told<'a> {
    pub time_ns: u64,
    /// The name, which has a byte.
    pub name: &'a [u8],
    pub state: State,
    /// The CPU where one is there.
    pub cpu: Option<u32>,
}
