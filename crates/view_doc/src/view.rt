use tab_core::{CoreNo, Name, VcpuNo};

/// What a `vcpu` line of a plan says besides the name: times in ticks.
#[derive(Clone, Copy, Debug, PartialEq, Eq)]
pub struct Task {
    pub period: u32,
    pub cost: u32,
    /// The number of the core that is its home.
    pub home: CoreNo,
}

/// Who has the ticks of a stretch.
#[derive(Clone, Copy, Debug, PartialEq, Eq)]
pub enum Use {
    Idle,
    /// The vCPU in a slot of its own.
    Slot(VcpuNo),
    /// The vCPU in time that nobody used.
    Shared(VcpuNo),
}

/// The ticks of a core from `from` up to, and without, `end`: a segment of a plan or a stint of a run.
#[derive(Clone, Copy, Debug, PartialEq, Eq)]
pub struct Stretch {
    pub core: CoreNo,
    pub from: u32,
    pub end: u32,
    /// How many events the core's plan includes, and 0 in a plan.
    pub used: u32,
    /// How many events its runnable set includes, and 0 in a plan.
    pub seen: u32,
    pub by: Use,
}

/// That a core entered a round, whose plan includes so many events.
#[derive(Clone, Copy, Debug, PartialEq, Eq)]
pub struct Entry {
    pub core: CoreNo,
    pub round: u32,
    pub count: u32,
}

/// What a text shows.
#[derive(Drop)]
pub struct View {
    /// How many cores the plan has, and 0 where there is no plan.
    pub cores: u32,
    /// Whether there is a run, after a plan or alone.
    pub is_run: bool,
    /// The vCPUs' names by number: in the order of the `vcpu` lines, then as they came first.
    pub names: Vec<Name>,
    /// What the `vcpu` lines say of the first vCPUs.
    pub tasks: Vec<Task>,
    /// The plan's segments, in the order of the text.
    pub slots: Vec<Stretch>,
    /// The entries of a replay, in the order of the text.
    pub entries: Vec<Entry>,
    /// The run's stints, in the order of the text.
    pub stints: Vec<Stretch>,
}
