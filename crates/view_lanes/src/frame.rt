/// What a picture shows of a view, and how.
#[derive(Clone, Copy)]
pub struct ChartOptions {
    /// Whether each vCPU has a lane, with boxes by core; else each core has one, with boxes by vCPU.
    pub by_vcpu: bool,
    /// The first core or vCPU that has a lane.
    pub first: u32,
    /// The last that has a lane, if there are so many.
    pub last: u32,
    /// The first tick that is shown.
    pub from: u32,
    /// The tick that ends what is shown; without it, and beyond it, the end of the last round does.
    pub to: Option<u32>,
    /// The width in pixels.
    pub width: u32,
    /// Nanoseconds of a tick.
    pub tick_ns: u16,
    /// The picture's number on its page, which its ids end in.
    pub picture: u32,
}

/// The ticks that are shown, from the first up to, and without, the last, how many ns one has, whether the lanes
/// are those of vCPUs, whether a run is shown, whether the ticks are in rounds, and the picture's number on its page.
#[derive(Clone, Copy)]
pub struct Frame {
    pub from: u32,
    pub to: u32,
    pub tick: u16,
    pub by_vcpu: bool,
    pub is_run: bool,
    pub has_rounds: bool,
    pub picture: u32,
}

/// The ticks of a lane that a vCPU has, in its slot or in time that nobody used. What tells the bars of a lane
/// apart is the vCPU's number on a core's lane, and the core's on a vCPU's.
#[derive(Clone, Copy, Default)]
pub struct Bar {
    pub from: u32,
    pub end: u32,
    pub key: u8,
    pub shared: bool,
}
