use view_doc::View;

/// A host's trace as it is drawn.
#[derive(Drop)]
pub struct HostTrace {
    /// Its vCPUs, in the order in which lines name them first, and as stints in slots the stretches in which they
    /// ran, in the order of the lines by which these begin. Ticks are counted from the first line.
    pub view: View,
    /// Nanoseconds of a tick: 1, or more where the trace has 2^32 ns or more.
    pub tick_ns: u16,
    /// The tick of the last line.
    pub end: u32,
}
