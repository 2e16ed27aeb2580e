/// What a text for terminals shows of a view, which has a line for each core.
#[derive(Clone, Copy)]
pub struct TextOptions {
    /// The first core that has a line.
    pub first: u32,
    /// The last that has a line, if there are so many.
    pub last: u32,
    /// The first tick that is shown.
    pub from: u32,
    /// The tick that ends what is shown; without it, and beyond it, the end of the last round does.
    pub to: Option<u32>,
    /// How many letters a line has.
    pub columns: u32,
    /// Nanoseconds of a tick.
    pub tick_ns: u16,
}
