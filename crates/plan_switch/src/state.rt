ghost use Rattle.std.specs.Prelude.{◌≡◌, ℕ, slice_index};

/// What is kept of a controller's run, apart from the outline: how many events are posted, and for each core the clock
/// that was heard last.
#[derive(Drop)]
pub struct ControlState {
    pub(crate) posted: u32,
    pub(crate) known: [u32; 32],
}

impl ControlState {
    /// The state of a controller that has posted no event and heard no clock.
    pub fn new() -> ControlState
        ensures posted { result.posted ≡ 0 }
        ensures known { (d : ℕ) → slice_index result.known d ≡ 0 }
    {
        ControlState {
            posted: 0,
            known: [0; 32],
        }
    }

    /// How many events are posted.
    pub fn posted(&self) -> u32
        ensures { result ≡ self.now.posted }
    {
        self.posted
    }
}
