ghost use Rattle.std.specs.Prelude.{◌≡◌};
ghost use Rattle.host_judge.specs.Inside.Windowed.{lesser_of};

// The first window of those in which a vCPU ran least, and for how long it did.
#[derive(Clone, Copy)]
pub(crate) struct Least {
    pub(crate) run_ns: u64,
    // for how long the vCPU had run and waited when the window began
    pub(crate) begin_ns: u64,
    // when it began
    pub(crate) at_ns: u64,
}

// The lesser of the least and a window.
pub(crate) fn lesser(least: Option<Least>, window: &Least) -> Option<Least>
    ensures { result ≡ lesser_of least window.now }
{
    match least {
        Some(held) => Some(if window.run_ns < held.run_ns {
            *window
        } else {
            held
        }),
        None => Some(*window),
    }
}
