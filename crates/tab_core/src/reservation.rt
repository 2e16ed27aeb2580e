ghost use Rattle.std.specs.Prelude.{◌≤◌};
ghost use Rattle.tab_core.specs.declared.TheConstants.{MAX_LATENCY_NS, WHOLE_PPM};

use crate::{MAX_LATENCY_NS, WHOLE_PPM};

/// What an operator has sold for a vCPU.
#[derive(Clone, Copy, Debug, PartialEq, Eq)]
pub struct Reservation {
    /// The share of one core, in parts per million.
    pub share_ppm: u32,
    /// The longest time without an offer of the core, in nanoseconds.
    pub latency_ns: u64,
    pub ghost shares: { 1 ≤ share_ppm },
    pub ghost whole: { share_ppm ≤ WHOLE_PPM },
    pub ghost bounded: { latency_ns ≤ MAX_LATENCY_NS },
}
