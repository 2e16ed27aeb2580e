use crate::sets::spread;
use crew_turns::Gate;
use std::thread::yield_now;

/// Lets other threads go first at some steps, which a seed picks.
#[derive(Drop)]
pub struct Stumbling {
    pattern: u64,
}

impl Stumbling {
    /// The gate of a seed.
    pub fn of(seed: u64) -> Stumbling {
        Stumbling {
            pattern: spread(seed.wrapping_add(1)),
        }
    }
}

impl Gate for Stumbling {
    fn pass(&self, actor: u32, step: u64) {
        let place = step.wrapping_mul(7).wrapping_add(u64::from(actor)) % 64;
        if (self.pattern >> place) & 1 == 1 {
            yield_now();
        }
    }
}
