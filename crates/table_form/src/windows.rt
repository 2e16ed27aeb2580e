ghost use Rattle.std.specs.Prelude.{◌≡◌, ◌⊎◌, ℕ, ◌+◌, ◌*◌, ◌<◌, ◌≤◌};
ghost use Rattle.tab_core.specs.declared.TheConstants.{ROUND};

/// The least tick after `tick` that is `offset` ticks after a multiple of the period, as the begins
/// and the ends of a piece's windows are. It may be beyond the round.
pub fn next_at(offset: u32, period: u32, tick: u32) -> u32
    requires some { 0 < period }
    requires small { period ≤ ROUND }
    requires in_round { tick < ROUND }
    ensures later { tick < result }
    ensures one { (k : ℕ) × (result ≡ k * period + offset) }
    ensures least { (k : ℕ) → tick < k * period + offset → result ≤ k * period + offset }
{
    if tick < offset {
        offset
    } else {
        tick - (tick - offset) % period + period
    }
}

/// The greatest tick below `tick` that is `offset` ticks after a multiple of the period, else 0.
pub fn last_before(offset: u32, period: u32, tick: u32) -> u32
    requires some { 0 < period }
    requires later { 0 < tick }
    ensures earlier { result < tick }
    ensures one { (result ≡ 0) ⊎ ((k : ℕ) × (result ≡ k * period + offset)) }
    ensures greatest { (k : ℕ) → result < k * period + offset → tick ≤ k * period + offset }
{
    if tick <= offset {
        0
    } else {
        tick - 1 - (tick - 1 - offset) % period
    }
}
