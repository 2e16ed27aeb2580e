ghost use Rattle.std.specs.Prelude.{◌≡◌, ◌<◌, ◌^◌};
ghost use Rattle.view_lanes.specs.Amounts.{per_mille, tenths_ms};

/// The time that `t` ticks take, in tenths of a millisecond, rounded down, where a tick has so many
/// nanoseconds.
pub fn tenths_ms(tick: u16, t: u32) -> u64
    ensures { result ≡ tenths_ms tick t }
{
    u64::from(t) * u64::from(tick) / 100_000
}

/// A part of a whole in tenths of a percent, rounded down; 0 where the whole is 0. The part is below
/// 2^48.
pub fn per_mille(part: u64, whole: u64) -> u64
    requires { part < 2 ^ 48 }
    ensures { result ≡ per_mille part whole }
{
    if whole == 0 { 0 } else { part * 1000 / whole }
}
