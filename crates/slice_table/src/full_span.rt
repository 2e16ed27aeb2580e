ghost use Rattle.std.specs.Prelude.{◌≡◌, ◌≢◌, ◌<◌, ◌↔◌, ℕ, IsTrue, Some};
ghost use Rattle.tab_core.specs.VcpuSets.{has_vcpu};

use tab_core::{VcpuNo, VcpuSet};
use table_form::Spot;

/// A span of a core's row, with both its sets.
#[derive(Drop)]
pub struct FullSpan {
    /// The vCPU whose slot it is, or none.
    pub owner: Option<VcpuNo>,
    /// The vCPUs whose home is the core and which another core's row has there.
    pub away: VcpuSet,
    /// The vCPUs that may share the time that the owner doesn't use, where they are runnable.
    pub sharers: VcpuSet,
    /// Its end, in ticks of the round.
    pub end: u32,
}

impl FullSpan {
    /// The spot with its sharers: of those on the core who are neither away nor the owner.
    pub(crate) fn of(spot: Spot, core_sharers: &VcpuSet) -> FullSpan
        ensures owner { result.owner ≡ spot.owner }
        ensures away { result.away ≡ spot.away }
        ensures end { result.end ≡ spot.end }
        ensures sharers { (v : ℕ) → (IsTrue (has_vcpu result.sharers v)
            ↔ (IsTrue (has_vcpu core_sharers.now v) × (IsTrue (has_vcpu spot.away v) → ⊥) × (spot.owner ≢ Some v))) }
    {
        let sharers = sharers_there(core_sharers, &spot.away, spot.owner);
        FullSpan {
            owner: spot.owner,
            away: spot.away,
            sharers,
            end: spot.end,
        }
    }
}

// The core's sharers who are neither away nor the owner.
pub(crate) fn sharers_there(
    core_sharers: &VcpuSet,
    away: &VcpuSet,
    owner: Option<VcpuNo>,
) -> VcpuSet
    ensures { (v : ℕ) → (IsTrue (has_vcpu result v)
        ↔ (IsTrue (has_vcpu core_sharers.now v) × (IsTrue (has_vcpu away.now v) → ⊥) × (owner ≢ Some v))) }
{
    let mut sharers = core_sharers.without(away);
    if let Some(vcpu) = owner {
        sharers.take(vcpu);
    }
    sharers
}
