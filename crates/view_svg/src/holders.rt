ghost use Rattle.std.specs.Prelude.{◌≡◌, ◌<◌, ◌||◌, ℕ, length};
ghost use Rattle.tab_core.specs.VcpuSets.{has_vcpu};
ghost use Rattle.tab_core.specs.declared.TheConstants.{MAX_VCPUS};
ghost use Rattle.view_svg.specs.Inside.Holding.{AreHolders};
ghost use Rattle.view_svg.specs.Keys.{has_bar, has_lane};

use tab_core::{VcpuNo, VcpuSet};
use view_lanes::{Bar, Lane};

// The keys that have a bar.
pub(crate) fn holders_of(bars: &[Bar]) -> VcpuSet
    ensures { AreHolders result bars.now }
{
    let mut set = VcpuSet::empty();
    add_holders(&mut set, bars);
    set
}

/// The numbers of all keys that have a bar on one of the lanes: of vCPUs on lanes of cores, of cores on
/// lanes of vCPUs.
pub fn holders_in(lanes: &[Lane]) -> VcpuSet
    ensures { (v : ℕ) → v < MAX_VCPUS → has_vcpu result v ≡ has_lane lanes.now v }
{
    let mut set = VcpuSet::empty();
    for lane in lanes {
        add_holders(&mut set, lane.bars());
    }
    set
}

// Adds those that have a bar.
#[tactic(auto, using(view_lanes::proofs::ColourLemmas::member_put))]
fn add_holders(set: &mut VcpuSet, bars: &[Bar])
    requires { length set.old ≡ MAX_VCPUS }
    ensures size { length set.new ≡ MAX_VCPUS }
    ensures members { (v : ℕ) → v < MAX_VCPUS → has_vcpu set.new v ≡ (has_vcpu set.old v || has_bar bars.now v) }
{
    for bar in bars {
        set.put(VcpuNo(u32::from(bar.key)));
    }
}
