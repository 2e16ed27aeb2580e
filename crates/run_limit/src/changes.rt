ghost use Rattle.std.specs.Prelude.{◌≡◌, ◌<◌, ◌≤◌, ℕ, IsFalse, IsTrue, Some};
ghost use Rattle.run_limit.specs.Inside.Walks.{AreSame, IsGone, IsHere, IsListed, IsNew, WasHere};
ghost use Rattle.run_limit.specs.declared.lanes.Lane.{Lane};
ghost use Rattle.run_limit.specs.declared.visits.TheConstants.{ROWS};

use crate::lanes::Lanes;
use table_form::Owner;

/// Whether the lanes have the vCPUs that they had a tick before.
pub(crate) fn are_same(lanes: &Lanes) -> bool
    requires few { lanes.now.count ≤ ROWS }
    ensures yes { IsTrue result → AreSame lanes.now }
    ensures no { IsFalse result → AreSame lanes.now → ⊥ }
{
    for at in 0..lanes.count {
        if !is_same(lanes, at) {
            return false;
        }
    }
    true
}

// Whether neither what a lane has came nor what it had went.
fn is_same(lanes: &Lanes, at: usize) -> bool
    requires few { lanes.now.count ≤ ROWS }
    requires counted { at < lanes.now.count }
    ensures stay { IsTrue result → (v : ℕ) (lane : Lane) → IsListed lanes.now at lane → lane.was ≡ Some v
        → IsHere lanes.now v }
    ensures are_old { IsTrue result → (v : ℕ) (lane : Lane) → IsListed lanes.now at lane → lane.owner ≡ Some v
        → WasHere lanes.now v }
    ensures no { IsFalse result → AreSame lanes.now → ⊥ }
{
    let lane = lanes.items[at];
    if lane.was.same(lane.owner) {
        return true;
    }
    is_here(lanes, lane.was) && was_here(lanes, lane.owner)
}

// Whether the owner is nobody, or a lane has it.
fn is_here(lanes: &Lanes, owner: Owner) -> bool
    requires few { lanes.now.count ≤ ROWS }
    ensures yes { IsTrue result → (v : ℕ) → owner ≡ Some v → IsHere lanes.now v }
    ensures no { IsFalse result → IsGone lanes.now owner }
{
    if owner.vcpu().is_none() {
        return true;
    }
    for at in 0..lanes.count {
        if lanes.items[at].owner.same(owner) {
            return true;
        }
    }
    false
}

// Whether the owner is nobody, or a lane had it.
fn was_here(lanes: &Lanes, owner: Owner) -> bool
    requires few { lanes.now.count ≤ ROWS }
    ensures yes { IsTrue result → (v : ℕ) → owner ≡ Some v → WasHere lanes.now v }
    ensures no { IsFalse result → IsNew lanes.now owner }
{
    if owner.vcpu().is_none() {
        return true;
    }
    for at in 0..lanes.count {
        if lanes.items[at].was.same(owner) {
            return true;
        }
    }
    false
}
