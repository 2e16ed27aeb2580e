ghost use Rattle.std.specs.Prelude.{◌≡◌, ℕ, [], List};
ghost use Rattle.fleet_place.specs.Fits.{FitsHost, FitsNot};
ghost use Rattle.fleet_place.specs.Held.{Held};
ghost use Rattle.fleet_place.specs.Stays.{IsStay};
ghost use Rattle.fleet_place.specs.declared.group.Group.{Group as GroupValue};
ghost use Rattle.fleet_place.specs.declared.policy.Policy.{Policy as PolicyValue};
ghost use Rattle.fleet_place.specs.declared.vm.Vm.{Vm as VmValue};

/// VMs that fit a host have no reason not to fit it.
pub fn fit_or_not()
    ensures { (policy : PolicyValue) (cores : ℕ) (vms : List VmValue) → FitsHost policy cores vms → FitsNot policy cores vms → ⊥ }
{}

/// Nobody moves whose host has room for all that were there.
pub fn a_host_with_room_keeps_all()
    ensures { (policy : PolicyValue) (group : GroupValue) (held : Held) (moved : List VmValue) → IsStay policy group held moved
        → FitsHost policy group.cores group.vms.items → moved ≡ [] }
{}
