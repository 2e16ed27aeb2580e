ghost use Rattle.std.specs.Prelude.{◌≡◌, ℕ, ◌≤◌, ◌++◌, [], List, None, Option, get_or};
ghost use Rattle.tab_core.specs.declared.periodic.Periodic.{Periodic};
ghost use Rattle.worst_fit.specs.declared.by_demand.ByDemand.{ByDemand};
ghost use Rattle.worst_fit.specs.declared.placed.Placed.{Placed};
ghost use Rattle.worst_fit.specs.Placement.{IsStayingPlacement, Staying, stay_all};

/// Where no vCPU has an old home all move, in their order. So `IsPlacement` is worst fit from empty
/// cores.
pub fn without_old_homes_all_move()
    ensures { (homes : List (Option ℕ)) (s : Staying) (order : List ByDemand)
        → ((vcpu : ℕ) → get_or homes vcpu None ≡ None)
        → stay_all homes s order ≡ (record { placed = s.placed; moving = s.moving ++ order }) }
{}

/// From the homes of a placement that left nobody over each vCPU stays: the placement is the same.
pub fn a_whole_placement_stays()
    ensures { (homes : List (Option ℕ)) (tasks : List (Option Periodic)) (cores : ℕ) (placed : Placed)
        → 1 ≤ cores → IsStayingPlacement homes tasks cores placed → placed.left ≡ []
        → IsStayingPlacement placed.core_of tasks cores placed }
{}
