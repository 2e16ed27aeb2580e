ghost use Rattle.std.specs.Prelude.{ℕ, ◌≡◌, ◌+◌, ◌*◌, ◌≤◌, Bool, List, Option, cond};
ghost use Rattle.tab_core.specs.Sums.{total};
ghost use Rattle.flow_net.specs.Load.{IsLoad, Load, job, jobs, span};
ghost use Rattle.flow_net.specs.Flows.{FitsCores};
ghost use Rattle.tab_core.specs.declared.TheConstants.{ROUND};
ghost use Rattle.tab_core.specs.declared.periodic.Periodic.{Periodic};
ghost use Rattle.flow_net.specs.Allotments.{AllotmentView, AreMarks, IsAllotment, demands};

/// An allotment of tasks to cores needs room for all their demands: where the demands sum to more than
/// the cores have, there is none.
pub fn allotments_fit()
    ensures { (tasks : List (Option Periodic)) (cores : ℕ) (allotment : AllotmentView)
        → IsAllotment tasks cores allotment → demands tasks ≤ cores * ROUND }
{}

/// No cut is below the sum of the costs: chosen jobs cost no more than the cores offer in chosen
/// intervals and the jobs' other intervals have.
pub fn cuts_are_enough()
    ensures { (l : Load) → IsLoad l → FitsCores l → (chosen : ℕ → ℕ → Bool) (near : ℕ → Bool)
        → total (λ v. total (λ k. cond (chosen v k) (l.cost v) 0) (jobs l v)) l.width
        ≤ total (λ i. cond (near i) (l.cores * span l i) 0) l.count
        + total (λ v. total (λ i. cond (chosen v (job l v i)) (cond (near i) 0 (span l i)) 0) l.count)
        l.width }
{}

/// Periods have at most one list of marks.
pub fn periods_have_one_list_of_marks()
    ensures { (periods marks other : List ℕ) → AreMarks periods marks → AreMarks periods other
        → marks ≡ other }
{}
