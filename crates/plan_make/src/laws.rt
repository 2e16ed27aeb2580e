ghost use Rattle.std.specs.Prelude.{◌≡◌, [], List, Option, ℕ};
ghost use Rattle.tab_core.specs.declared.host.Host.{Host};
ghost use Rattle.tab_core.specs.declared.over.Over.{Over};
ghost use Rattle.table_form.specs.Tables.Plans.{PlanView};
ghost use Rattle.period_choice.specs.Tasks.{IsFirstWithoutPeriod};
ghost use Rattle.plan_make.specs.Planned.{IsFirstStayingWithoutRoom, IsFirstWithoutRoom, IsPlanned, IsStayingPlan};

/// A host has at most one plan.
pub fn a_host_has_one_plan()
    ensures { (host : Host) (p q : PlanView) → IsPlanned host p → IsPlanned host q → p ≡ q }
{}

/// A host has at most one refusal: one first vCPU without a period; or one without room, which is
/// missing for one number of ticks, with one list of overloaded intervals.
pub fn a_host_has_one_refusal()
    ensures without_period { (host : Host) (vcpu other : ℕ) → IsFirstWithoutPeriod host vcpu
        → IsFirstWithoutPeriod host other → vcpu ≡ other }
    ensures without_room { (host : Host) (vcpu other rest more : ℕ) (over others : List Over)
        → IsFirstWithoutRoom host vcpu rest over → IsFirstWithoutRoom host other more others
        → (vcpu ≡ other) × (rest ≡ more) × (over ≡ others) }
    ensures apart { (host : Host) (vcpu other rest : ℕ) (over : List Over)
        → IsFirstWithoutRoom host other rest over → IsFirstWithoutPeriod host vcpu → ⊥ }
{}

/// From the same old homes a host has at most one plan, too, and no plan where one of its vCPUs has no
/// room. Where a plan split nobody, the plan from its own homes is the same.
pub fn a_plan_stays()
    ensures one { (old_homes : List (Option ℕ)) (host : Host) (p q : PlanView)
        → IsStayingPlan old_homes host p → IsStayingPlan old_homes host q → p ≡ q }
    ensures room { (old_homes : List (Option ℕ)) (host : Host) (p : PlanView) (vcpu rest : ℕ)
        (over : List Over) → IsStayingPlan old_homes host p
        → IsFirstStayingWithoutRoom old_homes host vcpu rest over → ⊥ }
    ensures kept { (old_homes : List (Option ℕ)) (host : Host) (plan : PlanView)
        → (is : IsStayingPlan old_homes host plan) → is.layout.placed.left ≡ []
        → IsStayingPlan plan.homes host plan }
{}
