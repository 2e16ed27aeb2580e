ghost use Rattle.std.specs.Prelude.{◌≡◌, ◌≤◌, ℕ, List, Option, length};
ghost use Rattle.tab_core.specs.declared.TheConstants.{MAX_CORES};
ghost use Rattle.tab_core.specs.declared.host.Host.{Host};
ghost use Rattle.tab_core.specs.declared.periodic.Periodic.{Periodic};
ghost use Rattle.table_form.specs.Tables.Plans.{PlanView};
ghost use Rattle.table_form.specs.declared.raw_tables.RawTables.{RawTables};
ghost use Rattle.plan_text.specs.Names.{AreHostNames};
ghost use Rattle.plan_text.specs.Meaning.{IsPlanText};
ghost use Rattle.plan_text.specs.Written.{IsHostWithPlan, IsReadBack};

/// For a host's names and tasks a text stands for one pair of tables at most.
pub fn a_text_has_one_meaning()
    ensures { (names : List (List ℕ)) (cores : ℕ) (tasks : List (Option Periodic)) (bytes : List ℕ)
        (raw other : RawTables)
        → AreHostNames names → length names ≡ length tasks → cores ≤ MAX_CORES
        → IsPlanText names cores tasks bytes raw → IsPlanText names cores tasks bytes other → raw ≡ other }
{}

/// The text of a plan for a host is read with the same host and tasks as the plan's homes and its
/// maximal segments.
pub fn a_written_plan_is_read_back()
    ensures { (host : Host) (plan : PlanView) → IsHostWithPlan host plan → IsReadBack host plan }
{}
