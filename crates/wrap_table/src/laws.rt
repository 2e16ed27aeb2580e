ghost use Rattle.std.specs.Prelude.{ℕ, Bool, List, Option};
ghost use Rattle.tab_core.specs.declared.periodic.Periodic.{Periodic};
ghost use Rattle.table_form.specs.Tables.Rows.{Row};
ghost use Rattle.table_form.specs.Tables.Serves.{Apart, OwnersHaveTasks, Serves, ServesExactly};
ghost use Rattle.flow_net.specs.Allotments.{AllotmentView, IsAllotment};
ghost use Rattle.wrap_table.specs.Wrapping.{AreWrapped};

/// Wrapped rows give each task its cost in each of its periods.
pub fn wrapped_rows_serve()
    ensures { (tasks : List (Option Periodic)) (cores : ℕ) (a : AllotmentView) (rows : List Row)
        → IsAllotment tasks cores a → AreWrapped a cores rows → Serves tasks rows }
{}

/// They give each task exactly that, whichever vCPUs are capped.
pub fn wrapped_rows_serve_exactly()
    ensures { (tasks : List (Option Periodic)) (capped : List Bool) (cores : ℕ) (a : AllotmentView)
        (rows : List Row) → IsAllotment tasks cores a → AreWrapped a cores rows
        → ServesExactly tasks capped rows }
{}

/// Wrapped rows have no vCPU on two cores at one place.
pub fn wrapped_rows_are_apart()
    ensures { (tasks : List (Option Periodic)) (cores : ℕ) (a : AllotmentView) (rows : List Row)
        → IsAllotment tasks cores a → AreWrapped a cores rows → Apart rows }
{}

/// No cell of wrapped rows is of a vCPU without a task.
pub fn wrapped_rows_are_owned()
    ensures { (tasks : List (Option Periodic)) (cores : ℕ) (a : AllotmentView) (rows : List Row)
        → IsAllotment tasks cores a → AreWrapped a cores rows → OwnersHaveTasks tasks rows }
{}
