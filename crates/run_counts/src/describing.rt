ghost use Rattle.std.specs.Prelude.{◌≡◌, ◌<◌, ℕ, length};
ghost use Rattle.tab_core.specs.declared.TheConstants.{MAX_VCPUS, ROUND};
ghost use Rattle.table_form.specs.Tables.Serves.{has_task};
ghost use Rattle.table_form.specs.Tables.Views.{plan_view};
ghost use Rattle.run_counts.specs.Inside.Sweeps.{EndsBy, closed};
ghost use Rattle.run_counts.specs.Inside.Tells.{IsToldRound};
ghost use Rattle.run_counts.specs.Stretches.{no_ticks, stretch_at};

use crate::row_pass::offer_rows;
use crate::stretch::Stretch;
use crate::walk::walk_late;
use tab_core::{Periodic, ROUND};
use table_form::Plan;

// What a round with this plan gives each vCPU, by number: one pass over the rows, and a walk for each vCPU
// whose segments that pass doesn't meet in the order of time.
pub(crate) fn describe(plan: &Plan, stretches: &mut [Stretch])
    requires size { length stretches.old ≡ MAX_VCPUS }
    ensures size { length stretches.new ≡ MAX_VCPUS }
    ensures told { (v : ℕ) → v < MAX_VCPUS → IsToldRound (plan_view plan.now) v (stretch_at stretches.new v) }
{
    let rows = plan.tables.rows.items();
    clear(stretches);
    offer_rows(rows, stretches);
    walk_late(rows, stretches);
    close(plan.tasks.items(), stretches);
}

// Makes each stretch one of no ticks.
pub(crate) fn clear(stretches: &mut [Stretch])
    ensures size { length stretches.new ≡ length stretches.old }
    ensures none { (v : ℕ) → stretch_at stretches.new v ≡ no_ticks }
{
    for v in 0..stretches.len() {
        stretches[v] = Stretch::none();
    }
}

// Lengthens each stretch to the round's end.
fn close(tasks: &[Option<Periodic>], stretches: &mut [Stretch])
    requires before { (v : ℕ) → v < length stretches.old → EndsBy ROUND (stretch_at stretches.old v) }
    ensures size { length stretches.new ≡ length stretches.old }
    ensures closed { (v : ℕ) → v < length stretches.old
        → stretch_at stretches.new v ≡ closed (has_task tasks.now v) (stretch_at stretches.old v) }
{
    for v in 0..stretches.len() {
        stretches[v] = closed_one(tasks, v, stretches[v]);
    }
}

// One stretch at the round's end. A vCPU without a task neither waits nor is offered anything.
fn closed_one(tasks: &[Option<Periodic>], v: usize, stretch: Stretch) -> Stretch
    requires before { EndsBy ROUND stretch }
    ensures { result ≡ closed (has_task tasks.now v) stretch }
{
    if v < tasks.len() && tasks[v].is_some() {
        stretch.then(Stretch::waiting(ROUND - stretch.ticks))
    } else {
        Stretch::neither(ROUND)
    }
}
