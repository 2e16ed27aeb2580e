ghost use Rattle.std.specs.Prelude.{◌≡◌, ◌≤◌, ℕ, [], Some, length, slice_get, vec_capacity};
ghost use Rattle.tab_core.specs.declared.TheConstants.{MAX_ROUNDS};
ghost use Rattle.run_counts.specs.RoundPlans.{round_plans_of};

use table_form::Course;

/// A round, from 0, and the number of its plan in the course.
#[derive(Clone, Copy, Debug, PartialEq, Eq)]
pub struct RoundPlan {
    pub round: u32,
    pub plan: u32,
}

/// Lists round 0, and each round whose plan has another number than that of the round before, in a run of
/// which `used` has the count of each round.
///
/// Takes no memory: `plans` has room for them, and nothing in it yet. Its room stays as it is.
pub fn round_plans(course: &Course, used: &[u32], plans: &mut Vec<RoundPlan>)
    requires counts { (r count : ℕ) → slice_get used.now r ≡ Some count → count ≤ length course.now.ticks }
    requires few { length used.now ≤ MAX_ROUNDS }
    requires empty { plans.old.items ≡ [] }
    requires room { length used.now ≤ vec_capacity plans.old }
    ensures listed { plans.new.items ≡ round_plans_of course.now used.now }
    ensures room { vec_capacity plans.new ≡ vec_capacity plans.old }
{
    let mut last = None;
    for r in 0..used.len() {
        let number = course.plan_number(used[r]);
        if last != Some(number) {
            plans.push_reserved(RoundPlan {
                round: r as u32,
                plan: number,
            });
        }
        last = Some(number);
    }
}
