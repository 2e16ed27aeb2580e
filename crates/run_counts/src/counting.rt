ghost use Rattle.std.specs.Prelude.{◌≡◌, ◌<◌, ◌≤◌, ◌-◌, ◌*◌, ℕ, Some, length, slice_get};
ghost use Rattle.tab_core.specs.declared.TheConstants.{MAX_ROUNDS, MAX_VCPUS, ROUND};
ghost use Rattle.run_counts.specs.Inside.Repeats.{HasSamePlan, IsSoundStretch, repeated};
ghost use Rattle.run_counts.specs.Inside.Sweeps.{EndsBy};
ghost use Rattle.run_counts.specs.Reports.{IsReported};
ghost use Rattle.run_counts.specs.Stretches.{joined, stretch_at};

use crate::describing::{clear, describe};
use crate::stretch::Stretch;
use table_form::Course;

/// Counts for each vCPU, by number, how many ticks of a run are offered to it, and its greatest gap in
/// ticks: `offered` and `most` of its stretch in `run`. `used` has the count of each round.
///
/// Takes no memory: `round` is room for what one round gives, and what was in `run` is lost. The rules
/// of offers and gaps are this project's.
pub fn count_waits(course: &Course, used: &[u32], round: &mut [Stretch], run: &mut [Stretch])
    requires counts { (r count : ℕ) → slice_get used.now r ≡ Some count → count ≤ length course.now.ticks }
    requires few { length used.now ≤ MAX_ROUNDS }
    requires round { length round.old ≡ MAX_VCPUS }
    requires run { length run.old ≡ MAX_VCPUS }
    ensures round { length round.new ≡ MAX_VCPUS }
    ensures run { length run.new ≡ MAX_VCPUS }
    ensures reported { (v : ℕ) → v < MAX_VCPUS → IsReported course.now used.now v
        (stretch_at run.new v).offered (stretch_at run.new v).most }
{
    clear(run);
    let mut r = 0;
    'counting: while r < used.len() {
        let end = plan_lasts_to(course, used, r);
        describe(course.plan_after(used[r]), round);
        append(run, round, (end - r) as u32);
        r = end;
    }
}

// The first round after r that has another plan than r, or how many rounds there are.
fn plan_lasts_to(course: &Course, used: &[u32], r: usize) -> usize
    requires counts { (r count : ℕ) → slice_get used.now r ≡ Some count → count ≤ length course.now.ticks }
    requires within { r < length used.now }
    ensures after { r < result }
    ensures within { result ≤ length used.now }
    ensures same { (q : ℕ) → r ≤ q → q < result → HasSamePlan course.now used.now r q }
    ensures other { result < length used.now → HasSamePlan course.now used.now r result → ⊥ }
{
    let number = course.plan_number(used[r]);
    for q in r + 1..used.len() {
        if course.plan_number(used[q]) != number {
            return q;
        }
    }
    used.len()
}

// Lengthens each stretch of the run by what so many rounds give that are all alike.
fn append(run: &mut [Stretch], round: &[Stretch], rounds: u32)
    requires size { length run.old ≡ length round.now }
    requires some { 0 < rounds }
    requires few { rounds ≤ MAX_ROUNDS }
    requires fits { (v : ℕ) → v < length run.old
        → EndsBy ((MAX_ROUNDS - rounds) * ROUND) (stretch_at run.old v) }
    requires round { (v : ℕ) → v < length run.old → EndsBy ROUND (stretch_at round.now v) }
    requires sound { (v : ℕ) → v < length run.old → IsSoundStretch (stretch_at round.now v) }
    ensures size { length run.new ≡ length run.old }
    ensures joined { (v : ℕ) → v < length run.old
        → stretch_at run.new v ≡ joined (stretch_at run.old v) (repeated (stretch_at round.now v) rounds) }
{
    for v in 0..run.len() {
        run[v] = run[v].then(round[v].times(rounds));
    }
}
