ghost use Rattle.std.specs.Prelude.{ℕ, ◌≡◌, ◌≤◌, ◌<◌, ◌^◌, length, max, slice_index};
ghost use Rattle.tab_core.specs.declared.TheConstants.{MAX_ROUNDS, ROUND};
ghost use Rattle.table_form.specs.Tables.Spots.{HasSpans};
ghost use Rattle.table_form.specs.Tables.Views.{plan_view};
ghost use Rattle.run_limit.specs.StintBounds.{AreLargestSpans, IsStintBound, stints_of_round};

use crate::visits::ROWS;
use crate::walk::spans_of_rows;
use std::cmp::max;
use std::marker::Model;
use tab_core::{CoreNo, ROUND};
use table_form::{Course, Plan};

/// A bound on the stints of all cores together in a run of so many rounds: the rounds times the sum of
/// what each core can have in one round. The bound is this project's own.
pub fn stint_bound(course: &Course, rounds: u32) -> u64
    requires { rounds ≤ MAX_ROUNDS }
    ensures { IsStintBound course.now rounds result }
{
    MostSpans::of(course).bound(course, rounds)
}

/// For each core of a course how many spans its row has in the plan where it has most. Contracts see these numbers,
/// by core number.
#[derive(Drop)]
pub struct MostSpans {
    each: [u32; ROWS],
}

impl Model for MostSpans {
    ghost use Rattle.std.specs.Prelude.{ℕ, List};

    ghost Value = { List ℕ };

    ghost view = { λ spans. spans.each };
}

impl MostSpans {
    /// For each core of the course how many spans its row has in the plan where it has most. Each plan
    /// is looked at once.
    pub fn of(course: &Course) -> MostSpans
        ensures { AreLargestSpans course.now result }
    {
        MostSpans {
            each: most_spans(course),
        }
    }

    /// The most stints that a core can have in one round: as many as its row has spans in the plan
    /// where it has most, and one for each whole lag and for each whole quantum in a round. It is below
    /// 2^33.
    ///
    /// A run of so many rounds has room for all of the core's stints in that many times as much.
    pub fn round_stints(&self, course: &Course, core: CoreNo) -> u64
        ensures stints { result ≡ stints_of_round course.now (slice_index self.now core) }
        ensures small { result < 2 ^ 33 }
    {
        let spans = self.each[core.index()];
        u64::from(spans) + u64::from(ROUND / course.lag()) + u64::from(ROUND / course.quantum())
    }

    /// The bound on the stints of all cores together in a run of so many rounds, at most 10,000. These
    /// numbers are those of the course.
    pub fn bound(&self, course: &Course, rounds: u32) -> u64
        requires few { rounds ≤ MAX_ROUNDS }
        requires largest { AreLargestSpans course.now self.now }
        ensures { IsStintBound course.now rounds result }
    {
        let mut sum = 0;
        for core in 0..course.cores() {
            sum += self.round_stints(course, CoreNo(core));
        }
        u64::from(rounds) * sum
    }
}

// For each core the largest number of spans that its row has in a plan.
fn most_spans(course: &Course) -> [u32; ROWS]
    ensures { AreLargestSpans course.now result }
{
    let mut most = [0; ROWS];
    for number in 0..course.plans() {
        raise(&mut most, course.plan(number));
    }
    most
}

// Raises each core's number to that of this plan, where that is larger.
fn raise(most: &mut [u32; ROWS], plan: &Plan)
    ensures { (c : ℕ) → c < length plan.now.tables.rows → (count : ℕ)
        × HasSpans (plan_view plan.now) c ROUND count × (slice_index most.new c ≡ max (slice_index most.old c) count) }
{
    let spans = spans_of_rows(plan);
    for core in 0..plan.tables.rows.items().len() {
        most[core] = larger(most[core], spans[core]);
    }
}

fn larger(one: u32, other: u32) -> u32
    ensures { result ≡ max one other }
{
    max(one, other)
}
