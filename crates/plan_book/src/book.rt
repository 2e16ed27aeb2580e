ghost use Rattle.std.specs.Prelude.{◌≡◌, ◌<◌, ◌≤◌, Some, length, slice_get};
ghost use Rattle.tab_core.specs.declared.TheConstants.{MAX_CHANGES};
ghost use Rattle.plan_book.specs.Books.{book_view};

use crate::outcome::Outcome;
use std::marker::Model;
use table_form::Course;

/// The course of a script for a host, and the outcome of each change of reservations. Contracts
/// see the course and the list of outcomes.
#[derive(Drop)]
pub struct PlanBook {
    course: Course,
    outcomes: Vec<Outcome>,
}

impl Model for PlanBook {
    ghost use Rattle.std.specs.Prelude.{◌≤◌, length};
    ghost use Rattle.tab_core.specs.declared.TheConstants.{MAX_CHANGES};
    ghost use Rattle.plan_book.specs.Books.{BookView, book_view};

    ghost Value = { BookView };

    ghost view = { λ book. book_view book.course book.outcomes.items };

    ghost invariant = { λ book. length book.outcomes.items ≤ MAX_CHANGES };
}

impl PlanBook {
    // The book of this course and these outcomes.
    pub(crate) fn of(course: Course, outcomes: Vec<Outcome>) -> PlanBook
        requires { length outcomes.items ≤ MAX_CHANGES }
        ensures { result ≡ book_view course outcomes.items }
    {
        PlanBook { course, outcomes }
    }

    /// The events by their ticks, and after each count of first events the plan, with its number,
    /// and the runnable vCPUs. Plan 0 is the host's, and each change that is planned has the next
    /// number.
    pub fn course(&self) -> &Course
        ensures { result.now ≡ self.now.course }
    {
        &self.course
    }

    /// What became of a change of reservations, which are counted from 0 in the order of the
    /// script.
    pub fn outcome_of(&self, change: u32) -> Outcome
        requires { change < length self.now.outcomes }
        ensures { slice_get self.now.outcomes change ≡ Some result }
    {
        self.outcomes[change as usize]
    }

    /// What became of each change of reservations, in the order of the script.
    pub fn outcomes(&self) -> &[Outcome]
        ensures same { result.now ≡ self.now.outcomes }
        ensures few { length self.now.outcomes ≤ MAX_CHANGES }
    {
        &self.outcomes
    }
}
