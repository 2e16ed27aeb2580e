ghost use Rattle.std.specs.Prelude.{◌≡◌, ◌<◌, IfOk};
ghost use Rattle.table_form.specs.Running.Courses.{FitsRounds};
ghost use Rattle.slice_table.specs.Owners.{AreCourseOwners};
ghost use Rattle.core_workers.specs.Inside.Making.{IsNewActor};

use crew_turns::{CoreStepper, Pass, Stepper, Turn};
use dispatch_core::{CoreAnswer, CoreState, Way, run_on, step_state};
use round_words::{RoundBoard, RoundSeat};
use slice_table::{CoreSlices, RowOwners};
use std::alloc::Global;
use std::marker::Model;
use tab_core::{CoreNo, NoMemory};
use table_form::Course;

/// A core's actor as one of a crew: the course, what the core looks into, and what it keeps. Contracts see the course and
/// what it keeps.
#[derive(Drop)]
pub(crate) struct Member<'a> {
    course: &'a Course,
    slices: CoreSlices,
    state: CoreState,
    number: u32,
}

impl<'a> Model for Member<'a> {
    ghost use Rattle.std.specs.Prelude.{◌≡◌};
    ghost use Rattle.slice_table.specs.CoreSlices.{AreSlicesOf};
    ghost use Rattle.dispatch_core.specs.States.{ActorView, actor_view};

    ghost Value = { ActorView };

    ghost view = { λ m. actor_view m.course.now m.state };

    ghost invariant = { λ m. AreSlicesOf m.course.now m.state.core m.slices × (m.number ≡ m.state.core) };
}

impl<'a> Member<'a> {
    // The core of this number in a run of so many rounds that has not begun. So many of its stints are kept.
    pub(crate) fn make(
        alloc: Global,
        course: &'a Course,
        owners: &[RowOwners],
        core: u32,
        rounds: u32,
        keep: u32,
    ) -> Result<Member<'a>, NoMemory>
        requires core { core < course.now.cores }
        requires fits { FitsRounds course.now rounds }
        requires owners { AreCourseOwners course.now owners.now }
        ensures { IfOk result (λ a. IsNewActor course.now rounds core keep a) }
    {
        let outline = course.outline();
        let slices = CoreSlices::make_with(alloc, course, owners, CoreNo(core))?;
        let state = CoreState::make(alloc, outline, CoreNo(core), rounds, keep)?;
        Ok(Member {
            course,
            slices,
            state,
            number: core,
        })
    }

    // What the core's actor keeps of its run.
    pub(crate) fn state(&self) -> &CoreState
        ensures { result.now ≡ self.now.state }
    {
        &self.state
    }
}

impl<'a> Stepper for Member<'a> {
    ghost use Rattle.core_workers.specs.Actors.{core_kind};
    ghost use Rattle.core_workers.specs.ActorLaws.{core_lawful};

    ghost kind = { core_kind };

    ghost lawful = { core_lawful };

    #[inline(always)]
    fn number(&self) -> u32 {
        self.number
    }

    #[inline(always)]
    fn place(&self) -> u32 {
        self.state.clock()
    }

    #[inline(always)]
    fn step(&mut self, board: &RoundBoard, seat: &mut RoundSeat) -> Turn {
        match step_state(board, seat, self.course, &self.slices, &mut self.state) {
            CoreAnswer::Ran(_) => Turn::Moved,
            CoreAnswer::Behind { who: _, tick: _ } => Turn::Waits,
            CoreAnswer::Finished => Turn::Ended,
        }
    }

    // By the plan of the round that it entered last.
    #[inline(always)]
    fn run_on<P: Pass>(
        &mut self,
        board: &RoundBoard,
        seat: &mut RoundSeat,
        passing: &mut P,
        limit: u32,
    ) {
        // before a table is looked up, since most turns of long stints are over here
        if self.state.clock() > limit {
            return;
        }
        let outline = self.course.outline();
        let Some(used) = self.state.last_used(outline) else {
            return;
        };
        let table = self.slices.table_after(self.course, used);
        let way = Way {
            outline,
            used,
            table,
        };
        run_on(board, seat, passing, limit, &way, &mut self.state);
    }
}

impl<'a> CoreStepper for Member<'a> {
    ghost use Rattle.core_workers.specs.ActorLaws.{core_short};

    ghost is_short = { core_short };
}
