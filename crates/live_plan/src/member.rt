ghost use Rattle.std.specs.Prelude.{◌≡◌, ◌<◌, ◌≤◌, IfOk};
ghost use Rattle.tab_core.specs.declared.TheConstants.{MAX_ROUNDS};
ghost use Rattle.slice_table.specs.Owners.{AreRowOwners};
ghost use Rattle.live_plan.specs.Inside.Crewing.{IsNewMember};

use crate::actor::LiveActor;
use crate::answer::LiveAnswer;
use crate::book::LiveBook;
use crate::cell_shelf::CellShelf;
use crate::kept::Kept;
use crate::stepping::{run_further, step_keeping};
use crew_turns::{CoreStepper, Pass, Stepper, Turn};
use round_words::{RoundBoard, RoundSeat};
use slice_table::RowOwners;
use std::alloc::Global;
use std::marker::Model;
use tab_core::{CoreNo, NoMemory};

/// A live core as one of a crew: the book, its actor and its shelf, and what its steps found last. Contracts
/// see the book and the actor.
#[derive(Drop)]
pub(crate) struct Member<'a> {
    book: &'a LiveBook,
    actor: LiveActor,
    shelf: CellShelf,
    kept: Kept<'a>,
}

impl<'a> Model for Member<'a> {
    ghost use Rattle.live_plan.specs.Actors.{IsLiveActorOf};
    ghost use Rattle.live_plan.specs.Inside.Cells.{IsCellShelfOf};
    ghost use Rattle.live_plan.specs.Inside.Keeping.{IsTableKept};
    ghost use Rattle.live_plan.specs.Players.{MemberView, member_view};

    ghost Value = { MemberView };

    ghost view = { λ m. member_view m.book.now m.actor };

    ghost invariant = { λ m. IsLiveActorOf m.book.now m.actor × IsCellShelfOf m.book.now m.shelf
        × IsTableKept m.book.now m.actor.state.core m.kept };
}

impl<'a> Member<'a> {
    // The core of this number in a run of so many rounds that has not begun.
    pub(crate) fn make(
        alloc: Global,
        book: &'a LiveBook,
        owners: &RowOwners,
        core: u32,
        rounds: u32,
    ) -> Result<Member<'a>, NoMemory>
        requires core { core < book.now.host.cores }
        requires few { rounds ≤ MAX_ROUNDS }
        requires owners { AreRowOwners book.now.plan owners.now }
        ensures { IfOk result (IsNewMember book.now rounds core) }
    {
        let actor = LiveActor::make_with(alloc, book, owners, CoreNo(core), rounds)?;
        Ok(Member {
            book,
            actor,
            shelf: CellShelf::of(book),
            kept: Kept::nothing(book),
        })
    }

    // What the core's actor keeps of its run.
    pub(crate) fn actor(&self) -> &LiveActor
        ensures { result.now ≡ self.now.actor }
    {
        &self.actor
    }

    // What the core's actor keeps of its run, without the rest.
    pub(crate) fn into_actor(self) -> LiveActor
        ensures { result ≡ self.entry.actor }
    {
        let Member {
            book: _,
            actor,
            shelf: _,
            kept: _,
        } = self;
        actor
    }
}

impl<'a> Stepper for Member<'a> {
    ghost use Rattle.live_plan.specs.Players.{live_core_kind};
    ghost use Rattle.live_plan.specs.PlayerLaws.{live_core_lawful};

    ghost kind = { live_core_kind };

    ghost lawful = { live_core_lawful };

    #[inline(always)]
    fn number(&self) -> u32 {
        self.actor.core
    }

    #[inline(always)]
    fn place(&self) -> u32 {
        self.actor.clock()
    }

    #[inline(always)]
    fn step(&mut self, board: &RoundBoard, seat: &mut RoundSeat) -> Turn {
        match step_keeping(
            board,
            seat,
            &mut self.actor,
            self.book,
            &mut self.shelf,
            &mut self.kept,
        ) {
            LiveAnswer::Ran(_) => Turn::Moved,
            LiveAnswer::Behind { who: _, tick: _ } => Turn::Waits,
            LiveAnswer::NotMade { change: _ } => Turn::Waits,
            LiveAnswer::Stopped { change: _ } => Turn::Stopped,
            LiveAnswer::Finished => Turn::Ended,
        }
    }

    // By what its steps found last.
    #[inline(always)]
    fn run_on<P: Pass>(
        &mut self,
        board: &RoundBoard,
        seat: &mut RoundSeat,
        passing: &mut P,
        limit: u32,
    ) {
        run_further(
            board,
            seat,
            passing,
            limit,
            &mut self.actor,
            self.book,
            &self.kept,
        );
    }
}

impl<'a> CoreStepper for Member<'a> {
    ghost use Rattle.live_plan.specs.PlayerLaws.{live_core_short};

    ghost is_short = { live_core_short };
}
