ghost use Rattle.std.specs.Prelude.{◌≡◌, length, true};
ghost use Rattle.round_words.specs.declared.view.View.{View as ViewValue};
ghost use Rattle.round_words.specs.Views.{IsStarted, controller as the_controller, holds, part};
ghost use Rattle.plan_switch.specs.Controllers.{HasPosted, IsNewControlPart};

use crate::book::LiveBook;
use crate::cell_shelf::CellShelf;
use crate::controller::{LiveControl, LiveController, live_control_step};
use crew_turns::{Stepper, Turn};
use round_words::{RoundBoard, RoundSeat};
use std::marker::Model;

// the controller's number as an actor
const CONTROLLER: u32 = 32;

/// The controller of a live run as one of a crew: the book, the controller and its shelf. Contracts see the book
/// and what the controller keeps.
#[derive(Drop)]
pub(crate) struct Lead<'a> {
    book: &'a LiveBook,
    controller: LiveController,
    shelf: CellShelf,
}

impl<'a> Model for Lead<'a> {
    ghost use Rattle.live_plan.specs.Inside.Cells.{IsCellShelfOf};
    ghost use Rattle.live_plan.specs.Players.{LeadView, lead_view};

    ghost Value = { LeadView };

    ghost view = { λ l. lead_view l.book.now l.controller };

    ghost invariant = { λ l. IsCellShelfOf l.book.now l.shelf };
}

impl<'a> Lead<'a> {
    // The controller that has posted no event.
    pub(crate) fn make(book: &'a LiveBook) -> Lead<'a>
        ensures book { result.book ≡ book.now }
        ensures agrees { (v : ViewValue)
            → IsStarted book.now.outline.lag book.now.outline.cores (length book.now.outline.ticks) v
            → holds v the_controller ≡ true → IsNewControlPart (part v the_controller)
            → HasPosted book.now.outline result.control v }
    {
        Lead {
            book,
            controller: LiveController::make(book),
            shelf: CellShelf::of(book),
        }
    }
}

impl<'a> Stepper for Lead<'a> {
    ghost use Rattle.live_plan.specs.Players.{live_lead_kind};
    ghost use Rattle.live_plan.specs.PlayerLaws.{live_lead_lawful};

    ghost kind = { live_lead_kind };

    ghost lawful = { live_lead_lawful };

    #[inline(always)]
    fn number(&self) -> u32 {
        CONTROLLER
    }

    #[inline(always)]
    fn place(&self) -> u32 {
        self.controller.posted()
    }

    #[inline(always)]
    fn step(&mut self, board: &RoundBoard, seat: &mut RoundSeat) -> Turn {
        match live_control_step(
            board,
            seat,
            &mut self.controller,
            self.book,
            &mut self.shelf,
        ) {
            LiveControl::Posted { count: _ } => Turn::Moved,
            LiveControl::Behind { core: _, tick: _ } => Turn::Waits,
            LiveControl::NotMade { change: _ } => Turn::Waits,
            LiveControl::Stopped { change: _ } => Turn::Stopped,
            LiveControl::Finished => Turn::Ended,
        }
    }
}
