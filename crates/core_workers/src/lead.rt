ghost use Rattle.std.specs.Prelude.{◌≡◌, length, true};
ghost use Rattle.round_words.specs.declared.view.View.{View as ViewValue};
ghost use Rattle.round_words.specs.Views.{IsStarted, controller as the_controller, holds, part};
ghost use Rattle.plan_switch.specs.Controllers.{ControlAgreesWith, IsNewControlPart};

use crew_turns::{Stepper, Turn};
use plan_switch::{ControlAnswer, Controller, control_step};
use round_words::{RoundBoard, RoundSeat};
use std::marker::Model;
use table_form::Course;

// the controller's number as an actor
const CONTROLLER: u32 = 32;

/// The controller as one of a crew.
#[derive(Drop)]
pub(crate) struct Lead<'a> {
    controller: Controller<'a>,
}

impl<'a> Model for Lead<'a> {
    ghost use Rattle.plan_switch.specs.Controllers.{ControllerView};

    ghost Value = { ControllerView };

    ghost view = { λ l. l.controller };
}

impl<'a> Lead<'a> {
    // The controller that has posted no event.
    pub(crate) fn make(course: &'a Course) -> Lead<'a>
        ensures course { result.course ≡ course.now }
        ensures agrees { (v : ViewValue)
            → IsStarted course.now.lag course.now.cores (length course.now.ticks) v
            → holds v the_controller ≡ true → IsNewControlPart (part v the_controller)
            → ControlAgreesWith course.now result.state v }
    {
        Lead {
            controller: Controller::make(course),
        }
    }
}

impl<'a> Stepper for Lead<'a> {
    ghost use Rattle.core_workers.specs.Actors.{lead_kind};
    ghost use Rattle.core_workers.specs.ActorLaws.{lead_lawful};

    ghost kind = { lead_kind };

    ghost lawful = { lead_lawful };

    #[inline(always)]
    fn number(&self) -> u32 {
        CONTROLLER
    }

    #[inline(always)]
    fn place(&self) -> u32 {
        self.controller.posted()
    }

    #[inline(always)]
    fn step(&mut self, board: &RoundBoard, seat: &mut RoundSeat) -> Turn {
        match control_step(board, seat, &mut self.controller) {
            ControlAnswer::Posted { count: _ } => Turn::Moved,
            ControlAnswer::Behind { core: _, tick: _ } => Turn::Waits,
            ControlAnswer::Finished => Turn::Ended,
        }
    }
}
