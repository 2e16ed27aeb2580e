ghost use Rattle.std.specs.Prelude.{◌≡◌};
ghost use Rattle.table_form.specs.Running.Courses.{outline_of};
ghost use Rattle.round_words.specs.Changes.{ChangesOnly};
ghost use Rattle.round_words.specs.Seats.{view_of, IsSeatOf};
ghost use Rattle.round_words.specs.Views.{controller as the_controller};
ghost use Rattle.plan_switch.specs.Controllers.{ControlAgreesWith, HasPosted};
ghost use Rattle.plan_switch.specs.Told.{ControlTold};

use crate::answer::ControlAnswer;
use crate::controller::Controller;
use crate::state::ControlState;
use round_words::{RoundBoard, RoundSeat, hear_cores};
use table_form::Outline;

// the controller's number as an actor
const CONTROLLER: u32 = 32;

/// One step of the controller: it hears the cores that it doesn't know well enough, and posts the next event if no
/// clock is below its tick less the lag.
///
/// The seat holds the controller, and the controller agrees with its part, which it does again afterwards.
/// `Behind` comes only where a clock loaded in this call is below the next event's tick less the lag, and names the
/// lowest such core; then nothing was posted. `Finished` comes exactly where all events are posted.
pub fn control_step(
    board: &RoundBoard,
    seat: &mut RoundSeat,
    controller: &mut Controller<'_>,
) -> ControlAnswer
    requires board { IsSeatOf board.now seat.old }
    requires agrees { ControlAgreesWith controller.old.course controller.old.state (view_of seat.old) }
    ensures board { IsSeatOf board.now seat.new }
    ensures agrees { ControlAgreesWith controller.new.course controller.new.state (view_of seat.new) }
    ensures course { controller.new.course ≡ controller.old.course }
    ensures changes { ChangesOnly (view_of seat.old) (view_of seat.new) the_controller }
    ensures told { ControlTold (outline_of controller.old.course) controller.old.state.posted (view_of seat.old) result
        (view_of seat.new) }
{
    post_step(
        board,
        seat,
        controller.course.outline(),
        &mut controller.state,
    )
}

/// One step of a controller of the outline's events, as `control_step` makes it, whatever the plans
/// are.
///
/// The seat holds the controller, and the state agrees with its part, which it does again afterwards.
/// `Behind` and `Finished` come as those of `control_step`.
pub fn post_step(
    board: &RoundBoard,
    seat: &mut RoundSeat,
    outline: &Outline,
    state: &mut ControlState,
) -> ControlAnswer
    requires board { IsSeatOf board.now seat.old }
    requires agrees { HasPosted outline.now state.old (view_of seat.old) }
    ensures board { IsSeatOf board.now seat.new }
    ensures agrees { HasPosted outline.now state.new (view_of seat.new) }
    ensures changes { ChangesOnly (view_of seat.old) (view_of seat.new) the_controller }
    ensures told { ControlTold outline.now state.old.posted (view_of seat.old) result (view_of seat.new) }
{
    if state.posted == outline.count() {
        return ControlAnswer::Finished;
    }
    let tick = outline.tick_of(state.posted);
    let (cores, lag) = (outline.cores(), outline.lag());
    match hear_cores(board, seat, CONTROLLER, &mut state.known, cores, lag, tick) {
        Some(low) => ControlAnswer::Behind {
            core: low.core,
            tick: low.clock,
        },
        None => {
            board.post(seat, tick.saturating_sub(lag));
            state.posted += 1;
            ControlAnswer::Posted {
                count: state.posted,
            }
        }
    }
}
