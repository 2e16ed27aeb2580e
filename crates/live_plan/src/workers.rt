ghost use Rattle.std.specs.Prelude.{◌≡◌, ℕ, IfNone, Some, vec_capacity};
ghost use denote.Param.Send.{IsSync};
ghost use Rattle.table_form.specs.Running.Courses.{CourseView, IsCourse};
ghost use Rattle.table_form.specs.Running.Complete.{IsComplete};
ghost use Rattle.table_form.specs.Running.Invariant.{StateInvariant};
ghost use Rattle.table_form.specs.Promises.Run.{KeepsPromises};
ghost use Rattle.round_words.specs.Seats.{view_of, IsSeatOf};
ghost use Rattle.run_state.specs.Readings.{state_of};
ghost use Rattle.crew_turns.specs.Going.{SameActors};
ghost use Rattle.crew_turns.specs.Troops.{AllHaveEnded, AreAgreed, AreHeld, AreSame};
ghost use Rattle.live_plan.specs.Actors.{LiveActorView};
ghost use Rattle.live_plan.specs.Courses.{IsLiveCourse};
ghost use Rattle.live_plan.specs.Crews.{HasPlanned, HaveFinished, HoldsLiveCrew, IsCrewOf, IsMakerOf, LiveCrewAgrees, StoppedAt, live_actor_of, planner_of};
ghost use Rattle.live_plan.specs.Players.{live_core_kind, live_lead_kind};

use crate::book::LiveBook;
use crate::crew::LiveCrew;
use crate::lead::Lead;
use crate::maker::{Maker, plan_all};
use crate::member::Member;
use crew_turns::{Gate, Player, Rest, Site, drive_all, work_beside};
use round_words::{RoundBoard, RoundSeat};
use std::alloc::Global;
use std::sync::Wait;
use std::sync::atomic::AtomicBool;
use std::sync::atomic::Ordering::SeqCst;
use std::thread::{Threads, join};
use std::time::Clock;

// All cores and the controller go on together until they have ended, but not where memory ran out for a change.
fn finish<R: Wait, G: Gate>(
    rt: &R,
    site: &Site<'_, G>,
    seat: &mut RoundSeat,
    members: &mut [Player<Member<'_>>],
    lead: &mut Player<Lead<'_>>,
    stopped: Option<u32>,
)
    requires board { IsSeatOf site.now.board.now seat.old }
    requires agreed { AreAgreed live_core_kind live_lead_kind members.old lead.old (view_of seat.old) }
    ensures board { IsSeatOf site.now.board.now seat.new }
    ensures agreed { AreAgreed live_core_kind live_lead_kind members.new lead.new (view_of seat.new) }
    ensures same { AreSame live_core_kind live_lead_kind members.old lead.old members.new lead.new }
    ensures actors { SameActors (view_of seat.old) (view_of seat.new) }
    ensures ended { IfNone stopped (AllHaveEnded live_core_kind live_lead_kind members.new lead.new (view_of seat.new)) }
{
    if stopped.is_some() {
        return;
    }
    for _ in rt.forever() {
        match drive_all(site, seat, members, lead) {
            Rest::Ended => return,
            Rest::Waits | Rest::Stopped => {}
        }
    }
    unreachable!()
}

/// The whole live run: the cores and the controller go on side by side as in `core_workers::run_all`, while the planner plans the
/// changes in the thread of the call. No waiting counts until all plans are made: a thread that waits then sleeps for 0.1 ms at a
/// time. At last all seats meet, and all but the planner go on together until they have finished, or not at all where memory ran
/// out for a change.
///
/// The seat holds the parts of all cores and of the controller, with which the crew's actors agree, and the crew was
/// made of the book. It may wait for the threads that it has started, and at last for what is made of a change.
///
/// The third part is the change for which memory ran out, if it did. Whatever the threads did, the view that comes back
/// reads as a state that the machine's rules allow, by each course of the book. Where memory didn't run out it is
/// complete, it keeps all promises, and each core used the counts that were decided.
pub fn run_live<'a, R: Threads + Wait + Clock + Sync, G: Gate>(
    rt: &R,
    alloc: Global,
    board: &RoundBoard,
    seat: RoundSeat,
    crew: LiveCrew<'a>,
    book: &'a LiveBook,
    gate: &G,
) -> (RoundSeat, LiveCrew<'a>, Option<u32>)
    requires board { IsSeatOf board.now seat }
    requires crew { IsCrewOf book.now crew }
    requires agree { LiveCrewAgrees book.now crew (view_of seat) }
    requires holds { HoldsLiveCrew crew (view_of seat) }
    ensures board { IsSeatOf board.now result.0 }
    ensures crew { IsCrewOf book.now result.1 }
    ensures rounds { result.1.rounds ≡ crew.entry.rounds }
    ensures agree { LiveCrewAgrees book.now result.1 (view_of result.0) }
    ensures holds { HoldsLiveCrew result.1 (view_of result.0) }
    ensures actors { SameActors (view_of seat) (view_of result.0) }
    ensures planned { HasPlanned book.now (planner_of result.1) }
    ensures stopped { StoppedAt (planner_of result.1) result.2 }
    ensures finished { IfNone result.2 (HaveFinished book.now result.1) }
    ensures kept { (course : CourseView) → IsLiveCourse book.now course
        → StateInvariant course result.1.rounds (state_of course (view_of result.0)) }
    ensures promises { (course : CourseView) → IsCourse course → IsLiveCourse book.now course
        → KeepsPromises course result.1.rounds (state_of course (view_of result.0)) }
    ensures complete { IfNone result.2 ((course : CourseView) → IsLiveCourse book.now course
        → IsComplete course result.1.rounds (state_of course (view_of result.0))) }
    ensures counts { IfNone result.2 ((course : CourseView) → IsLiveCourse book.now course
        → (c : ℕ) (a : LiveActorView) → live_actor_of result.1 c ≡ Some a
        → a.state.used ≡ (state_of course (view_of result.0)).decided) }
{
    let LiveCrew {
        rounds,
        members,
        lead,
        maker,
    } = crew;
    let lag = book.outline().lag();
    let planned = AtomicBool::new(false);
    let ready = &planned;
    let ((mut seat, mut members, mut lead), maker) = join(
        rt,
        move || -> (RoundSeat, Vec<Player<Member<'_>>>, Player<Lead<'_>>)
            requires { IsSync R.row × IsSync G.row × IsSeatOf board.now seat
                × AreHeld live_core_kind live_lead_kind members.items lead (view_of seat) }
            ensures { IsSeatOf board.entry.now result.0
                × AreHeld live_core_kind live_lead_kind result.1.items result.2 (view_of result.0)
                × AreSame live_core_kind live_lead_kind members.entry.items lead.entry result.1.items result.2
                × SameActors (view_of seat) (view_of result.0) }
        { work_beside(rt, &Site { board, lag, gate }, seat, members, lead, ready) },
        move || -> Maker
            requires { IsSync G.row × IsMakerOf book.now maker }
            ensures { IsMakerOf book.entry.now result × HasPlanned book.entry.now result.planner }
        {
            let maker = plan_all(alloc, book, maker, gate);
            ready.store(true, SeqCst);
            maker
        },
    );
    let stopped = maker.stopped_at(book);
    let site = Site { board, lag, gate };
    finish(rt, &site, &mut seat, &mut members, &mut lead, stopped);
    seat.shown();
    let crew = LiveCrew {
        rounds,
        members,
        lead,
        maker,
    };
    (seat, crew, stopped)
}
