ghost use Rattle.std.specs.Prelude.{◌≡◌, ◌<◌, ℕ, IfOk, Some, length, slice_index};
ghost use Rattle.table_form.specs.Running.Courses.{FitsRounds, IsCourse};
ghost use Rattle.round_words.specs.declared.view.View.{View as ViewValue};
ghost use Rattle.dispatch_core.specs.States.{StateView};
ghost use Rattle.round_words.specs.Seats.{view_of, IsSeatOf};
ghost use Rattle.crew_turns.specs.Going.{SameActors};
ghost use Rattle.core_workers.specs.Crews.{AllAgree, HeldFinished, HoldsAll, IsCrew, IsNewView, IsSameCrew, IsWhole};
ghost use Rattle.core_workers.specs.Views.{actor_of};
ghost use Rattle.core_workers.specs.Waiting.{IsCrewAtRest};
ghost use Rattle.core_workers.specs.Inside.Making.{ArePlayersNew};

use crate::lead::Lead;
use crate::member::Member;
use crew_turns::{Gate, Player, Site, drive_all};
use dispatch_core::CoreState;
use round_words::{RoundBoard, RoundSeat};
use slice_table::course_owners;
use std::alloc::Global;
use std::marker::Model;
use tab_core::{CoreNo, NoMemory};
use table_form::Course;

/// All actors of a run: one for each core, and the controller.
#[derive(Drop)]
pub struct Crew<'a> {
    pub(crate) course: &'a Course,
    pub(crate) rounds: u32,
    pub(crate) cores: Vec<Player<Member<'a>>>,
    pub(crate) lead: Player<Lead<'a>>,
}

impl<'a> Model for Crew<'a> {
    ghost use Rattle.core_workers.specs.Inside.Players.{ArePlayers};
    ghost use Rattle.core_workers.specs.Views.{CrewView, crew_view};

    ghost Value = { CrewView };

    ghost view = { λ c. crew_view c.course.now c.rounds c.cores.items c.lead };

    ghost invariant = { λ c. ArePlayers c.course.now c.rounds c.cores.items c.lead };
}

impl<'a> Crew<'a> {
    /// The actors of a run of so many rounds that has not begun. `keep` says for each core how many stints are kept.
    ///
    /// A run of so many rounds has all events of the course. Fails only when memory runs out.
    pub fn make(
        alloc: Global,
        course: &'a Course,
        rounds: u32,
        keep: &[u32],
    ) -> Result<Crew<'a>, NoMemory>
        requires fits { FitsRounds course.now rounds }
        requires count { length keep.now ≡ course.now.cores }
        ensures same { IfOk result (λ c. (c.course ≡ course.now) × (c.rounds ≡ rounds)) }
        ensures agree { IfOk result (λ c. (v : ViewValue) → IsNewView course.now v → AllAgree c v) }
        ensures keeps { IfOk result (λ c. (core : ℕ) (a : StateView) → actor_of c core ≡ Some a
            → a.keep ≡ slice_index keep.now core) }
    {
        let cores = make_cores(alloc, course, rounds, keep)?;
        let lead = Player::of(Lead::make(course));
        Ok(Crew {
            course,
            rounds,
            cores,
            lead,
        })
    }

    /// For proofs: the crew has an actor for each core of its course. It does nothing.
    pub fn shown(&self)
        ensures { IsCrew self.now × IsWhole self.now }
    {
        let _ = &self.cores;
    }

    /// The course that is run.
    pub fn course(&self) -> &Course
        ensures { result.now ≡ self.now.course }
    {
        self.course
    }

    /// What the core's actor keeps of its run.
    pub fn actor(&self, core: CoreNo) -> &CoreState
        requires { core < self.now.course.cores }
        ensures { actor_of self.now core ≡ Some result.now }
    {
        let number = core.index();
        self.cores[number].actor.state()
    }
}

// The cores' actors, by number.
fn make_cores<'a>(
    alloc: Global,
    course: &'a Course,
    rounds: u32,
    keep: &[u32],
) -> Result<Vec<Player<Member<'a>>>, NoMemory>
    requires fits { FitsRounds course.now rounds }
    requires count { length keep.now ≡ course.now.cores }
    ensures made { IfOk result (λ cores. ArePlayersNew course.now rounds keep.now cores.items
        × (length cores.items ≡ course.now.cores)) }
    ensures kept { IfOk result (λ _. IsCourse course.now) }
{
    let owners = course_owners(alloc, course)?;
    let mut cores = Vec::with_capacity(alloc, course.cores() as usize)?;
    for core in 0..course.cores() {
        let kept = keep[core as usize];
        let member = Member::make(alloc, course, &owners, core, rounds, kept)?;
        cores.push_reserved(Player::of(member));
    }
    Ok(cores)
}

/// Turns of those actors whose parts the seat holds, until all of them have finished, or none of them gets on in
/// `PATIENCE` turns in a row.
///
/// In a turn the core of least clock runs on, as far above that clock as others seldom keep it waiting (`Guess`), or until
/// it is stuck where it is the only one. The controller makes a step once in as many turns as there are cores, and in
/// each turn in which none of them gets on, until it has posted all. The gate is passed before each step, also before
/// the one that finds that its actor has finished.
///
/// Each actor agrees with its part, which it does again afterwards. At the end the actors that the seat holds are at
/// rest. Its cores have finished, or one of least clock among them waits: the last that it did, in this call, was to
/// find an event that is due not posted, or another core's clock too low for its next stint. The controller, if the
/// seat holds it, has posted all events, or so waits for a core. Where the seat holds all parts, every actor has
/// finished.
pub fn drive<G: Gate>(board: &RoundBoard, seat: &mut RoundSeat, crew: &mut Crew<'_>, gate: &G)
    requires board { IsSeatOf board.now seat.old }
    requires agree { AllAgree crew.old (view_of seat.old) }
    ensures board { IsSeatOf board.now seat.new }
    ensures agree { AllAgree crew.new (view_of seat.new) }
    ensures same { IsSameCrew crew.old crew.new }
    ensures actors { SameActors (view_of seat.old) (view_of seat.new) }
    ensures rests { IsCrewAtRest crew.new (view_of seat.old) (view_of seat.new) }
    ensures finished { HoldsAll crew.old (view_of seat.old) → HeldFinished crew.new (view_of seat.new) }
{
    let site = Site {
        board,
        lag: crew.course.lag(),
        gate,
    };
    drive_all(&site, seat, &mut crew.cores, &mut crew.lead);
}
