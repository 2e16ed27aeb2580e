ghost use Rattle.std.specs.Prelude.{◌≡◌, ◌<◌, ◌≤◌, IfOk, None, Some, length, map};
ghost use Rattle.tab_core.specs.declared.TheConstants.{MAX_ROUNDS};
ghost use Rattle.round_words.specs.declared.view.View.{View as ViewValue};
ghost use Rattle.table_form.specs.Running.Courses.{FitsRounds};
ghost use Rattle.core_workers.specs.Crews.{IsNewView};
ghost use Rattle.live_plan.specs.Crews.{IsCrewOf, LiveCrewAgrees, StoppedAt, actors_of, bare, live_actor_of, planner_of};
ghost use Rattle.crew_turns.specs.declared.player.Player.{Player as PlayerOf};
ghost use Rattle.live_plan.specs.Inside.Crewing.{AreNewMembers};
ghost use Rattle.live_plan.specs.Players.{MemberView};

use crate::actor::LiveActor;
use crate::book::LiveBook;
use crate::lead::Lead;
use crate::maker::Maker;
use crate::member::Member;
use crew_turns::Player;
use slice_table::RowOwners;
use std::alloc::Global;
use std::marker::Model;
use tab_core::{CoreNo, NoMemory};

/// All actors of a live run: one for each core, the controller and the planner, each with a shelf of its own.
#[derive(Drop)]
pub struct LiveCrew<'a> {
    pub(crate) rounds: u32,
    pub(crate) members: Vec<Player<Member<'a>>>,
    pub(crate) lead: Player<Lead<'a>>,
    pub(crate) maker: Maker,
}

impl<'a> Model for LiveCrew<'a> {
    ghost use Rattle.live_plan.specs.Crews.{LiveCrewView, live_crew_view};

    ghost Value = { LiveCrewView };

    ghost view = { λ c. live_crew_view c.rounds c.members.items c.lead c.maker };
}

impl<'a> LiveCrew<'a> {
    /// The actors of a run of so many rounds that has not begun, by a live book.
    ///
    /// A run of so many rounds has all events of the book. Fails only when memory runs out.
    pub fn make(alloc: Global, book: &'a LiveBook, rounds: u32) -> Result<LiveCrew<'a>, NoMemory>
        requires fits { FitsRounds (bare book.now) rounds }
        ensures crew { IfOk result (IsCrewOf book.now) }
        ensures rounds { IfOk result (λ c. c.rounds ≡ rounds) }
        ensures agree { IfOk result (λ c. (v : ViewValue) → IsNewView (bare book.now) v → LiveCrewAgrees book.now c v) }
        ensures going { IfOk result (λ c. StoppedAt (planner_of c) None) }
    {
        let members = make_members(alloc, book, rounds)?;
        let maker = Maker::make(alloc, book)?;
        let controller = Lead::make(book);
        let lead = Player::of(controller);
        Ok(LiveCrew {
            rounds,
            members,
            lead,
            maker,
        })
    }

    /// What the core's actor keeps of its run.
    pub fn actor(&self, core: CoreNo) -> &LiveActor
        requires { core < length self.now.members }
        ensures { live_actor_of self.now core ≡ Some result.now }
    {
        let number = core.index();
        self.members[number].actor.actor()
    }

    /// The cores' actors, by core. Nothing of the crew refers to the book any more. Fails only when memory runs out.
    pub fn into_actors(self, alloc: Global) -> Result<Vec<LiveActor>, NoMemory>
        ensures { IfOk result (λ actors. actors.items ≡ actors_of self.entry) }
    {
        let LiveCrew {
            rounds: _,
            members,
            lead: _,
            maker: _,
        } = self;
        actors_in(alloc, members)
    }
}

// What the cores keep of their runs, by number.
fn actors_in(alloc: Global, members: Vec<Player<Member<'_>>>) -> Result<Vec<LiveActor>, NoMemory>
    ensures { IfOk result (λ actors. actors.items ≡ map (λ (p : PlayerOf MemberView). p.actor.actor) members.entry.items) }
{
    let mut actors = Vec::with_capacity(alloc, members.len())?;
    for player in members {
        actors.push(player.actor.into_actor())?;
    }
    Ok(actors)
}

// The cores, by number.
fn make_members<'a>(
    alloc: Global,
    book: &'a LiveBook,
    rounds: u32,
) -> Result<Vec<Player<Member<'a>>>, NoMemory>
    requires few { rounds ≤ MAX_ROUNDS }
    ensures { IfOk result (λ members. AreNewMembers book.now rounds members.items
        × (length members.items ≡ book.now.outline.cores)) }
{
    let owners = RowOwners::of(alloc, book.plan())?;
    let cores = book.outline().cores();
    let mut members = Vec::with_capacity(alloc, cores as usize)?;
    for core in 0..cores {
        let member = Member::make(alloc, book, &owners, core, rounds)?;
        let player = Player::of(member);
        members.push_reserved(player);
    }
    Ok(members)
}
