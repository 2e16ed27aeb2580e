ghost use Rattle.std.specs.Prelude.{◌≡◌, ◌<◌, ◌≤◌, IfOk};
ghost use Rattle.tab_core.specs.declared.TheConstants.{MAX_ROUNDS};
ghost use Rattle.round_words.specs.declared.view.View.{View as ViewValue};
ghost use Rattle.round_words.specs.Shown.{HoldsCore};
ghost use Rattle.round_words.specs.Views.{part};
ghost use Rattle.dispatch_core.specs.Parts.{IsNewPart, IsOfOutline};
ghost use Rattle.slice_table.specs.Owners.{AreRowOwners};
ghost use Rattle.live_plan.specs.Actors.{IsLiveActorOf, LiveAgrees};

use crate::book::LiveBook;
use crate::taken::Taken;
use dispatch_core::CoreState;
use run_counts::CoreAccount;
use slice_table::{RowOwners, SliceTable};
use std::alloc::Global;
use std::marker::Model;
use tab_core::{CoreNo, NoMemory};

/// Who takes a core's steps by a live book. It names no lifetime, so it can go to another thread.
///
/// Contracts see what it keeps of its core's run, the core's slice table of the host's plan, and what plan it
/// took last.
#[derive(Drop)]
pub struct LiveActor {
    pub(crate) core: u32,
    pub(crate) state: CoreState,
    pub(crate) table: SliceTable,
    pub(crate) taken: Taken,
}

impl Model for LiveActor {
    ghost use Rattle.std.specs.Prelude.{◌≡◌};
    ghost use Rattle.live_plan.specs.Actors.{LiveActorView, live_actor_view};

    ghost Value = { LiveActorView };

    ghost view = { λ a. live_actor_view a.state a.table a.taken };

    ghost invariant = { λ a. a.core ≡ a.state.core };
}

impl LiveActor {
    /// The actor of a core that has done nothing yet: it has the core's slice table of the host's plan, and
    /// room for the used count of each round.
    ///
    /// It agrees with the core's part of each view that was started for the book, if that part is one to
    /// which nothing has happened. Fails only when memory runs out.
    pub fn make(
        alloc: Global,
        book: &LiveBook,
        core: CoreNo,
        rounds: u32,
    ) -> Result<LiveActor, NoMemory>
        requires core { core < book.now.host.cores }
        requires few { rounds ≤ MAX_ROUNDS }
        ensures actor { IfOk result (IsLiveActorOf book.now) }
        ensures same { IfOk result (λ a. (a.state.core ≡ core) × (a.state.rounds ≡ rounds)
            × (a.state.keep ≡ 0)) }
        ensures agrees { IfOk result (λ a. (v : ViewValue) → IsOfOutline book.now.outline v → HoldsCore v core
            → IsNewPart (part v core)
            → LiveAgrees book.now a.state v) }
    {
        let owners = RowOwners::of(alloc, book.plan())?;
        LiveActor::make_with(alloc, book, &owners, core, rounds)
    }

    /// A live actor, where the owners in the rows of the host's plan are known.
    pub fn make_with(
        alloc: Global,
        book: &LiveBook,
        owners: &RowOwners,
        core: CoreNo,
        rounds: u32,
    ) -> Result<LiveActor, NoMemory>
        requires core { core < book.now.host.cores }
        requires owners { AreRowOwners book.now.plan owners.now }
        requires few { rounds ≤ MAX_ROUNDS }
        ensures actor { IfOk result (IsLiveActorOf book.now) }
        ensures same { IfOk result (λ a. (a.state.core ≡ core) × (a.state.rounds ≡ rounds)
            × (a.state.keep ≡ 0)) }
        ensures agrees { IfOk result (λ a. (v : ViewValue) → IsOfOutline book.now.outline v → HoldsCore v core
            → IsNewPart (part v core)
            → LiveAgrees book.now a.state v) }
    {
        let table = SliceTable::build_with(alloc, book.plan(), owners, core)?;
        let state = CoreState::make(alloc, book.outline(), core, rounds, 0)?;
        Ok(LiveActor {
            core: core.index() as u32,
            state,
            table,
            taken: Taken::first(),
        })
    }

    /// The core's clock, in ticks.
    pub fn clock(&self) -> u32
        ensures { result ≡ self.now.state.clock }
    {
        self.state.clock()
    }

    /// In how many ticks the core ran whom.
    pub fn account(&self) -> &CoreAccount
        ensures { result.now ≡ self.now.state.account }
    {
        self.state.account()
    }

    /// The used count of each round that the core entered.
    pub fn used(&self) -> &[u32]
        ensures { result.now ≡ self.now.state.used }
    {
        self.state.used()
    }
}
