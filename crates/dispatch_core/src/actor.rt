ghost use Rattle.std.specs.Prelude.{◌≡◌, ◌<◌, IfOk};
ghost use Rattle.table_form.specs.Running.Courses.{FitsRounds, outline_of};
ghost use Rattle.round_words.specs.declared.view.View.{View as ViewValue};
ghost use Rattle.round_words.specs.Shown.{HoldsCore};
ghost use Rattle.round_words.specs.Views.{part};
ghost use Rattle.dispatch_core.specs.Parts.{IsNewPart, IsOfOutline};
ghost use Rattle.dispatch_core.specs.States.{AgreesWith};

use crate::state::CoreState;
use run_counts::CoreAccount;
use slice_table::CoreSlices;
use std::alloc::Global;
use std::marker::Model;
use tab_core::{CoreNo, NoMemory, Stint};
use table_form::Course;

/// Who takes a core's steps by a course. Contracts see the course and the state that it keeps.
#[derive(Drop)]
pub struct CoreActor<'a> {
    pub(crate) course: &'a Course,
    pub(crate) slices: CoreSlices,
    pub(crate) state: CoreState,
}

impl<'a> Model for CoreActor<'a> {
    ghost use Rattle.slice_table.specs.CoreSlices.{AreSlicesOf};
    ghost use Rattle.dispatch_core.specs.States.{ActorView, actor_view};

    ghost Value = { ActorView };

    ghost view = { λ a. actor_view a.course.now a.state };

    ghost invariant = { λ a. AreSlicesOf a.course.now a.state.core a.slices };
}

impl CoreActor<'_> {
    /// The actor of a core that has done nothing yet: it has the core's slice tables, and room for the used count of
    /// each round and for so many stints.
    ///
    /// It agrees with the core's part of each view that was started for the course, if that part is one to which
    /// nothing has happened. A run of so many rounds has all events of the course. Fails only when memory runs
    /// out.
    pub fn make(
        alloc: Global,
        course: &Course,
        core: CoreNo,
        rounds: u32,
        keep: u32,
    ) -> Result<CoreActor<'_>, NoMemory>
        requires core { core < course.now.cores }
        requires fits { FitsRounds course.now rounds }
        ensures course { IfOk result (λ a. a.course ≡ course.now) }
        ensures same { IfOk result (λ a. (a.state.core ≡ core) × (a.state.rounds ≡ rounds) × (a.state.keep ≡ keep)) }
        ensures agrees { IfOk result (λ a. (v : ViewValue) → IsOfOutline (outline_of course.now) v → HoldsCore v core
            → IsNewPart (part v core)
            → AgreesWith course.now a.state v) }
    {
        let slices = CoreSlices::make(alloc, course, core)?;
        let state = CoreState::make(alloc, course.outline(), core, rounds, keep)?;
        Ok(CoreActor {
            course,
            slices,
            state,
        })
    }

    /// In how many ticks the core ran whom.
    pub fn account(&self) -> &CoreAccount
        ensures { result.now ≡ self.now.state.account }
    {
        self.state.account()
    }

    /// The used count of each round that the core entered.
    pub fn used(&self) -> &[u32]
        ensures { result.now ≡ self.now.state.used }
    {
        self.state.used()
    }

    /// The stints that are kept, which are the core's first ones.
    pub fn stints(&self) -> &[Stint]
        ensures { result.now ≡ self.now.state.stints }
    {
        self.state.stints()
    }
}
