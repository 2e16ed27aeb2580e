ghost use Rattle.std.specs.Prelude.{◌≡◌, ◌-◌, ◌<◌, ◌≤◌, ℕ, IfNone, IfOk, IfSome, Some, length, slice_get, slice_index};
ghost use Rattle.tab_core.specs.declared.TheConstants.{MAX_CORES, MAX_ROUNDS, MAX_VCPUS};
ghost use Rattle.table_form.specs.Running.Courses.{CourseView, outline_of};
ghost use Rattle.round_words.specs.declared.view.View.{View as ViewValue};
ghost use Rattle.round_words.specs.Shown.{HoldsCore};
ghost use Rattle.round_words.specs.Views.{part};
ghost use Rattle.dispatch_core.specs.Inside.Logs.{IsLog, IsNewLog};
ghost use Rattle.dispatch_core.specs.Parts.{IsNewPart, IsOfOutline};
ghost use Rattle.dispatch_core.specs.States.{AgreesWith, AgreesWithoutPlan};

use crate::log::CoreLog;
use round_words::HeardClocks;
use run_counts::CoreAccount;
use std::alloc::Global;
use std::marker::Model;
use tab_core::{CoreNo, NoMemory, Stint};
use table_form::Outline;

/// What is kept of a core's run, apart from the course: it names no lifetime, so it can go to another thread.
///
/// Contracts see the core, the count of rounds, how many stints are kept, the clock in ticks, the last shared
/// pick, the account, the used count of each entered round, the kept stints, and for each core the clock that was heard last.
#[derive(Drop)]
pub struct CoreState {
    pub(crate) log: CoreLog,
    // a guess at the number of the span that comes next; nothing is claimed of it
    pub(crate) place: u32,
}

impl Model for CoreState {
    ghost use Rattle.dispatch_core.specs.Inside.Logs.{IsLog, log_view};
    ghost use Rattle.dispatch_core.specs.States.{StateView};

    ghost Value = { StateView };

    ghost view = { λ s. log_view s.log };

    ghost invariant = { λ s. IsLog s.log };
}

impl CoreState {
    /// The state of a core that has done nothing yet, with room for the run's used counts and for so many stints.
    ///
    /// It agrees with the core's part of each view that was started for the outline, or for a course of that outline,
    /// if that part is one to which nothing has happened. Fails only when memory runs out.
    pub fn make(
        alloc: Global,
        outline: &Outline,
        core: CoreNo,
        rounds: u32,
        keep: u32,
    ) -> Result<CoreState, NoMemory>
        requires core { core < outline.now.cores }
        requires few { rounds ≤ MAX_ROUNDS }
        ensures same { IfOk result (λ s. (s.core ≡ core) × (s.rounds ≡ rounds) × (s.keep ≡ keep)) }
        ensures stands { IfOk result (λ s. (v : ViewValue) → IsOfOutline outline.now v → HoldsCore v core
            → IsNewPart (part v core)
            → AgreesWithoutPlan outline.now s v) }
        ensures agrees { IfOk result (λ s. (course : CourseView) (v : ViewValue) → outline_of course ≡ outline.now
            → IsOfOutline (outline_of course) v → HoldsCore v core
            → IsNewPart (part v core)
            → AgreesWith course s v) }
    {
        let log = new_log(alloc, outline, core.index() as u32, rounds, keep)?;
        Ok(CoreState { log, place: 0 })
    }

    /// The core's clock, in ticks.
    pub fn clock(&self) -> u32
        ensures { result ≡ self.now.clock }
    {
        self.log.clock
    }

    /// In how many ticks the core ran whom.
    pub fn account(&self) -> &CoreAccount
        ensures { result.now ≡ self.now.account }
    {
        &self.log.account
    }

    /// The used count of each round that the core entered.
    pub fn used(&self) -> &[u32]
        ensures { result.now ≡ self.now.used }
    {
        &self.log.used
    }

    /// The used count of the round that the core entered last. There is none where it has entered no round, or where the count
    /// is above the outline's events, which no run by that outline leads to.
    pub fn last_used(&self, outline: &Outline) -> Option<u32>
        ensures last { IfSome result (λ used. slice_get self.now.used (length self.now.used - 1) ≡ Some used) }
        ensures within { IfSome result (λ used. used ≤ length outline.now.ticks) }
        ensures none { IfNone result ((used : ℕ) → slice_get self.now.used (length self.now.used - 1) ≡ Some used
            → length outline.now.ticks < used) }
    {
        let rounds = self.log.used.len();
        if rounds == 0 {
            return None;
        }
        let used = self.log.used[rounds - 1];
        if used > outline.count() {
            return None;
        }
        Some(used)
    }

    /// The stints that are kept, which are the core's first ones.
    pub fn stints(&self) -> &[Stint]
        ensures { result.now ≡ self.now.stints }
    {
        &self.log.stints
    }
}

// Nothing has happened, and there is room.
fn new_log(
    alloc: Global,
    outline: &Outline,
    core: u32,
    rounds: u32,
    keep: u32,
) -> Result<CoreLog, NoMemory>
    requires small { core < MAX_CORES }
    requires few { rounds ≤ MAX_ROUNDS }
    ensures log { IfOk result (λ log. IsLog log × IsNewLog log) }
    ensures same { IfOk result (λ log. (log.core ≡ core) × (log.rounds ≡ rounds) × (log.keep ≡ keep)) }
{
    let used = Vec::with_capacity(alloc, rounds as usize)?;
    let stints = Vec::with_capacity(alloc, keep as usize)?;
    Ok(CoreLog {
        core,
        rounds,
        keep,
        clock: 0,
        last: None,
        account: CoreAccount {
            slots: no_ticks(),
            shared: no_ticks(),
            idle: 0,
        },
        used,
        stints,
        known: HeardClocks::new(core, outline.cores()),
    })
}

fn no_ticks() -> [u64; 256]
    ensures { (v : ℕ) → v < MAX_VCPUS → slice_index result v ≡ 0 }
{
    [0; 256]
}
