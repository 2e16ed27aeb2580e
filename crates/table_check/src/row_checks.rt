ghost use Rattle.std.specs.Prelude.{◌↔◌, ◌≡◌, ◌≤◌, IfOk, IsTrue, List, [], ◌∷◌, ◌++◌, Option, false, length, true};
ghost use Rattle.tab_core.specs.declared.TheConstants.{MAX_VCPUS};
ghost use Rattle.tab_core.specs.declared.periodic.Periodic.{Periodic};
ghost use Rattle.table_form.specs.declared.segment.Segment.{Segment};
ghost use Rattle.table_check.specs.Faults.{AreGood};
ghost use Rattle.table_check.specs.Seen.{HaveSeen};

use crate::counters::{MAX_PERIODS, add_row};
use crate::marks::{WORDS, mark_row};
use crate::shortage::first_shortage;
use std::alloc::Global;
use std::marker::Model;
use tab_core::{MAX_CORES, NoMemory, Periodic};
use table_form::{Segment, first_bad_place};

/// What is seen of rows as they come, of which none is kept: the ticks at which each vCPU is in one of
/// them, and how many ticks each gets in each of its periods. That takes 17 KB for each vCPU, however
/// many segments the rows have.
#[derive(Drop)]
pub struct RowChecks<'a> {
    tasks: &'a [Option<Periodic>],
    marks: Vec<u64>,
    counters: Vec<u32>,
    taken: u32,
}

impl<'a> Model for RowChecks<'a> {
    ghost use Rattle.table_check.specs.Seen.{Seen};
    ghost use Rattle.table_check.specs.Inside.Counters.{CountersHaveRoom};

    ghost Value = { Seen };

    ghost view = { λ c. record { tasks = c.tasks.now; marks = c.marks.items; counters = c.counters.items } };

    ghost invariant = { λ c. CountersHaveRoom c.tasks.now c.taken c.counters.items };
}

impl<'a> RowChecks<'a> {
    /// The checks of rows for these tasks, of which none has come yet.
    pub fn of(alloc: Global, tasks: &'a [Option<Periodic>]) -> Result<RowChecks<'a>, NoMemory>
        requires { length tasks.now ≤ MAX_VCPUS }
        ensures { IfOk result (λ checks. HaveSeen tasks.now [] checks) }
    {
        Ok(RowChecks {
            tasks,
            marks: vec![in alloc; 0u64; tasks.len() * WORDS]?,
            counters: vec![in alloc; 0u32; tasks.len() * MAX_PERIODS]?,
            taken: 0,
        })
    }

    /// Takes the row that these segments make.
    ///
    /// False where they make none, or a vCPU is in it at a tick at which it is in a row that was taken;
    /// false too at an owner that isn't below the count of the tasks, and after 32 rows. The row isn't
    /// taken then, but some of its ticks may stay marked, so that a later row is refused for them.
    pub fn take_row(&mut self, segments: &[Segment]) -> bool
        ensures taken { result ≡ true → (tasks : List (Option Periodic)) (raw : List (List Segment))
            → HaveSeen tasks raw self.old → HaveSeen tasks (raw ++ segments.now ∷ []) self.new }
        ensures refused { result ≡ false → (tasks : List (Option Periodic)) (raw : List (List Segment))
            → HaveSeen tasks raw self.old → HaveSeen tasks raw self.new }
    {
        if self.taken >= MAX_CORES || first_bad_place(segments).is_some() {
            return false;
        }
        if !mark_row(&mut self.marks, segments) {
            return false;
        }
        add_row(&mut self.counters, self.tasks, segments);
        self.taken += 1;
        true
    }

    /// Whether the rows that were taken are good: they give each task its cost in each of its periods.
    pub fn are_good(&self) -> bool
        ensures { (tasks : List (Option Periodic)) (raw : List (List Segment)) → HaveSeen tasks raw self.now
            → (IsTrue result ↔ AreGood tasks raw) }
    {
        first_shortage(&self.counters, self.tasks).is_none()
    }
}
