ghost use Rattle.std.specs.Prelude.{◌≡◌, ◌++◌, ◌<◌, ◌^◌, [], ◌∷◌, IfOk, IsErrOf, List, OnOk, Option, length, ℕ};
ghost use Rattle.std.specs.List.{All};
ghost use Rattle.tab_core.specs.declared.periodic.Periodic.{Periodic};
ghost use Rattle.tab_words.specs.Texts.{worded};
ghost use Rattle.table_form.specs.declared.segment.Segment.{Segment};
ghost use Rattle.plan_text.specs.FirstBad.{IsFirstBadFor};
ghost use Rattle.plan_text.specs.Meaning.{IsFineSegment, IsSomePlan, IsTextOfRows};
ghost use Rattle.plan_text.specs.RowReading.{HasRead};
ghost use Rattle.plan_text.specs.declared.read_fault.ReadPlan.{ReadPlan};
ghost use Rattle.vcpu_names.specs.Names.{names_of};

use crate::lines_left::LinesLeft;
use crate::read_cores::{read_end, read_row};
use crate::read_fault::ReadPlan;
use crate::read_front::read_front;
use std::alloc::Global;
use std::marker::Model;
use std::mem;
use tab_core::{Host, Periodic, Tasks};
use table_form::Segment;
use vcpu_names::Names;

/// A plan text whose rows are read one after the other, of which none is kept.
///
/// It reads what `read_plan` reads, in memory for the vCPUs alone. The rows come in the
/// order of the cores' numbers, then the end. Contracts see what is left of the text; `HasRead` says
/// which rows of which text have been read.
#[derive(Drop)]
pub struct RowReader<'a> {
    left: LinesLeft<'a>,
    names: Names<'a>,
    tasks: &'a [Option<Periodic>],
    alloc: Global,
}

impl<'a> Model for RowReader<'a> {
    ghost use Rattle.std.specs.Prelude.{◌≡◌, length};
    ghost use Rattle.plan_text.specs.Names.{AreHostNames};
    ghost use Rattle.plan_text.specs.RowReading.{RowsLeft};

    ghost Value = { RowsLeft };

    ghost view = { λ reader. record { names = reader.names; tasks = reader.tasks.now; left = reader.left } };

    ghost invariant = { λ reader. AreHostNames reader.names
        × (length reader.names ≡ length reader.tasks.now) };
}

impl<'a> RowReader<'a> {
    /// Reads the first line and those of the vCPUs of a text of less than 2^32 bytes, for this host and
    /// these tasks, of which it has one exactly for each admitted vCPU.
    ///
    /// `BadLine` names the first bad line of the text, as `read_plan` does. The only other fault is out
    /// of memory.
    pub fn of(
        alloc: Global,
        bytes: &'a [u8],
        host: &'a Host,
        tasks: &'a Tasks,
    ) -> Result<RowReader<'a>, ReadPlan>
        requires named { length tasks.now ≡ length host.now.vcpus }
        requires short { length bytes.now < 2 ^ 32 }
        ensures ok { IfOk result (λ reader. HasRead (names_of host.now.vcpus) host.now.cores tasks.now
            bytes.now [] reader) }
        ensures bad_line { (bad : ℕ) → IsErrOf result (ReadPlan.BadLine bad)
            → IsFirstBadFor (IsSomePlan (names_of host.now.vcpus) host.now.cores tasks.now) 1
            (worded bytes.now) bad }
    {
        let front = read_front(alloc, bytes, host, tasks)?;
        let names = Names::of(alloc, host.vcpus.items())?;
        Ok(RowReader {
            left: front.left,
            names,
            tasks: tasks.items(),
            alloc,
        })
    }

    /// Reads the row of the core with this number, the next of the host's, into `row` in place of what it
    /// held. Memory is allocated only where that of `row` doesn't suffice.
    ///
    /// `BadLine` names the first bad line of the text. After a fault nothing is known of the reader and
    /// the row.
    pub fn read_row(&mut self, core: u32, row: &mut Vec<Segment>) -> Result<(), ReadPlan>
        ensures ok { OnOk result ((names : List (List ℕ)) (cores : ℕ) (tasks : List (Option Periodic))
            (bytes : List ℕ) (rows : List (List Segment)) → length rows ≡ core → core < cores
            → HasRead names cores tasks bytes rows self.old
            → HasRead names cores tasks bytes (rows ++ row.new.items ∷ []) self.new) }
        ensures fine { OnOk result (All (IsFineSegment self.old.tasks) row.new.items) }
        ensures bad_line { (bad : ℕ) → IsErrOf result (ReadPlan.BadLine bad)
            → (names : List (List ℕ)) (cores : ℕ) (tasks : List (Option Periodic)) (bytes : List ℕ)
            (rows : List (List Segment)) → length rows ≡ core → core < cores
            → HasRead names cores tasks bytes rows self.old
            → IsFirstBadFor (IsSomePlan names cores tasks) 1 (worded bytes) bad }
    {
        let mut empty = mem::replace(row, Vec::new(self.alloc));
        empty.clear();
        *row = read_row(&mut self.left, &self.names, self.tasks, core, empty)?;
        Ok(())
    }

    /// Reads the end, after the rows of all cores.
    ///
    /// `BadLine` names the first bad line of the text. After a fault nothing is known of the reader.
    pub fn read_end(&mut self) -> Result<(), ReadPlan>
        ensures ok { OnOk result ((names : List (List ℕ)) (cores : ℕ) (tasks : List (Option Periodic))
            (bytes : List ℕ) (rows : List (List Segment)) → length rows ≡ cores
            → HasRead names cores tasks bytes rows self.old → IsTextOfRows names cores tasks bytes rows) }
        ensures bad_line { (bad : ℕ) → IsErrOf result (ReadPlan.BadLine bad)
            → (names : List (List ℕ)) (cores : ℕ) (tasks : List (Option Periodic)) (bytes : List ℕ)
            (rows : List (List Segment)) → length rows ≡ cores
            → HasRead names cores tasks bytes rows self.old
            → IsFirstBadFor (IsSomePlan names cores tasks) 1 (worded bytes) bad }
    {
        read_end(&mut self.left)
    }
}
