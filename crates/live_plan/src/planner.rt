ghost use Rattle.std.specs.Prelude.{◌≡◌, IfOk, false};
ghost use Rattle.live_plan.specs.Inside.Cells.{IsCellShelfOf};
ghost use Rattle.live_plan.specs.Planners.{IsPlannerOf, PlannerTold};

use crate::book::LiveBook;
use crate::cell_shelf::CellShelf;
use crate::made::Made;
use std::alloc::Global;
use std::marker::Model;
use tab_core::{Host, NoMemory};

/// What became of a step of the planner.
#[derive(Clone, Copy, PartialEq, Eq)]
pub enum PlannerAnswer {
    /// It planned this change, and put what it found.
    Told { change: u32 },
    /// Memory ran out for this change, which it put, and it plans nothing more.
    Stopped { change: u32 },
    /// All changes were reported, or one stopped.
    Finished,
}

/// Who plans the changes of a live book, one after the other. Contracts see the values of those that are
/// left, the last change first, the known host, the number of the next change, and whether memory ran out
/// for one.
#[derive(Drop)]
pub struct LivePlanner {
    pub(crate) left: Vec<Box<Made>>,
    pub(crate) standing: Host,
    pub(crate) next: u32,
    pub(crate) stopped: bool,
}

impl Model for LivePlanner {
    ghost use Rattle.std.specs.Prelude.{map};
    ghost use Rattle.live_plan.specs.Planners.{PlannerView, planner_view};

    ghost Value = { PlannerView };

    ghost view = { λ p. planner_view (map (λ made. made.value) p.left.items) p.standing p.next p.stopped };
}

impl LivePlanner {
    /// The planner of the book that has planned no change. Fails only when memory runs out.
    pub fn make(alloc: Global, book: &LiveBook) -> Result<LivePlanner, NoMemory>
        ensures planner { IfOk result (IsPlannerOf book.now) }
        ensures first { IfOk result (λ p. p.next ≡ 0) }
        ensures going { IfOk result (λ p. p.stopped ≡ false) }
    {
        let count = book.changes().len();
        let mut left = Vec::with_capacity(alloc, count)?;
        for done in 0..count {
            let made = Made::blank(alloc, book, (count - 1 - done) as u32)?;
            left.push(Box::new(alloc, made)?)?;
        }
        Ok(LivePlanner {
            left,
            standing: book.host().copy(alloc)?,
            next: 0,
            stopped: false,
        })
    }

    /// The number of the next change.
    pub fn next(&self) -> u32
        ensures { result ≡ self.now.next }
    {
        self.next
    }

    /// Whether memory ran out for a change, which is the one before the next.
    pub fn has_stopped(&self) -> bool
        ensures { result ≡ self.now.stopped }
    {
        self.stopped
    }
}

/// One step of the planner: it plans the next change, and puts what it found into that change's cell.
///
/// The planner and the shelf are of the book, and the shelf was handed the values of the changes before. After it
/// the cells of all planned changes are full.
///
/// `Stopped` comes exactly where the value that was put is out of memory, and `Told` exactly where it isn't.
/// `Finished` comes exactly where all changes were reported or one stopped.
pub fn planner_step(
    alloc: Global,
    book: &LiveBook,
    planner: &mut LivePlanner,
    shelf: &mut CellShelf,
) -> PlannerAnswer
    requires planner { IsPlannerOf book.now planner.old }
    requires shelf { IsCellShelfOf book.now shelf.old }
    requires puts { shelf.old.puts ≡ planner.old.next }
    ensures planner { IsPlannerOf book.now planner.new }
    ensures shelf { IsCellShelfOf book.now shelf.new }
    ensures puts { shelf.new.puts ≡ planner.new.next }
    ensures told { PlannerTold book.now planner.old shelf.old result planner.new shelf.new }
{
    if planner.stopped {
        return PlannerAnswer::Finished;
    }
    match planner.left.pop() {
        None => PlannerAnswer::Finished,
        Some(mut made) => {
            let change = planner.next;
            made.fill_from(alloc, &mut planner.standing);
            let stopped = made.found().is_stopped();
            let _ = shelf.put(book, made);
            planner.next = change + 1;
            planner.stopped = stopped;
            if stopped {
                return PlannerAnswer::Stopped { change };
            }
            PlannerAnswer::Told { change }
        }
    }
}
