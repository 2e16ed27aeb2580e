ghost use Rattle.std.specs.Prelude.{◌≡◌, ◌<◌, ◌^◌, [], ◌∷◌, ◌++◌, IfOk, OnOk, length};
ghost use Rattle.plan_book.specs.Inside.Making.{known_of};

use crate::book_so_far::BookSoFar;
use std::alloc::Global;
use tab_core::{NoMemory, VcpuSet};

// For each count of first events the number of the plan and the runnable vCPUs.
#[derive(Drop)]
pub(crate) struct Counts {
    pub(crate) numbers: Vec<u32>,
    pub(crate) runnable: Vec<VcpuSet>,
}

impl Counts {
    // Nothing yet, with room for so many counts.
    pub(crate) fn with_room(alloc: Global, counts: usize) -> Result<Counts, NoMemory>
        ensures numbers { IfOk result (λ made. made.numbers.items ≡ []) }
        ensures runnable { IfOk result (λ made. made.runnable.items ≡ []) }
    {
        Ok(Counts {
            numbers: Vec::with_capacity(alloc, counts)?,
            runnable: Vec::with_capacity(alloc, counts)?,
        })
    }

    // Adds the next count, of which this is known.
    pub(crate) fn add(&mut self, so_far: &BookSoFar) -> Result<(), NoMemory>
        requires some { 0 < length so_far.now.plans.items }
        requires few { length so_far.now.plans.items < 2 ^ 32 }
        ensures numbers { OnOk result (self.new.numbers.items
            ≡ self.old.numbers.items ++ (known_of so_far.now).number ∷ []) }
        ensures runnable { OnOk result (self.new.runnable.items ≡ self.old.runnable.items
            ++ so_far.now.runnable ∷ []) }
    {
        self.numbers.push(so_far.number())?;
        self.runnable.push(so_far.runnable.copy())?;
        Ok(())
    }
}
