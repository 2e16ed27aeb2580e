ghost use Rattle.std.specs.Prelude.{◌≡◌, ◌<◌, ℕ, IfNone, IfSome, None, Some, false, length, true};
ghost use Rattle.live_plan.specs.Books.{IsLive, IsMadeFor};
ghost use Rattle.live_plan.specs.Inside.Cells.{IsCellShelfOf, IsNewSlot, IsSlotOf, LooksIn, MissedIn, Puts, Reaches, cell_state, known_in};

use crate::book::LiveBook;
use crate::made::Made;
use crate::matching::is_for;
use crate::shelf::Shelf;
use once_cell::race::Note;

// What a shelf noted of a change's cell: what was seen there, whether that is known to be for the change, and
// how often a look missed.
#[derive(Drop)]
pub(crate) struct Slot {
    pub(crate) note: Note<Made>,
    pub(crate) matches: bool,
    pub(crate) missed: u64,
}

/// The shelf over the cells of a book. Each actor has one of its own.
#[derive(Drop)]
pub struct CellShelf {
    pub(crate) slots: [Option<Slot>; 15],
    pub(crate) puts: u32,
    pub(crate) stopped: bool,
}

impl CellShelf {
    /// The shelf over the cells of this book. All counts are 0, and nothing is known.
    pub fn of(book: &LiveBook) -> CellShelf
        ensures book { IsCellShelfOf book.now result }
        ensures known { (c : ℕ) → (cell_state result).known c ≡ None }
        ensures misses { (c : ℕ) → (cell_state result).misses c ≡ 0 }
        ensures puts { result.puts ≡ 0 }
    {
        CellShelf {
            slots: [
                slot_of(book, 0),
                slot_of(book, 1),
                slot_of(book, 2),
                slot_of(book, 3),
                slot_of(book, 4),
                slot_of(book, 5),
                slot_of(book, 6),
                slot_of(book, 7),
                slot_of(book, 8),
                slot_of(book, 9),
                slot_of(book, 10),
                slot_of(book, 11),
                slot_of(book, 12),
                slot_of(book, 13),
                slot_of(book, 14),
            ],
            puts: 0,
            stopped: false,
        }
    }

    // Takes the value of the change whose number is the count of puts, and says whether it is the first in that change's
    // cell, where each actor finds it from now on. Else the cell keeps what it holds.
    pub(crate) fn put(&mut self, book: &LiveBook, made: Box<Made>) -> bool
        requires book { IsCellShelfOf book.now self.old }
        requires change { self.old.puts < length book.now.changes }
        requires value { IsMadeFor book.now self.old.puts made.value }
        ensures book { IsCellShelfOf book.now self.new }
        ensures puts { Puts self.old made.value result self.new }
    {
        let change = self.puts;
        let at = change as usize;
        self.stopped = made.found().is_stopped();
        self.puts += 1;
        match self.slots[at].take() {
            Some(mut slot) => {
                let first = put_in(&mut slot, book, change, made);
                self.slots[at] = Some(slot);
                first
            }
            None => unreachable!(),
        }
    }
}

// A slot that knows nothing of the change's cell, if there is such a change. What every live book keeps holds
// of it.
fn slot_of(book: &LiveBook, change: u32) -> Option<Slot>
    ensures new { IsNewSlot book.now change result }
    ensures kept { IsLive book.now }
{
    if change as usize >= book.changes().len() {
        return None;
    }
    Some(Slot {
        note: book.cell(change).note(),
        matches: false,
        missed: 0,
    })
}

impl<'a> Shelf<'a> for CellShelf {
    ghost state = { λ s. cell_state s };

    ghost is_of = { λ s b. IsCellShelfOf b s };

    fn look(&mut self, book: &'a LiveBook, change: u32) -> Option<&'a Made> {
        let at = change as usize;
        match self.slots[at].take() {
            Some(mut slot) => {
                let found = look_in(&mut slot, book, change);
                self.slots[at] = Some(slot);
                found
            }
            None => unreachable!(),
        }
    }
}

// What is in the change's cell, where that is for the change.
fn look_in<'a>(slot: &mut Slot, book: &'a LiveBook, change: u32) -> Option<&'a Made>
    requires change { change < length book.now.changes }
    requires slot { IsSlotOf book.now change slot.old }
    ensures slot { IsSlotOf book.now change slot.new }
    ensures looks { LooksIn slot.old slot.new }
    ensures found { IfSome result (λ made. known_in (Some slot.new) ≡ Some made.now) }
    ensures for_it { IfSome result (λ made. IsMadeFor book.now change made.now) }
    ensures missed { IfNone result (MissedIn slot.old slot.new) }
{
    match book.cell(change).get_as(&mut slot.note) {
        None => {
            slot.missed = slot.missed.saturating_add(1);
            None
        }
        Some(made) => {
            slot.matches = matches(slot.matches, made, book, change);
            if slot.matches {
                return Some(made);
            }
            slot.missed = slot.missed.saturating_add(1);
            None
        }
    }
}

// Puts the value into the change's cell if nothing is there, and says whether it did.
#[tactic(auto, using(crate::proofs::CellsLemmas::first_slot, crate::proofs::CellsLemmas::later_slot, crate::proofs::CellsLemmas::first_looks, crate::proofs::CellsLemmas::later_looks))]
fn put_in(slot: &mut Slot, book: &LiveBook, change: u32, made: Box<Made>) -> bool
    requires change { change < length book.now.changes }
    requires slot { IsSlotOf book.now change slot.old }
    requires value { IsMadeFor book.now change made.value }
    ensures slot { IsSlotOf book.now change slot.new }
    ensures looks { LooksIn slot.old slot.new }
    ensures missed { slot.new.missed ≡ slot.old.missed }
    ensures reaches { Reaches (Some slot.new) made.value result }
{
    match book.cell(change).set_as(made, &mut slot.note) {
        Ok(()) => {
            slot.matches = true;
            return true;
        }
        Err(_) => return false,
    }
}

// Whether the value is for the change, which may be known.
fn matches(known: bool, made: &Made, book: &LiveBook, change: u32) -> bool
    requires change { change < length book.now.changes }
    requires known { known ≡ true → IsMadeFor book.now change made.now }
    ensures for_it { result ≡ true → IsMadeFor book.now change made.now }
    ensures stays { result ≡ false → known ≡ false }
{
    if known {
        return true;
    }
    is_for(made, book, change)
}
