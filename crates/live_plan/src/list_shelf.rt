ghost use Rattle.std.specs.Prelude.{◌≡◌, ◌<◌, ℕ, IfNone, IfSome, MatchOption, None, Some, false, length, slice_index, slice_index_or};
ghost use Rattle.live_plan.specs.Books.{IsMadeFor};
ghost use Rattle.live_plan.specs.Inside.Lists.{AreMadeFor, list_state};
ghost use Rattle.live_plan.specs.Shelves.{Grows, Missed};

use crate::book::LiveBook;
use crate::made::Made;
use crate::shelf::Shelf;

/// The shelf in memory: at each change's place a value, or none.
#[derive(Drop)]
pub struct ListShelf<'a> {
    pub(crate) made: &'a [Option<Made>],
    pub(crate) looked: [bool; 15],
    pub(crate) missed: [u64; 15],
}

impl<'a> ListShelf<'a> {
    /// The shelf of these values, each of which is for the change of the book that its place names. All
    /// counts are 0, and nothing is known.
    pub fn of(book: &LiveBook, made: &'a [Option<Made>]) -> ListShelf<'a>
        requires { AreMadeFor book.now made.now }
        ensures made { result.made.now ≡ made.now }
        ensures looked { (c : ℕ) → slice_index_or result.looked c false ≡ false }
        ensures missed { (c : ℕ) → slice_index result.missed c ≡ 0 }
    {
        let _ = book;
        ListShelf {
            made,
            looked: [false; 15],
            missed: [0; 15],
        }
    }
}

impl<'a> Shelf<'a> for ListShelf<'a> {
    ghost state = { list_state };

    ghost is_of = { λ s b. AreMadeFor b s.made.now };

    // Besides what each shelf owes: a value is given exactly where one is at the change's place.
    fn look(&mut self, book: &'a LiveBook, change: u32) -> Option<&'a Made>
        requires book { AreMadeFor book.now self.old.made.now }
        requires change { change < length book.now.changes }
        ensures book { AreMadeFor book.now self.new.made.now }
        ensures grows { Grows (list_state self.old) (list_state self.new) }
        ensures found { IfSome result (λ made. (list_state self.new).known change ≡ Some made.now) }
        ensures for_it { IfSome result (λ made. IsMadeFor book.now change made.now) }
        ensures missed { IfNone result (Missed (list_state self.old) (list_state self.new) change) }
        ensures stands { MatchOption result (slice_index_or self.old.made.now change None ≡ None)
            (λ made. slice_index_or self.old.made.now change None ≡ Some made.now) }
        ensures made { self.new.made.now ≡ self.old.made.now }
    {
        let _ = book;
        let at = change as usize;
        match &self.made[at] {
            Some(made) => {
                self.looked[at] = true;
                Some(made)
            }
            None => {
                self.missed[at] = self.missed[at].saturating_add(1);
                None
            }
        }
    }
}
