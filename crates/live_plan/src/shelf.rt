ghost use Rattle.std.specs.Prelude.{◌≡◌, ◌<◌, IfNone, IfSome, Some, length};
ghost use Rattle.live_plan.specs.Books.{IsMadeFor, LiveView};
ghost use Rattle.live_plan.specs.Shelves.{Grows, Missed, ShelfView};

use crate::book::LiveBook;
use crate::made::Made;

/// Where an actor of a run looks what was made of a change.
pub trait Shelf<'a> {
    /// What it knows of each change, and how often a look at each missed.
    ghost state: { Self → ShelfView };
    /// It is a shelf of this book.
    ghost is_of: { Self → LiveView → Type 0 };

    /// What was made of a change. A value that was given once is given again at each later look. Nothing is
    /// given only where the change wasn't known and its misses rose.
    fn look(&mut self, book: &'a LiveBook, change: u32) -> Option<&'a Made>
        requires book { is_of self.old book.now }
        requires change { change < length book.now.changes }
        ensures book { is_of self.new book.now }
        ensures grows { Grows (state self.old) (state self.new) }
        ensures found { IfSome result (λ made. (state self.new).known change ≡ Some made.now) }
        ensures for_it { IfSome result (λ made. IsMadeFor book.now change made.now) }
        ensures missed { IfNone result (Missed (state self.old) (state self.new) change) };
}
