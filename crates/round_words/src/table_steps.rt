//! One step on a word of the board, with what it claims of the seat's view.
ghost use Rattle.std.specs.Prelude.{◌≡◌, ◌<◌, ℕ, eqb};
ghost use prog.Atomic.{either};
ghost use Rattle.round_words.specs.Inside.Claims.{HasLag, StepKeepsRule};
ghost use Rattle.round_words.specs.Shown.{ViewInvariant};
ghost use Rattle.round_words.specs.declared.view.View.{View};

use crate::board::RoundBoard;
use crate::spacing::place_of;
use crate::table_rule::{Step, StepClaim};
use crate::view::View;
use atomic_table::Seat;

// `about` is what the claim speaks of, for the proof alone.
impl RoundBoard {
    pub(crate) fn load_step<X, J: StepClaim>(
        &self,
        seat: &mut Seat<(), View>,
        word: usize,
        about: &X,
    ) -> u64
        requires board { seat.old.table_id ≡ self.now.table.shared.table_id }
        requires word { word < 37 }
        requires rule { StepKeepsRule seat.old.id seat.old.me.0 word (λ n. n) (J.claim seat.old.me.0) }
        requires lag { (n : ℕ) (w : View) → J.claim seat.old.me.0 n w → HasLag w }
        ensures seat { (seat.new.table_id ≡ seat.old.table_id) × (seat.new.id ≡ seat.old.id)
            × (seat.new.me.1 ≡ seat.old.me.1) }
        ensures claim { J.claim seat.old.me.0 result seat.new.me.0 }
        ensures shown { ViewInvariant seat.new.me.0 }
    {
        let _ = about;
        self.table.shared.load::<Step<J>>(seat, place_of(word))
    }

    pub(crate) fn store_step<X, J: StepClaim>(
        &self,
        seat: &mut Seat<(), View>,
        word: usize,
        new: u64,
        about: &X,
    )
        requires board { seat.old.table_id ≡ self.now.table.shared.table_id }
        requires word { word < 37 }
        requires rule { StepKeepsRule seat.old.id seat.old.me.0 word (λ _. new) (λ _. J.claim seat.old.me.0 new) }
        requires lag { (n : ℕ) (w : View) → J.claim seat.old.me.0 n w → HasLag w }
        ensures seat { (seat.new.table_id ≡ seat.old.table_id) × (seat.new.id ≡ seat.old.id)
            × (seat.new.me.1 ≡ seat.old.me.1) }
        ensures claim { J.claim seat.old.me.0 new seat.new.me.0 }
        ensures shown { ViewInvariant seat.new.me.0 }
    {
        let _ = about;
        self.table
            .shared
            .store::<Step<J>>(seat, place_of(word), new);
    }

    pub(crate) fn exchange_step<X, J: StepClaim>(
        &self,
        seat: &mut Seat<(), View>,
        word: usize,
        old: u64,
        new: u64,
        about: &X,
    ) -> u64
        requires board { seat.old.table_id ≡ self.now.table.shared.table_id }
        requires word { word < 37 }
        requires rule { StepKeepsRule seat.old.id seat.old.me.0 word (λ n. either (eqb n old) new n) (J.claim seat.old.me.0) }
        requires lag { (n : ℕ) (w : View) → J.claim seat.old.me.0 n w → HasLag w }
        ensures seat { (seat.new.table_id ≡ seat.old.table_id) × (seat.new.id ≡ seat.old.id)
            × (seat.new.me.1 ≡ seat.old.me.1) }
        ensures claim { J.claim seat.old.me.0 result seat.new.me.0 }
        ensures shown { ViewInvariant seat.new.me.0 }
    {
        let _ = about;
        self.table
            .shared
            .compare_exchange::<Step<J>>(seat, place_of(word), old, new)
    }
}
