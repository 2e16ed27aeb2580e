ghost use Rattle.std.specs.Prelude.{◌≡◌, ℕ, ◌<◌, true, List};
ghost use Rattle.tab_core.specs.declared.TheConstants.{ROUND};
ghost use Rattle.view_doc.specs.declared.view.Stretch.{Stretch};
ghost use Rattle.view_table.specs.Waits.{IsLongestWait, is_served, wait_of};

/// The wait that is shown of a vCPU with a slot is its longest in the endless repetition of the round: no
/// run of ticks without a slot is longer, and some run is as long.
pub fn a_shown_wait_is_the_longest()
    ensures { (slots : List Stretch) (v place : ℕ) → place < ROUND → is_served slots v place ≡ true
        → IsLongestWait slots v (wait_of slots v) }
{}
