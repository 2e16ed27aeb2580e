ghost use Rattle.std.specs.Prelude.{◌+◌, ◌≤◌};
ghost use Rattle.crew_turns.specs.Numbers.{NamesFrom};

// The mask of so many neighbouring actors, from the first one on.
pub(crate) fn mask_from(first: u32, count: u32) -> u64
    requires small { first + count ≤ 32 }
    ensures { NamesFrom first count result }
{
    let mut mask = 0;
    for at in 0..count {
        mask |= 1 << (first + at);
    }
    mask
}
