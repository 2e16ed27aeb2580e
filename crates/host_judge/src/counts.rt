ghost use Rattle.std.specs.Prelude.{◌≡◌, ℕ, ◌+◌, ◌<◌, ◌≤◌, ◌^◌, if◌then◌else◌, [], ◌∷◌, ◌++◌, List};
ghost use Rattle.host_judge.specs.Clashes.{IsCountOf};

use crate::report::LineCount;

// No line.
pub(crate) fn no_lines() -> LineCount
    ensures none { result.count ≡ 0 }
    ensures counted { IsCountOf [] result }
{
    LineCount {
        count: 0,
        first: None,
    }
}

// The lines and this one, if it is of the kind.
pub(crate) fn counted_if(count: &LineCount, is_one: bool, line: u64) -> LineCount
    requires { count.now.count + 1 < 2 ^ 64 }
    ensures few { result.count ≤ count.now.count + 1 }
    ensures counted { (lines : List ℕ) → IsCountOf lines count.now
        → IsCountOf (lines ++ (if is_one then line ∷ [] else [])) result }
{
    if !is_one {
        return *count;
    }
    LineCount {
        count: count.count + 1,
        first: count.first.or(Some(line)),
    }
}
