ghost use Rattle.std.specs.Prelude.{◌≡◌, ◌<◌, ◌^◌, ◌∷◌, IfSome, decimal};
ghost use Rattle.tab_words.specs.Words.{words_of};

use crate::numbers::small_number;

// The number below 2^32 that the line spells before its first space, and what is after that. Most lines of a plan
// begin so.
pub(crate) fn plain_line(line: &[u8]) -> Option<(u32, &[u8])>
    ensures { IfSome result (λ parts. (parts.0 < 2 ^ 32)
        × (words_of line.now ≡ decimal parts.0 ∷ words_of parts.1.now)) }
{
    let Some(end) = line.iter().position(|byte| *byte == b' ') else {
        return None;
    };
    let number = small_number(&line[..end])?;
    Some((number, &line[end + 1..]))
}
