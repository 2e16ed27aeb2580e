//! Where the words are in the table.
ghost use Rattle.std.specs.Prelude.{◌≡◌, ◌<◌, slice_index};
ghost use Rattle.round_words.specs.declared.spacing.TheConstants.{PLACES as THE_PLACES, SPACE as THE_SPACE};

/// How many words the table has, of which 37 are used.
pub(crate) const SPACE: usize = 165;

// For each word its place in the table. What one processor writes makes another fetch its neighbours anew too, two
// lines of eight words. So 16 places are free between the posted count, the clocks of cores 0, 1, 2 to 3, 4 to 7,
// 8 to 15, 16 to 23 and 24 to 31, and the decision words: threads that carry equal numbers of neighbours write no word
// near another's, and each writes its own clocks in few lines.
const PLACES: [u32; 37] = [
    0, 17, 34, 51, 52, 69, 70, 71, 72, 89, 90, 91, 92, 93, 94, 95, 96, 113, 114, 115, 116, 117,
    118, 119, 120, 137, 138, 139, 140, 141, 142, 143, 144, 161, 162, 163, 164,
];

// The place of the word.
#[inline(always)]
pub(crate) fn place_of(word: usize) -> usize
    requires { word < 37 }
    ensures is { result ≡ slice_index THE_PLACES word }
    ensures within { result < THE_SPACE }
{
    PLACES[word] as usize
}
