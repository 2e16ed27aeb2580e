ghost use Rattle.std.specs.Prelude.{◌≡◌};
ghost use Rattle.tab_io.specs.Sinks.{Writes};
ghost use Rattle.view_svg.specs.Marks.{box_path, short_back, short_dots, short_front};

use crate::gather::put_at_once;
use tab_io::{Sink, WriteFault};
use tab_words::TextPiece;

/// The first letters of a name that fit into a list: all, or seven where there are more than 15.
pub fn short_front(name: &[u8]) -> &[u8]
    ensures { result.now ≡ short_front name.now }
{
    if name.len() <= 15 {
        name
    } else {
        let (front, _) = name.split_at(7);
        front
    }
}

/// The two dots between the first and the last letters of a name of more than 15 letters, and nothing
/// for a shorter one, which `short_front` gives whole.
pub fn short_dots(name: &[u8]) -> &'static [u8]
    ensures { result.now ≡ short_dots name.now }
{
    if name.len() <= 15 { b"" } else { b".." }
}

/// The last six letters of a name of more than 15, and nothing for a shorter one, which `short_front`
/// gives whole.
pub fn short_back(name: &[u8]) -> &[u8]
    ensures { result.now ≡ short_back name.now }
{
    if name.len() <= 15 {
        &[]
    } else {
        let (_, back) = name.split_at(name.len() - 6);
        back
    }
}

/// Writes the path round a box between two points, in units of the picture, from the left and from the
/// top.
///
/// A fault leaves a prefix of the path in the sink. Nothing is settled, and nothing is allocated.
#[tactic(auto, unfolding(crate::specs::Marks::box_path))]
pub fn put_box<K: Sink>(sink: &mut K, x0: u64, y0: u64, x1: u64, y1: u64) -> Result<(), WriteFault>
    ensures { Writes (K.state sink.old) (K.state sink.new) (box_path x0 y0 x1 y1) result }
{
    put_at_once(
        sink,
        &[
            TextPiece::Text(b"M"),
            TextPiece::Wide(x0),
            TextPiece::Text(b" "),
            TextPiece::Wide(y0),
            TextPiece::Text(b"H"),
            TextPiece::Wide(x1),
            TextPiece::Text(b"V"),
            TextPiece::Wide(y1),
            TextPiece::Text(b"H"),
            TextPiece::Wide(x0),
            TextPiece::Text(b"z"),
        ],
    )
}
