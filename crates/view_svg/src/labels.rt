ghost use Rattle.std.specs.Prelude.{◌<◌, ◌≤◌, ◌+◌, ◌-◌, ◌/◌, ◌^◌, ◌++◌};
ghost use Rattle.tab_io.specs.Sinks.{Writes};
ghost use Rattle.view_svg.specs.Drawings.{IsInPicture};
ghost use Rattle.view_svg.specs.Lanes.{core_label, core_text, label_text, lane_vcpu_text, share_label, vcpu_label};

use crate::drawing::Band;
use crate::lane::line_in;
use crate::marks::{short_back, short_dots, short_front};
use tab_core::Name;
use tab_io::{Sink, WriteFault};
use tab_words::{TextPiece, put_pieces};
use view_lanes::{Bar, held_in, name_at, per_mille, span_of};

// Writes what is left of the lane of a core or a vCPU.
pub(crate) fn put_label<K: Sink>(
    sink: &mut K,
    band: &Band,
    names: &[Name],
    row: u64,
    bars: &[Bar],
) -> Result<(), WriteFault>
    requires band { IsInPicture band.now }
    ensures { Writes (K.state sink.old) (K.state sink.new) (label_text band.now names.now row bars.now) result }
{
    if band.frame.by_vcpu {
        put_vcpu(sink, name_at(names, row as usize), band.y, band.high)
    } else {
        let share = per_mille(held_in(&band.frame, bars), u64::from(span_of(&band.frame)));
        put_core_text(sink, row, band.y, band.high, share)
    }
}

// Writes a vCPU's name left of its lane.
fn put_vcpu<K: Sink>(sink: &mut K, name: &[u8], y: u32, high: u32) -> Result<(), WriteFault>
    requires low { y < 2 ^ 31 }
    requires high { high ≤ 4000 }
    ensures { Writes (K.state sink.old) (K.state sink.new) (lane_vcpu_text name.now y high) result }
{
    put_vcpu_label(
        sink,
        name,
        line_in(y, high, 900),
        short_front(name),
        short_dots(name),
        short_back(name),
    )
}

#[tactic(auto, unfolding(crate::specs::Lanes::vcpu_label))]
fn put_vcpu_label<'a, K: Sink>(
    sink: &mut K,
    name: &'a [u8],
    y: u32,
    front: &'a [u8],
    dots: &'a [u8],
    back: &'a [u8],
) -> Result<(), WriteFault>
    ensures { Writes (K.state sink.old) (K.state sink.new)
        (vcpu_label name.now y front.now dots.now back.now) result }
{
    put_pieces(
        sink,
        &[
            TextPiece::Text(b"<g><title>"),
            TextPiece::Text(name),
            TextPiece::Text(b"</title>\n<text x=\"8700\" y=\""),
            TextPiece::Number(y),
            TextPiece::Text(b"\" font-size=\"900\" class=\"name\" text-anchor=\"end\">"),
            TextPiece::Text(front),
            TextPiece::Text(dots),
            TextPiece::Text(back),
            TextPiece::Text(b"</text>\n"),
        ],
    )
}

// Writes a core's number left of its lane, and how much of the lane is somebody's.
fn put_core_text<K: Sink>(
    sink: &mut K,
    core: u64,
    y: u32,
    high: u32,
    share: u64,
) -> Result<(), WriteFault>
    requires low { y < 2 ^ 31 }
    requires high { high ≤ 4000 }
    ensures { Writes (K.state sink.old) (K.state sink.new) (core_text core y high share) result }
{
    if high >= 2800 {
        put_two_lines(sink, core, y, high, share)
    } else {
        put_one_line(sink, core, line_in(y, high, 900), share)
    }
}

fn put_two_lines<K: Sink>(
    sink: &mut K,
    core: u64,
    y: u32,
    high: u32,
    share: u64,
) -> Result<(), WriteFault>
    requires low { y < 2 ^ 31 }
    requires least { 2800 ≤ high }
    requires high { high ≤ 4000 }
    ensures { Writes (K.state sink.old) (K.state sink.new)
        (core_label 8700 core (y + high / 2 - 100) 1100 ++ share_label (y + high / 2 + 1200) share) result }
{
    put_core(sink, 8700, core, y + high / 2 - 100, 1100)?;
    put_share(sink, y + high / 2 + 1200, share)
}

fn put_one_line<K: Sink>(sink: &mut K, core: u64, y: u32, share: u64) -> Result<(), WriteFault>
    ensures { Writes (K.state sink.old) (K.state sink.new) (core_label 4600 core y 900 ++ share_label y share) result }
{
    put_core(sink, 4600, core, y, 900)?;
    put_share(sink, y, share)
}

#[tactic(auto, unfolding(crate::specs::Lanes::core_label))]
fn put_core<K: Sink>(
    sink: &mut K,
    x: u32,
    core: u64,
    y: u32,
    letters: u32,
) -> Result<(), WriteFault>
    ensures { Writes (K.state sink.old) (K.state sink.new) (core_label x core y letters) result }
{
    put_pieces(
        sink,
        &[
            TextPiece::Text(b"<g><title>core "),
            TextPiece::Wide(core),
            TextPiece::Text(b"</title>\n<text x=\""),
            TextPiece::Number(x),
            TextPiece::Text(b"\" y=\""),
            TextPiece::Number(y),
            TextPiece::Text(b"\" font-size=\""),
            TextPiece::Number(letters),
            TextPiece::Text(b"\" class=\"label\" text-anchor=\"end\">core "),
            TextPiece::Wide(core),
            TextPiece::Text(b"</text>\n"),
        ],
    )
}

#[tactic(auto, unfolding(crate::specs::Lanes::share_label))]
fn put_share<K: Sink>(sink: &mut K, y: u32, share: u64) -> Result<(), WriteFault>
    ensures { Writes (K.state sink.old) (K.state sink.new) (share_label y share) result }
{
    put_pieces(
        sink,
        &[
            TextPiece::Text(b"<text x=\"8700\" y=\""),
            TextPiece::Number(y),
            TextPiece::Text(b"\" font-size=\"900\" class=\"dim\" text-anchor=\"end\">"),
            TextPiece::Wide(share / 10),
            TextPiece::Text(b"."),
            TextPiece::Wide(share % 10),
            TextPiece::Text(b" %</text>\n"),
        ],
    )
}
