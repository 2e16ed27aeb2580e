ghost use Rattle.tab_io.specs.Sinks.{Writes};
ghost use Rattle.view_svg.specs.Drawings.{IsInPicture, palette_view, vcpus_view};
ghost use Rattle.view_svg.specs.LanePictures.{lane_body, lane_text};

use crate::columns::put_columns;
use crate::drawing::{Band, Palette, Vcpus};
use crate::keys::put_keys;
use crate::labels::put_label;
use crate::lane::put_bars;
use crate::waits::put_waits;
use tab_io::{Sink, WriteFault, write_all};
use view_lanes::{Bar, is_dense};

/// Writes the lane of the core or vCPU with the number `row` in its band of the picture: its label, its bars,
/// on a vCPU's lane of a plan its longest wait, and its key.
///
/// The band begins less than 2^31 units from the top, and is at most 4000 high.
///
/// A fault leaves a prefix of the text in the sink. Nothing is settled.
pub fn put_lane<K: Sink>(
    sink: &mut K,
    vcpus: &Vcpus<'_>,
    row: u64,
    band: &Band,
    palette: &Palette<'_>,
    bars: &[Bar],
) -> Result<(), WriteFault>
    requires band { IsInPicture band.now }
    ensures { Writes (K.state sink.old) (K.state sink.new)
        (lane_text (vcpus_view vcpus.now) row band.now (palette_view palette.now) bars.now) result }
{
    put_label(sink, band, vcpus.names, row, bars)?;
    put_body(sink, band, palette, bars)?;
    put_waits(sink, band, vcpus, row)?;
    put_keys(sink, band, palette, bars)?;
    write_all(sink, b"</g>\n")
}

// Writes the bars of a lane: as boxes, or as columns where they are many.
#[tactic(auto, unfolding(crate::specs::LanePictures::lane_body))]
fn put_body<K: Sink>(
    sink: &mut K,
    band: &Band,
    palette: &Palette<'_>,
    bars: &[Bar],
) -> Result<(), WriteFault>
    requires band { IsInPicture band.now }
    ensures { Writes (K.state sink.old) (K.state sink.new)
        (lane_body band.now (palette_view palette.now) bars.now) result }
{
    if is_dense(bars) {
        put_columns(sink, band, palette, bars)
    } else {
        put_bars(sink, band, palette, bars)
    }
}
