ghost use Rattle.std.specs.Prelude.{◌≡◌, ◌<◌, ◌≤◌, length};
ghost use Rattle.tab_core.specs.declared.TheConstants.{MAX_VCPUS};
ghost use Rattle.tab_io.specs.Sinks.{Writes};
ghost use Rattle.tab_words.specs.Texts.{texts_below};
ghost use Rattle.view_svg.specs.Drawings.{IsInPicture, palette_view, vcpus_view};
ghost use Rattle.view_svg.specs.Frames.{height_of, pitch_of};
ghost use Rattle.view_svg.specs.Lanes.{ground_box};
ghost use Rattle.view_chart.specs.Charts.{band_at, chart_of, grounds_text, lane_at, tall_of};
ghost use Rattle.view_chart.specs.Heads.{head_text};
ghost use Rattle.view_chart.specs.Legends.{listed_in};
ghost use Rattle.view_lanes.specs.Titles.{head_in};

use crate::axis::put_axis;
use crate::head::put_head;
use crate::legend::{listed_in, put_legend};
use crate::rounds::put_rounds;
use tab_core::{Name, ROUND};
use tab_io::{Sink, WriteFault, write_all};
use view_doc::View;
use view_lanes::{ChartOptions, Frame, Lane, head_in, shown_in};
use view_svg::{Band, Palette, Vcpus, foot_of, height_of, pitch_of, put_box, put_lane, top_of};

// Writes a picture of these lanes of a view, of whose vCPUs this is known. The palette shows the bars' keys.
pub(crate) fn put_picture<K: Sink>(
    sink: &mut K,
    options: &ChartOptions,
    frame: &Frame,
    view: &View,
    vcpus: &Vcpus<'_>,
    palette: &Palette<'_>,
    lanes: &[Lane],
) -> Result<(), WriteFault>
    requires { length lanes.now ≤ MAX_VCPUS }
    ensures { Writes (K.state sink.old) (K.state sink.new)
        (chart_of options.now frame.now view.now (vcpus_view vcpus.now) (palette_view palette.now) lanes.now) result }
{
    put_chart_head(sink, options.width, frame, view, palette.names, lanes)?;
    put_grounds(sink, lanes.len() as u32)?;
    put_axis(sink, frame, lanes.len() as u32)?;
    put_lanes(sink, frame, options.first, vcpus, palette, lanes)?;
    put_rounds(sink, frame, shown_in(view), lanes.len() as u32)?;
    put_legend(sink, frame, palette, lanes)?;
    write_all(sink, b"</svg>\n")
}

// Writes the head.
fn put_chart_head<K: Sink>(
    sink: &mut K,
    width: u32,
    frame: &Frame,
    view: &View,
    names: &[Name],
    lanes: &[Lane],
) -> Result<(), WriteFault>
    requires lanes { length lanes.now ≤ MAX_VCPUS }
    requires few { length names.now ≤ MAX_VCPUS }
    ensures { Writes (K.state sink.old) (K.state sink.new)
        (head_text width (tall_of (length lanes.now) (listed_in lanes.now names.now))
        (head_in frame.now view.now lanes.now)) result }
{
    let head = head_in(frame, view, lanes);
    let keys = listed_in(lanes, names);
    put_head(sink, width, tall_of(lanes.len() as u32, keys), &head)
}

// How tall a picture of so many lanes and keys is.
pub(crate) fn tall_of(lanes: u32, keys: u32) -> u32
    requires lanes { lanes ≤ MAX_VCPUS }
    requires keys { keys ≤ MAX_VCPUS }
    ensures { result ≡ tall_of lanes keys }
{
    foot_of(lanes) + 5500 + (keys + 3) / 4 * 1400 + 1000
}

// Writes the grounds of so many lanes.
pub(crate) fn put_grounds<K: Sink>(sink: &mut K, lanes: u32) -> Result<(), WriteFault>
    requires { lanes ≤ MAX_VCPUS }
    ensures { Writes (K.state sink.old) (K.state sink.new) (grounds_text lanes) result }
{
    write_all(sink, b"<path class=\"lane\" d=\"")?;
    put_ground_boxes(sink, lanes)?;
    write_all(sink, b"\"/>\n")
}

fn put_ground_boxes<K: Sink>(sink: &mut K, lanes: u32) -> Result<(), WriteFault>
    requires { lanes ≤ MAX_VCPUS }
    ensures { Writes (K.state sink.old) (K.state sink.new)
        (texts_below (ground_box (height_of lanes) (pitch_of lanes)) lanes) result }
{
    put_boxes(sink, height_of(lanes), pitch_of(lanes), lanes)
}

fn put_boxes<K: Sink>(sink: &mut K, high: u32, pitch: u32, lanes: u32) -> Result<(), WriteFault>
    requires few { lanes ≤ MAX_VCPUS }
    requires high { high ≤ 4000 }
    requires pitch { pitch ≤ 4800 }
    ensures { Writes (K.state sink.old) (K.state sink.new) (texts_below (ground_box high pitch) lanes) result }
{
    for i in 0..lanes {
        put_ground(sink, high, pitch, i)?;
    }
    Ok(())
}

#[tactic(auto, using(view_svg::proofs::Sizes::lane_offset))]
fn put_ground<K: Sink>(sink: &mut K, high: u32, pitch: u32, i: u32) -> Result<(), WriteFault>
    requires few { i ≤ MAX_VCPUS }
    requires high { high ≤ 4000 }
    requires pitch { pitch ≤ 4800 }
    ensures { Writes (K.state sink.old) (K.state sink.new) (ground_box high pitch i) result }
{
    let y = 9800 + i * pitch;
    put_box(
        sink,
        9400,
        u64::from(y),
        9400 + u64::from(ROUND),
        u64::from(y + high),
    )
}

// Writes the lanes.
pub(crate) fn put_lanes<K: Sink>(
    sink: &mut K,
    frame: &Frame,
    first: u32,
    vcpus: &Vcpus<'_>,
    palette: &Palette<'_>,
    lanes: &[Lane],
) -> Result<(), WriteFault>
    requires { length lanes.now ≤ MAX_VCPUS }
    ensures { Writes (K.state sink.old) (K.state sink.new)
        (texts_below (lane_at frame.now first (vcpus_view vcpus.now) (palette_view palette.now) lanes.now)
        (length lanes.now)) result }
{
    for i in 0..lanes.len() {
        put_lane_at(sink, frame, first, vcpus, palette, lanes, i)?;
    }
    Ok(())
}

// Writes the lane of a number.
fn put_lane_at<K: Sink>(
    sink: &mut K,
    frame: &Frame,
    first: u32,
    vcpus: &Vcpus<'_>,
    palette: &Palette<'_>,
    lanes: &[Lane],
    i: usize,
) -> Result<(), WriteFault>
    requires lanes { length lanes.now ≤ MAX_VCPUS }
    requires there { i < length lanes.now }
    ensures { Writes (K.state sink.old) (K.state sink.new)
        (lane_at frame.now first (vcpus_view vcpus.now) (palette_view palette.now) lanes.now i) result }
{
    let band = band_at(frame, lanes.len() as u32, i as u32);
    let row = u64::from(first) + i as u64;
    put_lane(sink, vcpus, row, &band, palette, lanes[i].bars())
}

// Where the lane of a number is of so many lanes.
fn band_at(frame: &Frame, lanes: u32, i: u32) -> Band
    requires { i ≤ MAX_VCPUS }
    ensures value { result ≡ band_at frame.now lanes i }
    ensures band { IsInPicture result }
{
    Band {
        frame: *frame,
        y: top_of(lanes, i),
        high: height_of(lanes),
    }
}
