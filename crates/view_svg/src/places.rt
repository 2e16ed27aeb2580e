ghost use Rattle.std.specs.Prelude.{◌≡◌, ◌<◌, ◌≤◌, ◌^◌};
ghost use Rattle.tab_core.specs.declared.TheConstants.{MAX_VCPUS};
ghost use Rattle.view_svg.specs.Frames.{foot_of, height_of, letters_of, pitch_of, top_of, x_at};

use tab_core::ROUND;
use view_lanes::{Frame, span_of};

/// Where a tick is, from the left, in units of the picture, of which a pixel at the default width has
/// 100. A frame without ticks has them all at the lanes' left end.
pub fn x_at(frame: &Frame, tick: u32) -> u64
    ensures value { result ≡ x_at frame.now tick }
    ensures small { result < 2 ^ 50 }
{
    let span = span_of(frame);
    if span == 0 {
        return 9400;
    }
    9400 + u64::from(tick.saturating_sub(frame.from)) * u64::from(ROUND) / u64::from(span)
}

/// The height of each of so many lanes, in units of the picture: all together have some 560 pixels, and
/// each 14 to 40.
pub fn height_of(lanes: u32) -> u32
    ensures value { result ≡ height_of lanes }
    ensures small { result ≤ 4000 }
{
    100 * (560 / lanes.max(1)).min(40).max(14)
}

/// How far it is from the top of a lane to that of the next, in units of the picture, where there are
/// so many lanes. A fifth of a lane's height is between them.
pub fn pitch_of(lanes: u32) -> u32
    ensures value { result ≡ pitch_of lanes }
    ensures small { result ≤ 4800 }
{
    let high = height_of(lanes);
    high + high / 5
}

/// Where the lane of a number, from 0, begins, from the top, in units of the picture, where there are
/// so many lanes. The number is at most 256.
#[tactic(auto, using(crate::proofs::Sizes::lane_offset))]
pub fn top_of(lanes: u32, i: u32) -> u32
    requires { i ≤ MAX_VCPUS }
    ensures value { result ≡ top_of lanes i }
    ensures small { result ≤ 1238600 }
{
    9800 + i * pitch_of(lanes)
}

/// Where the last of so many lanes ends, with the gap below it, from the top, in units of the picture.
/// There are at most 256 lanes.
pub fn foot_of(lanes: u32) -> u32
    requires { lanes ≤ MAX_VCPUS }
    ensures value { result ≡ foot_of lanes }
    ensures small { result ≤ 1238600 }
{
    top_of(lanes, lanes)
}

// The height of letters on lanes of a height.
pub(crate) fn letters_of(high: u32) -> u32
    ensures value { result ≡ letters_of high }
    ensures small { result ≤ 1000 }
{
    if high >= 2400 {
        1000
    } else if high >= 1600 {
        900
    } else {
        800
    }
}
