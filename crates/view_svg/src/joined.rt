ghost use Rattle.std.specs.Prelude.{◌≡◌, ◌≤◌, length};
ghost use Rattle.view_svg.specs.Joined.{boxes_of, is_one_box, seams_of};

use arrayvec::ArrayVec;
use tab_core::ROUND;
use view_lanes::{Bar, Frame};

// The most bars of a lane that is drawn in boxes.
const MOST_BARS: usize = 342;

// The boxes of bars.
pub(crate) fn boxes_of(frame: &Frame, bars: &[Bar]) -> ArrayVec<Bar, MOST_BARS>
    requires { length bars.now ≤ 342 }
    ensures { result.items ≡ boxes_of frame.now bars.now }
{
    let mut boxes = ArrayVec::new();
    let Some((first, rest)) = bars.split_first() else {
        return boxes;
    };
    let mut last = *first;
    for next in rest {
        if is_one_box(frame, &last, next) {
            last = Bar {
                from: last.from,
                ..*next
            };
        } else {
            boxes.push(last);
            last = *next;
        }
    }
    boxes.push(last);
    boxes
}

// The bars that begin in a box.
pub(crate) fn seams_of(frame: &Frame, bars: &[Bar]) -> ArrayVec<Bar, MOST_BARS>
    requires { length bars.now ≤ 342 }
    ensures { result.items ≡ seams_of frame.now bars.now }
{
    let mut seams = ArrayVec::new();
    let Some((first, rest)) = bars.split_first() else {
        return seams;
    };
    let mut last = *first;
    for next in rest {
        if is_one_box(frame, &last, next) {
            seams.push(*next);
        }
        last = *next;
    }
    seams
}

// Whether two bars, of which the second is next after the first, are in one box.
fn is_one_box(frame: &Frame, bar: &Bar, next: &Bar) -> bool
    ensures { result ≡ is_one_box frame.now bar.now next.now }
{
    frame.is_run
        && !bar.shared
        && !next.shared
        && bar.key == next.key
        && bar.end == next.from
        && !(frame.has_rounds && next.from % ROUND == 0)
}
