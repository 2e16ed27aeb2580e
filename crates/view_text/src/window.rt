ghost use Rattle.std.specs.Prelude.{◌≡◌, ◌<◌, ◌≤◌, length, true};
ghost use Rattle.view_text.specs.Inside.Windows.{AreBefore, AreBehind, BarsRise};

use view_lanes::Bar;

// Whether no bar begins before the one before it.
pub(crate) fn rise(bars: &[Bar]) -> bool
    ensures { result ≡ true → BarsRise bars.now }
{
    for i in 1..bars.len() {
        if bars[i].from < bars[i - 1].from {
            return false;
        }
    }
    true
}

// Where the bars end that have nothing from a tick on, if they are known up to a place.
pub(crate) fn first_from(bars: &[Bar], known: usize, tick: u64) -> usize
    requires within { known ≤ length bars.now }
    requires before { AreBefore tick bars.now known }
    ensures within { result ≤ length bars.now }
    ensures before { AreBefore tick bars.now result }
{
    let mut start = known;
    while start < bars.len() && u64::from(bars[start].end) <= tick {
        start += 1;
    }
    start
}

// Where bars begin that have nothing before a tick, from a place on.
pub(crate) fn first_behind(bars: &[Bar], rise: bool, start: usize, tick: u64) -> usize
    requires within { start ≤ length bars.now }
    requires rise { rise ≡ true → BarsRise bars.now }
    ensures order { start ≤ result }
    ensures within { result ≤ length bars.now }
    ensures behind { AreBehind tick bars.now result }
{
    if !rise {
        return bars.len();
    }
    let mut stop = start;
    while stop < bars.len() && u64::from(bars[stop].from) < tick {
        stop += 1;
    }
    stop
}
