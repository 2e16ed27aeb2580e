ghost use Rattle.std.specs.Prelude.{◌≡◌, ◌<◌, ◌≤◌, ℕ, slice_index};
ghost use Rattle.tab_core.specs.declared.TheConstants.{MAX_VCPUS};
ghost use Rattle.view_text.specs.TextCharts.{held_at, leader, letter_at, letter_for, letter_of, owned_at};

use view_lanes::{Bar, Frame, edge_of, overlap, width_at};

// The letter of a column.
#[tactic(auto, using(crate::proofs::LetterLemmas::leader_same))]
pub(crate) fn letter_at(frame: &Frame, columns: u32, vcpus: usize, bars: &[Bar], j: u32) -> u8
    requires some { 0 < columns }
    requires few { columns ≤ 65536 }
    requires there { j < columns }
    requires vcpus { vcpus ≤ MAX_VCPUS }
    ensures { result ≡ letter_at frame.now columns vcpus bars.now j }
{
    let ticks = owned_at(frame, columns, bars, j);
    let v = leader(&ticks, vcpus);
    let idle = width_at(frame, columns, j).saturating_sub(held_at(frame, columns, bars, j));
    letter_for(v, ticks[v], idle)
}

// How many ticks of a column each vCPU has.
fn owned_at(frame: &Frame, columns: u32, bars: &[Bar], j: u32) -> [u64; 256]
    requires some { 0 < columns }
    requires few { columns ≤ 65536 }
    requires there { j < columns }
    ensures { (v : ℕ) → v < MAX_VCPUS → slice_index result v ≡ owned_at frame.now columns bars.now j v }
{
    let first = edge_of(frame, columns, j);
    let last = edge_of(frame, columns, j + 1);
    let wide = width_at(frame, columns, j);
    let mut ticks = [0u64; 256];
    for bar in bars {
        let i = usize::from(bar.key);
        ticks[i] = (ticks[i] + overlap(first, last, bar)).min(wide);
    }
    ticks
}

// How many ticks of a column are somebody's.
fn held_at(frame: &Frame, columns: u32, bars: &[Bar], j: u32) -> u64
    requires some { 0 < columns }
    requires few { columns ≤ 65536 }
    requires there { j < columns }
    ensures { result ≡ held_at frame.now columns bars.now j }
{
    let first = edge_of(frame, columns, j);
    let last = edge_of(frame, columns, j + 1);
    let wide = width_at(frame, columns, j);
    let mut held = 0;
    for bar in bars {
        held = (held + overlap(first, last, bar)).min(wide);
    }
    held
}

// Of so many vCPUs the lowest that has the most ticks.
fn leader(ticks: &[u64; 256], vcpus: usize) -> usize
    requires { vcpus ≤ MAX_VCPUS }
    ensures value { result ≡ leader (λ v. slice_index ticks.now v) vcpus }
    ensures small { result < MAX_VCPUS }
{
    let mut best = 0;
    for v in 0..vcpus {
        if ticks[best] < ticks[v] {
            best = v;
        }
    }
    best
}

// The letter of who has the most ticks, a colon where nobody had more, and a dot where no vCPU had any.
#[tactic(auto, unfolding(crate::specs::TextCharts::letter_for))]
fn letter_for(v: usize, most: u64, idle: u64) -> u8
    ensures { result ≡ letter_for v most idle }
{
    if most == 0 {
        b'.'
    } else if idle <= most {
        letter_of(v)
    } else {
        b':'
    }
}

// The letter of a vCPU.
pub(crate) fn letter_of(v: usize) -> u8
    ensures { result ≡ letter_of v }
{
    if v < 26 {
        97 + v as u8
    } else if v < 52 {
        39 + v as u8
    } else {
        b'#'
    }
}
