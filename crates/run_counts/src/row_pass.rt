ghost use Rattle.std.specs.Prelude.{◌≡◌, ◌+◌, ◌<◌, ◌≤◌, ℕ, length, take};
ghost use Rattle.tab_core.specs.declared.TheConstants.{MAX_VCPUS, ROUND};
ghost use Rattle.table_form.specs.Promises.Offered.{some_row_has};
ghost use Rattle.run_counts.specs.Inside.Sweeps.{IsToldIfShort};
ghost use Rattle.run_counts.specs.Stretches.{IsSmall, no_ticks, offered_to, stretch_at};

use crate::stretch::Stretch;
use tab_core::ROUND;
use table_form::CoreTable;

// Lengthens the stretches by what the rows offer, one row after the other. A stretch is longer than the
// round if its vCPU's segments, taken so, aren't in the order of time.
pub(crate) fn offer_rows(rows: &[CoreTable], stretches: &mut [Stretch])
    requires size { length stretches.old ≡ MAX_VCPUS }
    requires none { (v : ℕ) → v < MAX_VCPUS → stretch_at stretches.old v ≡ no_ticks }
    ensures size { length stretches.new ≡ MAX_VCPUS }
    ensures told { (v : ℕ) → v < MAX_VCPUS
        → IsToldIfShort (some_row_has rows.now v) (stretch_at stretches.new v) }
{
    for core in 0..rows.len() {
        offer_row(rows, core, stretches);
    }
}

// Lengthens the stretches by what one row offers, where those of the rows before it are done.
fn offer_row(rows: &[CoreTable], core: usize, stretches: &mut [Stretch])
    requires core { core < length rows.now }
    requires size { length stretches.old ≡ MAX_VCPUS }
    requires told { (v : ℕ) → v < MAX_VCPUS
        → IsToldIfShort (some_row_has (take core rows.now) v) (stretch_at stretches.old v) }
    ensures size { length stretches.new ≡ MAX_VCPUS }
    ensures told { (v : ℕ) → v < MAX_VCPUS
        → IsToldIfShort (some_row_has (take (core + 1) rows.now) v) (stretch_at stretches.new v) }
{
    let segments = rows[core].segments();
    let mut begin = 0;
    for segment in segments {
        if let Some(vcpu) = segment.owner.vcpu() {
            let at = vcpu.index();
            stretches[at] = lengthened(stretches[at], begin, segment.end);
        }
        begin = segment.end;
    }
}

// The stretch with a segment of its vCPU after it, or one longer than the round if it ends after the
// segment's begin.
fn lengthened(stretch: Stretch, begin: u32, end: u32) -> Stretch
    requires small { stretch.ticks ≤ begin → IsSmall stretch }
    requires end { begin ≤ end }
    ensures offered { stretch.ticks ≤ begin → result ≡ offered_to stretch begin end }
    ensures late { begin < stretch.ticks → ROUND < result.ticks }
{
    if stretch.ticks > begin {
        Stretch::waiting(ROUND + 1)
    } else {
        stretch.offered_to(begin, end)
    }
}
