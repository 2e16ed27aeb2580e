ghost use Rattle.std.specs.Prelude.{◌≡◌, ◌-◌, ◌<◌, ◌≤◌, None, false, map};
ghost use Rattle.tab_core.specs.VcpuSets.{has_vcpu};
ghost use Rattle.tab_core.specs.declared.TheConstants.{ROUND};
ghost use Rattle.table_form.specs.Tables.Segments.{AreMaximal, segment_view, segments_from};
ghost use Rattle.coalesce.specs.Joining.{filled, is_given};
ghost use Rattle.coalesce.specs.Inside.Passing.{given_all};

use tab_core::VcpuSet;
use table_form::{CoreTable, Owner, Segment};

// Whether the segment is short and idle, and the owner of the one before it, which ends at `start`,
// may have it.
fn is_given(before: Owner, start: u32, segment: &Segment, may_grow: &VcpuSet, sliver: u32) -> bool
    requires { start ≤ segment.now.end }
    ensures { result ≡ is_given (has_vcpu may_grow.now) sliver before segment.now.owner
        (segment.now.end - start) }
{
    let Some(vcpu) = before.vcpu() else {
        return false;
    };
    if segment.owner.vcpu().is_some() || sliver <= segment.end - start {
        return false;
    }
    may_grow.has(vcpu)
}

// Gives each short idle segment to the vCPU before it, if that may have more, and answers whether
// there was one.
fn give_all(segments: &mut Vec<Segment>, may_grow: &VcpuSet, sliver: u32) -> bool
    requires { AreMaximal 0 (map segment_view segments.old.items) ROUND }
    ensures given { map segment_view segments.new.items ≡ given_all (has_vcpu may_grow.now) sliver
        (record { owner = None; end = 0 }) (map segment_view segments.old.items) }
    ensures none { result ≡ false → segments.new.items ≡ segments.old.items }
{
    let mut some = false;
    let mut before = Owner::of(None);
    let mut start = 0;
    for at in 0..segments.len() {
        let segment = segments[at];
        if is_given(before, start, &segment, may_grow, sliver) {
            segments[at] = Segment {
                owner: before,
                end: segment.end,
            };
            some = true;
        }
        before = segment.owner;
        start = segment.end;
    }
    some
}

// The row of the segments of which each short idle one has gone to the vCPU before it, if that may
// have more. Only where there was one are neighbours joined again.
pub(crate) fn fill_all(mut segments: Vec<Segment>, may_grow: &VcpuSet, sliver: u32) -> CoreTable
    requires { AreMaximal 0 (map segment_view segments.items) ROUND }
    ensures { segments_from 0 result
        ≡ filled (has_vcpu may_grow.now) sliver (map segment_view segments.items) }
{
    if give_all(&mut segments, may_grow, sliver) {
        return CoreTable::of_rising(segments);
    }
    CoreTable::of_maximal(segments)
}
