ghost use Rattle.std.specs.Prelude.{◌≡◌, ◌+◌, ◌<◌, ◌^◌, ◌==◌, ℕ, IfSome, IfNone, Some, if◌then◌else◌};
ghost use Rattle.tab_core.specs.declared.TheConstants.{ROUND};
ghost use Rattle.table_form.specs.Tables.Rows.{RisesTo, cells_from};
ghost use Rattle.table_check.specs.Inside.Meetings.{IsFirstMeeting};

use tab_core::{ROUND, VcpuNo};
use table_form::Segment;

// A vCPU that is in two rows at one tick.
#[derive(Clone, Copy)]
pub(crate) struct Meeting {
    pub(crate) vcpu: VcpuNo,
    pub(crate) tick: u32,
}

// The owner of both segments, if they have one.
fn shared_owner(here: &Segment, there: &Segment) -> Option<VcpuNo>
    ensures both { IfSome result (λ v. (here.now.owner ≡ Some v) × (there.now.owner ≡ Some v)) }
    ensures none { IfNone result ((v : ℕ) → here.now.owner ≡ Some v → there.now.owner ≡ Some v → ⊥) }
{
    if here.owner.same(there.owner) {
        here.owner.vcpu()
    } else {
        None
    }
}

// The place of the segment that holds the tick, which is in this one or at its end.
fn place_at(segment: &Segment, place: usize, tick: u32) -> usize
    requires { place < 2 ^ 63 }
    ensures { result ≡ (if segment.now.end == tick then place + 1 else place) }
{
    if segment.end == tick {
        place + 1
    } else {
        place
    }
}

// The least tick at which both rows have one owner. It goes from one end of a segment to the next.
pub(crate) fn find_meeting(row: &[Segment], other: &[Segment]) -> Option<Meeting>
    requires rises { RisesTo 0 row.now ROUND }
    requires other_rises { RisesTo 0 other.now ROUND }
    ensures { IsFirstMeeting (cells_from 0 row.now) (cells_from 0 other.now) result }
{
    let mut here_at = 0;
    let mut there_at = 0;
    let mut tick = 0;
    'sweeping: while tick < ROUND {
        let here = &row[here_at];
        let there = &other[there_at];
        if let Some(vcpu) = shared_owner(here, there) {
            return Some(Meeting { vcpu, tick });
        }
        tick = here.end.min(there.end);
        here_at = place_at(here, here_at, tick);
        there_at = place_at(there, there_at, tick);
    }
    None
}
