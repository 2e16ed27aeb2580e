ghost use Rattle.std.specs.Prelude.{◌≡◌, ℕ, All, [], ◌∷◌, ◌++◌, IfOk, List, MatchOption, OnOk, Some};
ghost use Rattle.std.specs.Option.{option_to_list};
ghost use Rattle.host_trace.specs.declared.mark.Mark.{Mark};
ghost use Rattle.view_trace.specs.Drawable.{IsPlacedMark};
ghost use Rattle.view_trace.specs.Inside.Walks.{HasWalked};
ghost use Rattle.view_trace.specs.Stints.{AreClear, IsStintClash, stint_at, stints_up_to};

use host_trace::{Mark, State};
use std::alloc::{AllocError, Global};
use tab_core::{CoreNo, NoMemory, VcpuNo};

// A stretch of time, from the line of a number on, in which a vCPU runs on a CPU.
#[derive(Clone, Copy)]
pub(crate) struct TraceStint {
    pub(crate) line: u64,
    pub(crate) vcpu: VcpuNo,
    pub(crate) cpu: CoreNo,
    pub(crate) from_ns: u64,
    pub(crate) end_ns: u64,
}

// The stretches in which vCPUs run by these marks, up to a time, in the marks' order.
pub(crate) fn stints_of(
    alloc: Global,
    marks: &[Mark],
    end_ns: u64,
) -> Result<Vec<TraceStint>, NoMemory>
    requires placed { All IsPlacedMark marks.now }
    ensures { IfOk result (λ stints. stints.items ≡ stints_up_to end_ns marks.now) }
{
    let mut next = [end_ns; 256];
    let mut stints = Vec::new(alloc);
    for i in (0..marks.len()).rev() {
        walk_mark(&mut next, &mut stints, &marks[i])?;
    }
    stints.reverse();
    Ok(stints)
}

// Goes back by one mark: puts the stretch that begins there, and keeps when its vCPU's next mark is.
fn walk_mark(
    next: &mut [u64; 256],
    stints: &mut Vec<TraceStint>,
    mark: &Mark,
) -> Result<(), NoMemory>
    requires placed { IsPlacedMark mark.now }
    ensures { OnOk result ((end : ℕ) (marks : List Mark) → HasWalked end marks next.old stints.old.items
        → HasWalked end (mark.now ∷ marks) next.new stints.new.items) }
{
    let Some(vcpu) = mark.vcpu else {
        return Ok(());
    };
    let i = vcpu.index();
    put_stint(stints, stint_at(mark, vcpu, next[i]))?;
    next[i] = mark.time_ns;
    Ok(())
}

// Puts a stretch to the others, if there is one.
fn put_stint(stints: &mut Vec<TraceStint>, stint: Option<TraceStint>) -> Result<(), NoMemory>
    ensures { OnOk result (stints.new.items ≡ stints.old.items ++ option_to_list stint) }
{
    let Some(stint) = stint else {
        return Ok(());
    };
    match stints.push(stint) {
        Ok(()) => Ok(()),
        Err(_) => Err(AllocError),
    }
}

// The stretch that begins at a mark of a vCPU and ends at a time, if the vCPU runs there and it has a nanosecond.
fn stint_at(mark: &Mark, vcpu: VcpuNo, end_ns: u64) -> Option<TraceStint>
    requires placed { IsPlacedMark mark.now }
    requires own { mark.now.vcpu ≡ Some vcpu }
    ensures { option_to_list result ≡ stint_at mark.now end_ns }
{
    match (mark.state, mark.cpu) {
        (State::Run, Some(cpu)) if mark.time_ns < end_ns => Some(TraceStint {
            line: mark.line,
            vcpu,
            cpu: CoreNo(cpu),
            from_ns: mark.time_ns,
            end_ns,
        }),
        _ => None,
    }
}

// The line of the first stint that begins on a CPU before one that was there before has ended.
pub(crate) fn clash_in(stints: &[TraceStint]) -> Option<u64>
    ensures { MatchOption result (AreClear [] stints.now) (IsStintClash stints.now) }
{
    let mut ends = [0u64; 32];
    for stint in stints {
        let cpu = stint.cpu.index();
        if stint.from_ns < ends[cpu] {
            return Some(stint.line);
        }
        ends[cpu] = ends[cpu].max(stint.end_ns);
    }
    None
}
