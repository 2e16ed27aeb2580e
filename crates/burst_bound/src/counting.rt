ghost use Rattle.std.specs.Prelude.{◌≡◌, ◌*◌, ◌-◌, ◌<◌, ◌≤◌, ◌^◌};
ghost use Rattle.tab_core.specs.declared.TheConstants.{MAX_ROUNDS, ROUND};
ghost use Rattle.table_form.specs.Promises.Capped.{ticks_run};
ghost use Rattle.table_form.specs.Running.State.{State as StateValue};
ghost use Rattle.burst_bound.specs.Answers.{IsOneIfAny};
ghost use Rattle.burst_bound.specs.Bursts.{IsDoneAt};
ghost use Rattle.burst_bound.specs.Inside.Counting.{ran_ticks_in, run_by};
ghost use Rattle.burst_bound.specs.KeptRuns.{IsKeptRun};

use core_workers::Crew;
use tab_core::{CoreNo, ROUND, Stint, VcpuNo};
use table_form::Course;

// When work for the vCPU that counts from this tick on is done, if it is before the run's end. The tick is
// found by bisection.
pub(crate) fn done_at(
    course: &Course,
    rounds: u32,
    crew: &Crew<'_>,
    vcpu: VcpuNo,
    work: u32,
    seen: u32,
) -> Option<u32>
    requires few { rounds ≤ MAX_ROUNDS }
    requires in_run { seen < rounds * ROUND }
    requires kept { (s : StateValue) × IsKeptRun course.now rounds crew.now s }
    ensures { (s : StateValue) → IsKeptRun course.now rounds crew.now s
        → IsOneIfAny (IsDoneAt rounds s vcpu work seen) result }
{
    let end = rounds * ROUND;
    if ticks_between(course, rounds, crew, vcpu, seen, end) < work {
        return None;
    }
    let mut low = seen;
    let mut high = end;
    while low < high {
        let middle = low + (high - low) / 2;
        if ticks_between(course, rounds, crew, vcpu, seen, middle) < work {
            low = middle + 1;
        } else {
            high = middle;
        }
    }
    Some(high)
}

// At how many of the ticks from one up to another, which is in the run, the vCPU ran.
fn ticks_between(
    course: &Course,
    rounds: u32,
    crew: &Crew<'_>,
    vcpu: VcpuNo,
    from: u32,
    end: u32,
) -> u32
    requires order { from ≤ end }
    requires in_run { end ≤ rounds * ROUND }
    requires kept { (s : StateValue) × IsKeptRun course.now rounds crew.now s }
    ensures { (s : StateValue) → IsKeptRun course.now rounds crew.now s
        → result ≡ ticks_run s vcpu from (end - from) }
{
    let mut ticks = 0;
    for core in 0..course.cores() {
        let stints = crew.actor(CoreNo(core)).stints();
        ticks += ticks_in(stints, vcpu, from, end);
    }
    ticks
}

// At how many of the ticks from one up to another the stints ran the vCPU.
#[tactic(auto, unfolding(crate::specs::Inside::Counting::run_by))]
fn ticks_in(stints: &[Stint], vcpu: VcpuNo, from: u32, end: u32) -> u32
    requires { run_by vcpu from end stints.now < 2 ^ 32 }
    ensures { result ≡ run_by vcpu from end stints.now }
{
    let mut ticks = 0;
    for stint in stints {
        ticks += run_in(stint, vcpu, from, end);
    }
    ticks
}

// At how many of these ticks the stint ran the vCPU.
fn run_in(stint: &Stint, vcpu: VcpuNo, from: u32, end: u32) -> u32
    ensures { result ≡ ran_ticks_in vcpu from end stint.now }
{
    match stint.ran {
        Some(ran) if ran == vcpu => stint.end.min(end).saturating_sub(stint.from.max(from)),
        _ => 0,
    }
}
