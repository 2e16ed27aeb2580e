ghost use Rattle.std.specs.Prelude.{◌≡◌, ℕ, ◌+◌, ◌<◌, ◌≤◌, length, slice_index};
ghost use Rattle.tab_core.specs.declared.TheConstants.{MAX_VCPUS, ROUND};
ghost use Rattle.table_form.specs.Planning.Jobs.{jobs_of};
ghost use Rattle.edf_table.specs.Inside.Progress.{ArePiecesKept, GoesTo, IsUnderWay};
ghost use Rattle.table_form.specs.Planning.Windows.{DistinctVcpus};

use crate::pending::{Pending, add, give, job_from};
use tab_core::{MAX_VCPUS, Piece, ROUND, VcpuNo};

// Puts the tick at which the first window of each piece begins.
pub(crate) fn put_first_begins(pieces: &[Piece], begins: &mut [u32])
    requires { length pieces.now ≤ length begins.old }
    ensures a_begin_each { length begins.new ≡ length begins.old }
    ensures kept { ArePiecesKept pieces.now begins.new (length pieces.now) 0 0 }
{
    for i in 0..pieces.len() {
        begins[i] = pieces[i].from;
    }
}

// Begins the windows of the tick.
fn begin_windows(
    pieces: &[Piece],
    begins: &mut [u32],
    jobs: &mut [Pending],
    count: &mut usize,
    tick: u32,
)
    requires distinct { DistinctVcpus pieces.now }
    requires a_begin_each { length pieces.now ≤ length begins.old }
    requires a_place_each { length pieces.now ≤ length jobs.old }
    requires under_way { IsUnderWay pieces.now begins.old jobs.old count.old tick tick (tick + 1) tick }
    requires in_round { tick < ROUND }
    ensures a_begin_each { length begins.new ≡ length begins.old }
    ensures a_place_each { length jobs.new ≡ length jobs.old }
    ensures under_way { IsUnderWay pieces.now begins.new jobs.new count.new tick (tick + 1) (tick + 1)
        (tick + 1) }
{
    for i in 0..pieces.len() {
        if begins[i] == tick {
            add(jobs, *count, job_from(&pieces[i], tick));
            *count += 1;
            begins[i] = tick + pieces[i].period;
        }
    }
}

// The least of the first begins, and at most the round's end. It is a function of its own, beside
// their search, so that the compiler takes several at once.
fn least_of(begins: &[u32], count: usize) -> u32
    requires known { count ≤ length begins.now }
    ensures in_round { result ≤ ROUND }
    ensures least { (i : ℕ) → i < count → result ≤ slice_index begins.now i }
    ensures later { (tick : ℕ) → tick < ROUND → ((i : ℕ) → i < count → tick < slice_index begins.now i)
        → tick < result }
{
    let mut least = ROUND;
    for i in 0..count {
        least = least.min(begins[i]);
    }
    least
}

// The next tick at which a window begins, or the round's end, once those of this tick have begun: at
// `event` some do.
pub(crate) fn next_event(
    pieces: &[Piece],
    begins: &mut [u32],
    jobs: &mut [Pending],
    count: &mut usize,
    tick: u32,
    event: u32,
) -> u32
    requires distinct { DistinctVcpus pieces.now }
    requires a_begin_each { length pieces.now ≤ length begins.old }
    requires a_place_each { length pieces.now ≤ length jobs.old }
    requires under_way { IsUnderWay pieces.now begins.old jobs.old count.old tick tick (tick + 1) event }
    requires in_time { tick ≤ event }
    requires in_round { tick < ROUND }
    requires within { event ≤ ROUND }
    ensures a_begin_each { length begins.new ≡ length begins.old }
    ensures a_place_each { length jobs.new ≡ length jobs.old }
    ensures later { tick < result }
    ensures in_round { result ≤ ROUND }
    ensures under_way { IsUnderWay pieces.now begins.new jobs.new count.new tick (tick + 1) (tick + 1)
        result }
{
    if tick < event {
        return event;
    }
    begin_windows(pieces, begins, jobs, count, tick);
    least_of(begins, pieces.len())
}

// The ticks up to `end` that go to one vCPU, or to none.
#[derive(Clone, Copy)]
pub(crate) struct Turn {
    pub owner: Option<VcpuNo>,
    pub end: u32,
}

// Runs the most urgent job until it has its ticks, it is due, or a window begins at `event`.
pub(crate) fn run_turn(
    pieces: &[Piece],
    begins: &[u32],
    jobs: &mut [Pending],
    count: &mut usize,
    tick: u32,
    event: u32,
) -> Turn
    requires distinct { DistinctVcpus pieces.now }
    requires under_way { IsUnderWay pieces.now begins.now jobs.old count.old tick (tick + 1) (tick + 1)
        event }
    requires before { tick < event }
    requires in_round { event ≤ ROUND }
    ensures later { tick < result.end }
    ensures within { result.end ≤ event }
    ensures a_place_each { length jobs.new ≡ length jobs.old }
    ensures under_way { IsUnderWay pieces.now begins.now jobs.new count.new result.end result.end
        result.end event }
    ensures goes { GoesTo (jobs_of pieces.now) tick result.end result.owner }
{
    if *count == 0 {
        return Turn {
            owner: None,
            end: event,
        };
    }
    let job = jobs[*count - 1];
    let end = event.min(job.key / MAX_VCPUS);
    let ticks = job.left.min(end - tick);
    give(jobs, count, ticks);
    Turn {
        owner: Some(VcpuNo(job.key % MAX_VCPUS)),
        end: tick + ticks,
    }
}
