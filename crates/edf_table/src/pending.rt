ghost use Rattle.std.specs.Prelude.{◌≡◌, ℕ, ◌+◌, ◌-◌, ◌*◌, ◌<◌, ◌≤◌, List, false, length, slice_index, slice_set, true};
ghost use Rattle.tab_core.specs.declared.TheConstants.{MAX_VCPUS, ROUND};
ghost use Rattle.tab_core.specs.declared.piece.Piece.{Piece};
ghost use Rattle.table_form.specs.Planning.Windows.{DistinctVcpus};
ghost use Rattle.edf_table.specs.Inside.Progress.{ArePending, AreTimely, IsJobInserted, IsJobOf, job_at};

use tab_core::{MAX_VCPUS, Piece, ROUND};

// A job that has begun and hasn't had its whole cost.
#[derive(Clone, Copy)]
pub(crate) struct Pending {
    // when it is due and, below that, its vCPU: the job of the lower key is the more urgent
    pub(crate) key: u32,
    // the ticks that it still has to get
    pub(crate) left: u32,
}

// How many pieces most cores have at most.
pub(crate) const FEW: usize = 32;

// No jobs of pieces that are few.
pub(crate) const FEW_JOBS: [Pending; FEW] = [Pending { key: 0, left: 0 }; FEW];

// No jobs: a core has at most one of each vCPU.
pub(crate) const NO_JOBS: [Pending; MAX_VCPUS as usize] = [Pending {
    key: 0,
    left: 0,
}; MAX_VCPUS as usize];

// The key of the piece's job that is due at this tick.
fn key_of(piece: &Piece, due: u32) -> u32
    requires { due ≤ 2 * ROUND }
    ensures { result ≡ due * MAX_VCPUS + piece.now.vcpu }
{
    due * MAX_VCPUS + piece.vcpu.0
}

// The job of the piece's window that begins at the tick.
pub(crate) fn job_from(piece: &Piece, tick: u32) -> Pending
    requires begun { piece.now.from ≤ tick }
    requires in_round { tick < ROUND }
    ensures key { result.key ≡ (tick - piece.now.from + piece.now.to) * MAX_VCPUS + piece.now.vcpu }
    ensures left { result.left ≡ piece.now.cost }
{
    let due = tick - piece.from + piece.to;
    Pending {
        key: key_of(piece, due),
        left: piece.cost,
    }
}

// Puts the job after those of the first `count` that are less urgent, before the others.
pub(crate) fn add(jobs: &mut [Pending], count: usize, job: Pending)
    requires { count < length jobs.old }
    ensures a_place_each { length jobs.new ≡ length jobs.old }
    ensures added { IsJobInserted jobs.old jobs.new count job }
{
    let mut place = count;
    while place > 0 && jobs[place - 1].key < job.key {
        jobs[place] = jobs[place - 1];
        place -= 1;
    }
    jobs[place] = job;
}

// Whether the most urgent job is due at the tick, where none is due before it.
pub(crate) fn is_late(jobs: &[Pending], count: usize, tick: u32) -> bool
    requires known { count ≤ length jobs.now }
    requires in_round { tick ≤ ROUND }
    ensures late { result ≡ true
        → (0 < count) × ((job_at jobs.now (count - 1)).key < (tick + 1) * MAX_VCPUS) }
    ensures timely { result ≡ false → 0 < count → (tick + 1) * MAX_VCPUS ≤ (job_at jobs.now (count - 1)).key }
{
    count > 0 && jobs[count - 1].key < (tick + 1) * MAX_VCPUS
}

// Gives the most urgent job so many of the ticks that it still has to get.
pub(crate) fn give(jobs: &mut [Pending], count: &mut usize, ticks: u32)
    requires some { 0 < count.old }
    requires known { count.old ≤ length jobs.old }
    requires lacks { ticks ≤ (job_at jobs.old (count.old - 1)).left }
    ensures a_place_each { length jobs.new ≡ length jobs.old }
    ensures pending { (pieces : List Piece) (given nexts : List ℕ) (i : ℕ) → DistinctVcpus pieces
        → i < length given → ArePending pieces given nexts jobs.old count.old
        → IsJobOf pieces given nexts (job_at jobs.old (count.old - 1)) i
        → ArePending pieces (slice_set given i (slice_index given i + ticks)) nexts jobs.new count.new }
    ensures timely { (tick : ℕ) → AreTimely jobs.old count.old tick → AreTimely jobs.new count.new tick }
{
    let top = *count - 1;
    let job = jobs[top];
    if ticks == job.left {
        *count = top;
    } else {
        jobs[top] = Pending {
            key: job.key,
            left: job.left - ticks,
        };
    }
}
