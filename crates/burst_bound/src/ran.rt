ghost use Rattle.std.specs.Prelude.{◌≡◌, ◌*◌, ◌<◌, ◌≤◌, ℕ, Some, length, slice_get};
ghost use Rattle.tab_core.specs.declared.TheConstants.{MAX_ROUNDS, ROUND};
ghost use Rattle.table_form.specs.Promises.Capped.{ticks_run};
ghost use Rattle.table_form.specs.Running.State.{State as StateValue};
ghost use Rattle.burst_bound.specs.Answers.{IsOneIfAny};
ghost use Rattle.burst_bound.specs.Bursts.{IsDoneAt};
ghost use Rattle.burst_bound.specs.declared.ran.RanPiece.{RanPiece as RanPieceValue};
ghost use Rattle.burst_bound.specs.Inside.Runs.{AreInPlace, AreRuns, CountsBegunPieces, IsFirstWith, IsReached, after_piece, place_of};

// Beyond each tick.
const TICKS: u64 = 4_294_967_296;

// The vCPU of this number ran from one tick up to another, on one core.
#[derive(Clone, Copy)]
pub(crate) struct RanPiece {
    pub(crate) vcpu: u32,
    pub(crate) from: u32,
    pub(crate) end: u32,
}

// When work for the vCPU that counts from this tick on is done, if it is in the run. `before` has for each
// of the pieces, which are in order, at how many ticks its vCPU ran before it.
pub(crate) fn done_in(
    pieces: &[RanPiece],
    before: &[u32],
    vcpu: u32,
    work: u32,
    seen: u32,
) -> Option<u32>
    requires { (rounds : ℕ) × (s : StateValue) × (rounds ≤ MAX_ROUNDS)
        × AreRuns rounds s pieces.now before.now }
    ensures { (rounds : ℕ) (s : StateValue) → rounds ≤ MAX_ROUNDS → seen ≤ rounds * ROUND
        → AreRuns rounds s pieces.now before.now → IsOneIfAny (IsDoneAt rounds s vcpu work seen) result }
{
    if work == 0 {
        return Some(seen);
    }
    let ticks = ran_before(pieces, before, vcpu, seen).checked_add(work)?;
    reached_at(pieces, before, vcpu, ticks)
}

// At how many ticks before this one the vCPU ran.
fn ran_before(pieces: &[RanPiece], before: &[u32], vcpu: u32, tick: u32) -> u32
    requires { (rounds : ℕ) × (s : StateValue) × (rounds ≤ MAX_ROUNDS)
        × AreRuns rounds s pieces.now before.now }
    ensures { (rounds : ℕ) (s : StateValue) → rounds ≤ MAX_ROUNDS → AreRuns rounds s pieces.now before.now
        → result ≡ ticks_run s vcpu 0 tick }
{
    let begun = begun_before(pieces, vcpu, tick);
    if begun == 0 {
        return 0;
    }
    let last = pieces[begun - 1];
    if last.vcpu != vcpu {
        return 0;
    }
    before[begun - 1] + (last.end.min(tick) - last.from)
}

// How many pieces begin before the vCPU's tick, in their order.
fn begun_before(pieces: &[RanPiece], vcpu: u32, tick: u32) -> usize
    requires { AreInPlace pieces.now }
    ensures { CountsBegunPieces pieces.now vcpu tick result }
{
    let place = place_of(vcpu, tick);
    pieces.partition_point(|piece| place_of(piece.vcpu, piece.from) < place)
}

// The least tick before which the vCPU ran at so many ticks, which are some.
fn reached_at(pieces: &[RanPiece], before: &[u32], vcpu: u32, ticks: u32) -> Option<u32>
    requires some { 1 ≤ ticks }
    requires runs { (rounds : ℕ) × (s : StateValue) × (rounds ≤ MAX_ROUNDS)
        × AreRuns rounds s pieces.now before.now }
    ensures { (rounds : ℕ) (s : StateValue) → rounds ≤ MAX_ROUNDS → AreRuns rounds s pieces.now before.now
        → IsReached rounds s vcpu ticks result }
{
    let reached = first_with(pieces, before, vcpu, ticks);
    if reached >= pieces.len() {
        return None;
    }
    let piece = pieces[reached];
    if piece.vcpu != vcpu {
        return None;
    }
    Some(piece.from + (ticks - before[reached]))
}

// The first of the pieces by whose end its vCPU ran at so many ticks, among those of the vCPU, or else the first
// after these.
fn first_with(pieces: &[RanPiece], before: &[u32], vcpu: u32, ticks: u32) -> usize
    requires { (rounds : ℕ) × (s : StateValue) × (rounds ≤ MAX_ROUNDS)
        × AreRuns rounds s pieces.now before.now }
    ensures { IsFirstWith pieces.now before.now vcpu ticks result }
{
    let place = place_of(vcpu, ticks);
    let mut low = 0;
    let mut high = pieces.len();
    while low < high {
        let middle = low + (high - low) / 2;
        if place_of(pieces[middle].vcpu, after_piece(pieces, before, middle)) < place {
            low = middle + 1;
        } else {
            high = middle;
        }
    }
    low
}

// At how many ticks the vCPU of the piece at this place ran up to the piece's end.
fn after_piece(pieces: &[RanPiece], before: &[u32], place: usize) -> u32
    requires within { place < length pieces.now }
    requires runs { (rounds : ℕ) × (s : StateValue) × (rounds ≤ MAX_ROUNDS)
        × AreRuns rounds s pieces.now before.now }
    ensures { (p : RanPieceValue) (b : ℕ) → slice_get pieces.now place ≡ Some p
        → slice_get before.now place ≡ Some b → result ≡ after_piece b p }
{
    let piece = pieces[place];
    before[place] + (piece.end - piece.from)
}

// A number by which ticks are in order, vCPU after vCPU.
pub(crate) fn place_of(vcpu: u32, tick: u32) -> u64
    ensures { result ≡ place_of vcpu tick }
{
    u64::from(vcpu) * TICKS + u64::from(tick)
}
