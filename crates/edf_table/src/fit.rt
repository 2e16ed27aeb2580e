ghost use Rattle.std.specs.Prelude.{◌≤◌, IfNone, IfSome, length};
ghost use Rattle.table_form.specs.Planning.Demand.{Fits};
ghost use Rattle.table_form.specs.Planning.Jobs.{jobs_of};
ghost use Rattle.edf_table.specs.Overloads.{IsReportedOf};
ghost use Rattle.edf_table.specs.Inside.Progress.{IsFirstEnd};
ghost use Rattle.table_form.specs.Planning.Windows.{DistinctVcpus};

use crate::common::common_period;
use crate::light::are_unsplit_and_light;
use crate::overload::last_overload;
use crate::pending::{FEW, FEW_JOBS, NO_JOBS, Pending, is_late};
use crate::turn::{next_event, put_first_begins, run_turn};
use tab_core::{MAX_VCPUS, Over, Piece};

// The first tick at which a window ends without its cost. Where there is none up to a multiple of
// all periods, there is none in the round, since the simulation then repeats itself. What is in
// `begins` and `jobs` means nothing.
fn first_miss_in(pieces: &[Piece], begins: &mut [u32], jobs: &mut [Pending]) -> Option<u32>
    requires distinct { DistinctVcpus pieces.now }
    requires a_begin_each { length pieces.now ≤ length begins.old }
    requires a_place_each { length pieces.now ≤ length jobs.old }
    ensures none { IfNone result (Fits (jobs_of pieces.now)) }
    ensures some { IfSome result (λ end. IsFirstEnd (jobs_of pieces.now) end) }
{
    let common = common_period(pieces);
    put_first_begins(pieces, begins);
    let mut count = 0;
    let mut tick = 0;
    let mut event = 0;
    while tick < common {
        if is_late(jobs, count, tick) {
            return Some(tick);
        }
        event = next_event(pieces, begins, jobs, &mut count, tick, event);
        tick = run_turn(pieces, begins, jobs, &mut count, tick, event).end;
    }
    if is_late(jobs, count, tick) {
        Some(tick)
    } else {
        None
    }
}

// The first tick at which a window ends without its cost, with tables of its own: short ones for
// few pieces, since each is cleared first.
fn first_miss(pieces: &[Piece]) -> Option<u32>
    requires { DistinctVcpus pieces.now }
    ensures none { IfNone result (Fits (jobs_of pieces.now)) }
    ensures some { IfSome result (λ end. IsFirstEnd (jobs_of pieces.now) end) }
{
    if are_unsplit_and_light(pieces) {
        return None;
    }
    if pieces.len() <= FEW {
        return first_miss_in(pieces, &mut [0; FEW], &mut FEW_JOBS);
    }
    first_miss_in(pieces, &mut [0; MAX_VCPUS as usize], &mut NO_JOBS)
}

/// The overloaded interval of one core's pieces, and none exactly where they fit.
///
/// Of the overloaded intervals it is the one of least end, and of those the one of greatest begin.
/// Its core is that of the first piece. No two pieces may be of one vCPU. It takes no memory, and
/// builds no row.
///
/// Source: the processor-demand criterion of S. K. Baruah, L. E. Rosier and R. R. Howell,
/// Real-Time Systems 2, 1990.
pub fn find_overload(pieces: &[Piece]) -> Option<Over>
    requires distinct { DistinctVcpus pieces.now }
    ensures fits { IfNone result (Fits (jobs_of pieces.now)) }
    ensures overload { IfSome result (IsReportedOf pieces.now) }
{
    match first_miss(pieces) {
        None => None,
        Some(end) => Some(last_overload(pieces, end)),
    }
}
