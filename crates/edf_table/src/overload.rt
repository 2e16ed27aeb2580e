ghost use Rattle.std.specs.Prelude.{◌≡◌, ◌⊎◌, ◌+◌, ◌<◌, ◌*◌, ◌/◌, ◌^◌, ◌≤◌, length};
ghost use Rattle.tab_core.specs.declared.TheConstants.{ROUND};
ghost use Rattle.table_form.specs.Planning.Jobs.{first_jobs, jobs_of, subtask_of};
ghost use Rattle.edf_table.specs.Overloads.{IsReportedOf};
ghost use Rattle.edf_table.specs.Inside.Progress.{IsFirstEnd, NoWindowBegins, SomeBegin, demand_from};
ghost use Rattle.table_form.specs.Planning.Windows.{DistinctVcpus};

use tab_core::{Over, Piece, ROUND};
use table_form::last_before;

// What the piece's window that begins at `start` costs, if there is one that ends by `end`.
fn cost_from(piece: &Piece, start: u32, end: u32) -> u32
    requires { end ≤ ROUND }
    ensures { result ≡ demand_from (first_jobs (subtask_of piece.now) (ROUND / piece.now.period)) start end }
{
    if start < piece.from {
        return 0;
    }
    if (start - piece.from) % piece.period != 0 {
        return 0;
    }
    if u64::from(start - piece.from) + u64::from(piece.to) > u64::from(end) {
        return 0;
    }
    piece.cost
}

// What the windows that begin at `start` and end by `end` cost.
fn demand_of_starts(pieces: &[Piece], start: u32, end: u32) -> u64
    requires few { length pieces.now ≤ 256 }
    requires in_round { end ≤ ROUND }
    ensures value { result ≡ demand_from (jobs_of pieces.now) start end }
    ensures small { result ≤ 256 * 2 ^ 32 }
{
    let mut sum: u64 = 0;
    for piece in pieces {
        sum += u64::from(cost_from(piece, start, end));
    }
    sum
}

// The greatest tick below `tick` at which a window begins, else 0.
fn last_begin(pieces: &[Piece], tick: u32) -> u32
    requires { 0 < tick }
    ensures earlier { result < tick }
    ensures one { (result ≡ 0) ⊎ SomeBegin pieces.now result }
    ensures none { NoWindowBegins pieces.now (length pieces.now) result tick }
{
    let mut begin = 0;
    for i in 0..pieces.len() {
        begin = begin.max(last_before(pieces[i].from, pieces[i].period, tick));
    }
    begin
}

// The overloaded interval of this end that begins last, found from begin to begin backwards.
pub(crate) fn last_overload(pieces: &[Piece], end: u32) -> Over
    requires distinct { DistinctVcpus pieces.now }
    requires end { IsFirstEnd (jobs_of pieces.now) end }
    ensures { IsReportedOf pieces.now result }
{
    let mut demand: u64 = 0;
    let mut from = end;
    while from > 0 {
        from = last_begin(pieces, from);
        demand += demand_of_starts(pieces, from, end);
        if demand > u64::from(end - from) {
            return Over {
                core: pieces[0].core,
                from,
                to: end,
                demand,
            };
        }
    }
    unreachable!()
}
