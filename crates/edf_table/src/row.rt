ghost use Rattle.std.specs.Prelude.{◌≡◌, ◌+◌, ◌*◌, ◌/◌, ◌<◌, ◌≤◌, ◌++◌, IfOk, OnOk, length, map};
ghost use Rattle.tab_core.specs.declared.TheConstants.{ROUND};
ghost use Rattle.table_form.specs.Planning.Demand.{Fits};
ghost use Rattle.table_form.specs.Planning.EdfRow.{edf_cells, owner_of};
ghost use Rattle.table_form.specs.Planning.Jobs.{jobs_of};
ghost use Rattle.table_form.specs.Planning.Windows.{DistinctVcpus};
ghost use Rattle.table_form.specs.Tables.Rows.{RisesTo, cells_from};
ghost use Rattle.table_form.specs.Tables.Segments.{AreMaximal, segment_view};
ghost use Rattle.edf_table.specs.Inside.Progress.{MetBefore};
ghost use Rattle.edf_table.specs.Inside.Repetition.{so_often};

use crate::pending::{FEW, FEW_JOBS, NO_JOBS, Pending};
use crate::turn::{next_event, put_first_begins, run_turn};
use std::alloc::{AllocError, Global};
use tab_core::{MAX_VCPUS, Piece, ROUND};
use table_form::{CoreTable, Owner, Segment, push_segment};

// The maximal segments of the ticks below `end`, of pieces that fit. What is in `begins` and `jobs`
// means nothing.
fn first_segments_in(
    alloc: Global,
    pieces: &[Piece],
    end: u32,
    begins: &mut [u32],
    jobs: &mut [Pending],
) -> Result<Vec<Segment>, AllocError>
    requires distinct { DistinctVcpus pieces.now }
    requires fits { Fits (jobs_of pieces.now) }
    requires in_round { end ≤ ROUND }
    requires a_begin_each { length pieces.now ≤ length begins.old }
    requires a_place_each { length pieces.now ≤ length jobs.old }
    ensures maximal { IfOk result (λ segments. AreMaximal 0 (map segment_view segments.items) end) }
    ensures cells { IfOk result (λ segments. cells_from 0 segments.items
        ≡ map owner_of (edf_cells (jobs_of pieces.now) end)) }
    ensures met { IfOk result (λ _. MetBefore (jobs_of pieces.now) (end + 1)) }
{
    put_first_begins(pieces, begins);
    let mut count = 0;
    let mut segments = Vec::new(alloc);
    let mut tick = 0;
    let mut event = 0;
    while tick < end {
        event = next_event(pieces, begins, jobs, &mut count, tick, event);
        let turn = run_turn(pieces, begins, jobs, &mut count, tick, event.min(end));
        let segment = Segment {
            owner: Owner::of(turn.owner),
            end: turn.end,
        };
        push_segment(&mut segments, segment)?;
        tick = turn.end;
    }
    Ok(segments)
}

// The maximal segments of the ticks below `end`, with tables of its own: short ones for few pieces,
// since each is cleared first.
pub(crate) fn first_segments(
    alloc: Global,
    pieces: &[Piece],
    end: u32,
) -> Result<Vec<Segment>, AllocError>
    requires distinct { DistinctVcpus pieces.now }
    requires fits { Fits (jobs_of pieces.now) }
    requires in_round { end ≤ ROUND }
    ensures maximal { IfOk result (λ segments. AreMaximal 0 (map segment_view segments.items) end) }
    ensures cells { IfOk result (λ segments. cells_from 0 segments.items
        ≡ map owner_of (edf_cells (jobs_of pieces.now) end)) }
    ensures met { IfOk result (λ _. MetBefore (jobs_of pieces.now) (end + 1)) }
{
    if pieces.len() <= FEW {
        return first_segments_in(alloc, pieces, end, &mut [0; FEW], &mut FEW_JOBS);
    }
    let mut begins = [0; MAX_VCPUS as usize];
    first_segments_in(alloc, pieces, end, &mut begins, &mut NO_JOBS)
}

// Appends segments, the first of which begins at tick 0, to those of a row up to the tick `begin`, from there on.
fn push_all(row: &mut Vec<Segment>, begin: u32, segments: &[Segment]) -> Result<(), AllocError>
    requires rises { RisesTo 0 segments.now (length (cells_from 0 segments.now)) }
    requires before { AreMaximal 0 (map segment_view row.old.items) begin }
    requires room { begin + length (cells_from 0 segments.now) ≤ ROUND }
    ensures maximal { OnOk result (AreMaximal 0 (map segment_view row.new.items)
        (begin + length (cells_from 0 segments.now))) }
    ensures cells { OnOk result (cells_from 0 row.new.items
        ≡ cells_from 0 row.old.items ++ cells_from 0 segments.now) }
{
    for segment in segments {
        let next = Segment {
            owner: segment.owner,
            end: begin + segment.end,
        };
        push_segment(row, next)?;
    }
    Ok(())
}

// The row in which the cells of these segments, one for each of so many ticks, come again and again.
pub(crate) fn repeated(
    alloc: Global,
    segments: Vec<Segment>,
    ticks: u32,
) -> Result<CoreTable, AllocError>
    requires maximal { AreMaximal 0 (map segment_view segments.items) ticks }
    requires some { 0 < ticks }
    requires whole { ROUND / ticks * ticks ≡ ROUND }
    ensures { IfOk result (λ row. row ≡ so_often (ROUND / ticks) (cells_from 0 segments.items)) }
{
    if ticks == ROUND {
        return Ok(CoreTable::of_maximal(segments));
    }
    let times = ROUND / ticks;
    let mut row = Vec::with_capacity(alloc, segments.len() * times as usize)?;
    for time in 0..times {
        push_all(&mut row, time * ticks, &segments)?;
    }
    Ok(CoreTable::of_maximal(row))
}
