ghost use Rattle.std.specs.Prelude.{◌≡◌, ◌+◌, ◌≤◌, ℕ, List, ◌++◌, flat_map, map, take};
ghost use Rattle.tab_core.specs.declared.TheConstants.{MAX_VCPUS, ROUND};
ghost use Rattle.tab_io.specs.Sinks.{Writes};
ghost use Rattle.table_form.specs.Tables.Rows.{RisesTo};
ghost use Rattle.table_form.specs.Tables.Segments.{segment_view};
ghost use Rattle.plan_text.specs.PlanText.{segment_line};
ghost use Rattle.line_bytes.specs.Tails.{AreTails};
ghost use Rattle.line_bytes.specs.declared.block.TheConstants.{BLOCK, LINE};

use line_bytes::{Block, Tail, make_room, put_six, put_tail, tail_place};
use tab_io::{Sink, WriteFault, write_all};
use table_form::Segment;

// Writes the lines of a row's segments. They are gathered, since a plan has up to a million of them. What
// is in the block means nothing.
pub(crate) fn put_row<K: Sink>(
    sink: &mut K,
    tails: &[Tail; 257],
    block: &mut Block,
    segments: &[Segment],
) -> Result<(), WriteFault>
    requires { RisesTo 0 segments.now ROUND }
    ensures { (names : List (List ℕ)) → AreTails names 10 MAX_VCPUS tails.now
        → Writes (K.state sink.old) (K.state sink.new)
        (flat_map (segment_line names) (map segment_view segments.now)) result }
{
    let mut count = 0;
    for segment in segments {
        let at = make_room(sink, block, count)?;
        count = put_segment(block, at, tails, segment);
    }
    write_all(sink, &block[..count])
}

// Puts a segment's line after the gathered bytes, and answers where they end with it.
fn put_segment(block: &mut Block, at: usize, tails: &[Tail; 257], segment: &Segment) -> usize
    requires room { at + LINE ≤ BLOCK }
    requires in_round { segment.now.end ≤ ROUND }
    ensures end { result ≤ BLOCK }
    ensures bytes { (names : List (List ℕ)) → AreTails names 10 MAX_VCPUS tails.now
        → take result block.new ≡ take at block.old ++ segment_line names (segment_view segment.now) }
{
    let behind = put_six(block, at, segment.end);
    put_tail(block, behind, &tails[tail_place(&segment.owner.vcpu())])
}
