ghost use Rattle.std.specs.Prelude.{ℕ, ◌<◌, ◌≤◌, List, ◌∷◌, length, map};
ghost use Rattle.tab_core.specs.declared.TheConstants.{MAX_CORES, MAX_VCPUS};
ghost use Rattle.tab_io.specs.Sinks.{Writes};
ghost use Rattle.table_form.specs.Tables.Segments.{segments_from};
ghost use Rattle.tab_words.specs.Texts.{text_of};
ghost use Rattle.vcpu_names.specs.Names.{names_of};
ghost use Rattle.plan_text.specs.PlanLines.{core_lines, core_words};
ghost use Rattle.plan_text.specs.PlanText.{view_words};
ghost use Rattle.line_bytes.specs.Tails.{AreTails};

use crate::rows::put_row;
use line_bytes::{BLOCK, Block, Tail, tails_of};
use tab_core::Vcpu;
use tab_io::{Sink, WriteFault};
use tab_words::{TextPiece, put_line};
use table_form::CoreTable;

// Writes each core's lines.
pub(crate) fn put_cores<K: Sink>(
    sink: &mut K,
    vcpus: &[Vcpu],
    rows: &[CoreTable],
) -> Result<(), WriteFault>
    requires { length rows.now ≤ MAX_CORES }
    ensures { Writes (K.state sink.old) (K.state sink.new)
        (text_of (core_lines (view_words (names_of vcpus.now)) 0
        (map (segments_from 0) rows.now))) result }
{
    let tails = tails_of(vcpus, b'\n');
    let mut block = [0; BLOCK];
    for core in 0..rows.len() {
        put_core(sink, &tails, &mut block, core as u32, &rows[core])?;
    }
    Ok(())
}

// Writes the lines of one core. What is in the block means nothing.
fn put_core<K: Sink>(
    sink: &mut K,
    tails: &[Tail; 257],
    block: &mut Block,
    core: u32,
    row: &CoreTable,
) -> Result<(), WriteFault>
    ensures { (names : List (List ℕ)) → AreTails names 10 MAX_VCPUS tails.now
        → Writes (K.state sink.old) (K.state sink.new)
        (text_of (core_words core ∷ map (view_words names) (segments_from 0 row.now))) result }
{
    put_line(sink, &[TextPiece::Text(b"core"), TextPiece::Number(core)])?;
    put_row(sink, tails, block, row.segments())
}
