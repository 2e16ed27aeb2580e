ghost use Rattle.std.specs.Prelude.{◌+◌, ◌≤◌, IfOk};
ghost use Rattle.line_bytes.specs.Room.{MakesRoom};
ghost use Rattle.line_bytes.specs.declared.block.TheConstants.{BLOCK, LINE};

use crate::block::{Block, FULL};
use tab_io::{Sink, WriteFault, write_all};

/// Writes the gathered bytes, the first `count` of the block, where they are `FULL` or more, and answers how
/// many are gathered then. After these a line has room.
///
/// A fault leaves a prefix of them in the sink. Nothing is settled.
pub fn make_room<K: Sink>(sink: &mut K, block: &Block, count: usize) -> Result<usize, WriteFault>
    requires { count ≤ BLOCK }
    ensures room { IfOk result (λ left. left + LINE ≤ BLOCK) }
    ensures bytes { MakesRoom (K.state sink.old) (K.state sink.new) block.now count result }
{
    if count < FULL {
        return Ok(count);
    }
    write_all(sink, &block[..count])?;
    Ok(0)
}
