ghost use Rattle.std.specs.Prelude.{◌≡◌};
ghost use Rattle.tab_words.specs.Blocks.{PutsBehind};
ghost use Rattle.replay_text.specs.ReplayText.{entry_line};

use stint_text::{Numbered, StintLines};
use tab_core::{CoreNo, Entry};
use tab_io::{Sink, WriteFault};

// Puts the line of a core's entry into a round after the gathered ones.
#[tactic(auto, unfolding(crate::specs::ReplayText::entry_line))]
pub(crate) fn put_entry<K: Sink>(
    sink: &mut K,
    lines: &mut StintLines<'_>,
    core: CoreNo,
    entry: &Entry,
) -> Result<(), WriteFault>
    ensures names { lines.new.names ≡ lines.old.names }
    ensures bytes { PutsBehind (K.state sink.old) (K.state sink.new) lines.old.gathered lines.new.gathered
        (entry_line core entry.now) result }
{
    let core = Numbered {
        text: b"core ",
        number: core.0,
    };
    let round = Numbered {
        text: b" round ",
        number: entry.round,
    };
    let count = Numbered {
        text: b" count ",
        number: entry.used,
    };
    lines.put_numbers(sink, &core, &round, &count)
}
