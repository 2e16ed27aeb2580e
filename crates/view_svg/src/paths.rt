ghost use Rattle.std.specs.Prelude.{◌≡◌, ◌<◌, ◌++◌, length, slice_index};
ghost use Rattle.tab_io.specs.Sinks.{Writes};
ghost use Rattle.view_svg.specs.Drawings.{palette_view};
ghost use Rattle.view_svg.specs.Lanes.{key_note, key_word, path_begin, path_end, task_note};

use crate::drawing::Palette;
use tab_io::{Sink, WriteFault, write_all};
use tab_words::{TextPiece, put_pieces};
use view_lanes::{Frame, name_at, tenths_ms};

// Writes where the path of a key begins.
pub(crate) fn put_path_begin<K: Sink>(
    sink: &mut K,
    palette: &Palette<'_>,
    v: usize,
    class: &[u8],
) -> Result<(), WriteFault>
    requires { v < length palette.now.colours.now }
    ensures { Writes (K.state sink.old) (K.state sink.new)
        (path_begin (slice_index palette.now.colours.now v) class.now) result }
{
    put_begin(sink, palette.colours[v], class)
}

#[tactic(auto, unfolding(crate::specs::Lanes::path_begin))]
fn put_begin<K: Sink>(sink: &mut K, colour: u32, class: &[u8]) -> Result<(), WriteFault>
    ensures { Writes (K.state sink.old) (K.state sink.new) (path_begin colour class.now) result }
{
    put_pieces(
        sink,
        &[
            TextPiece::Text(b"<path class=\"c"),
            TextPiece::Number(colour),
            TextPiece::Text(class),
            TextPiece::Text(b"\" d=\""),
        ],
    )
}

// Writes how it ends.
pub(crate) fn put_path_end<K: Sink>(
    sink: &mut K,
    frame: &Frame,
    palette: &Palette<'_>,
    v: usize,
    word: &[u8],
) -> Result<(), WriteFault>
    ensures { Writes (K.state sink.old) (K.state sink.new)
        (path_end (key_note frame.now (palette_view palette.now) v) word.now) result }
{
    write_all(sink, b"\"><title>")?;
    put_note(sink, frame, palette, v)?;
    write_all(sink, word)?;
    write_all(sink, b"</title></path>\n")
}

// Writes what is said of a key.
fn put_note<K: Sink>(
    sink: &mut K,
    frame: &Frame,
    palette: &Palette<'_>,
    v: usize,
) -> Result<(), WriteFault>
    ensures { Writes (K.state sink.old) (K.state sink.new) (key_note frame.now (palette_view palette.now) v) result }
{
    let name = name_at(palette.names, v);
    match palette.tasks.get(v) {
        Some(task) => put_task_note(
            sink,
            name,
            task.home.0,
            tenths_ms(frame.tick, task.cost),
            tenths_ms(frame.tick, task.period),
        ),
        None => put_key(sink, key_word(frame.by_vcpu), name),
    }
}

// What a name without a reservation is.
fn key_word(by_vcpu: bool) -> &'static [u8]
    ensures { result.now ≡ key_word by_vcpu }
{
    if by_vcpu { b"core " } else { b"" }
}

fn put_key<'a, K: Sink>(sink: &mut K, word: &'a [u8], name: &'a [u8]) -> Result<(), WriteFault>
    ensures { Writes (K.state sink.old) (K.state sink.new) (word.now ++ name.now) result }
{
    put_pieces(sink, &[TextPiece::Text(word), TextPiece::Text(name)])
}

#[tactic(auto, unfolding(crate::specs::Lanes::task_note))]
fn put_task_note<K: Sink>(
    sink: &mut K,
    name: &[u8],
    home: u32,
    cost: u64,
    period: u64,
) -> Result<(), WriteFault>
    ensures { Writes (K.state sink.old) (K.state sink.new) (task_note name.now home cost period) result }
{
    put_pieces(
        sink,
        &[
            TextPiece::Text(name),
            TextPiece::Text(b": home core "),
            TextPiece::Number(home),
            TextPiece::Text(b", "),
            TextPiece::Wide(cost / 10),
            TextPiece::Text(b"."),
            TextPiece::Wide(cost % 10),
            TextPiece::Text(b" ms in each "),
            TextPiece::Wide(period / 10),
            TextPiece::Text(b"."),
            TextPiece::Wide(period % 10),
            TextPiece::Text(b" ms"),
        ],
    )
}
