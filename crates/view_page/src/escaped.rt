ghost use Rattle.std.specs.Prelude.{◌≡◌, ◌<◌, length};
ghost use Rattle.tab_io.specs.Sinks.{Writes};
ghost use Rattle.tab_words.specs.Texts.{texts_below};
ghost use Rattle.view_page.specs.Pages.{byte_text, escaped, escaped_at};

use tab_io::{Sink, WriteFault, write_all};

// Writes bytes as HTML has them.
pub(crate) fn put_escaped<K: Sink>(sink: &mut K, bytes: &[u8]) -> Result<(), WriteFault>
    ensures { Writes (K.state sink.old) (K.state sink.new) (escaped bytes.now) result }
{
    for i in 0..bytes.len() {
        put_at(sink, bytes, i)?;
    }
    Ok(())
}

fn put_at<K: Sink>(sink: &mut K, bytes: &[u8], i: usize) -> Result<(), WriteFault>
    requires { i < length bytes.now }
    ensures { Writes (K.state sink.old) (K.state sink.new) (escaped_at bytes.now i) result }
{
    put_byte(sink, bytes[i])
}

fn put_byte<K: Sink>(sink: &mut K, byte: u8) -> Result<(), WriteFault>
    ensures { Writes (K.state sink.old) (K.state sink.new) (byte_text byte) result }
{
    if byte == b'&' {
        write_all(sink, b"&amp;")
    } else if byte == b'<' {
        write_all(sink, b"&lt;")
    } else if byte == b'>' {
        write_all(sink, b"&gt;")
    } else {
        write_all(sink, &[byte])
    }
}
