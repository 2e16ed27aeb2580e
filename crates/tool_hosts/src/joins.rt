ghost use Rattle.std.specs.Prelude.{◌<◌, ◌^◌, length};

use section_join::{first_cut, lacks_feed, returns_in, write_mended, write_separator};
use tab_io::{Sink, WriteFault};
use tool_input::{Fault, Input, finish, input_of, output_of};

/// Does `sections`: it writes files as the sections of one text, and tells what it mended.
pub fn sections(rt: &HostRuntime, paths: &[&str]) -> Result<(), Fault> {
    let mut texts = Vec::new(rt.alloc());
    let mut has_read = false;
    for path in paths {
        let is_input = *path == "-";
        if is_input && has_read {
            return Err(Fault::TwoInputs);
        }
        has_read = has_read || is_input;
        let Input { place, bytes } = input_of(rt, Some(*path))?;
        if let Some(line) = first_cut(&bytes) {
            return Err(Fault::HasSeparator { place, line });
        }
        tell_mended(rt, &place, &bytes);
        texts.push(bytes)?;
    }
    let mut sink = output_of(rt)?;
    put_texts(&mut sink, texts.as_slice())?;
    finish(&mut sink)
}

// Tells on standard error what is mended in a file.
fn tell_mended(rt: &HostRuntime, place: &str, text: &[u8])
    requires { length text.now < 2 ^ 31 }
{
    let returns = returns_in(text);
    if returns > 0 {
        // (where a line can't be written, what is written stays as it is)
        let _ = eprintln!(rt;
            "tableau-tools: {place}lines that ended in a carriage return: {returns}"
        );
    }
    if lacks_feed(text) {
        let _ = eprintln!(rt; "tableau-tools: {place}the last line had no line feed");
    }
}

// Writes the texts with mended ends and a separator between each two.
fn put_texts<K: Sink>(sink: &mut K, texts: &[Vec<u8>]) -> Result<(), WriteFault> {
    for (number, text) in texts.iter().enumerate() {
        if number > 0 {
            write_separator(sink)?;
        }
        write_mended(sink, text)?;
    }
    Ok(())
}
