ghost use Rattle.std.specs.Prelude.{◌≡◌, ◌==◌, false, slice_index, true};
ghost use Rattle.script_doc.specs.Statements.{is_skipped};

use tab_words::Words;

/// Whether a line says nothing, in a script, a list of steps or of sizes: it has no words, or its first byte
/// is `#`.
pub fn is_skipped(line: &[u8]) -> bool
    ensures { result ≡ is_skipped line.now }
{
    if is_said(line) {
        return false;
    }
    Words::of(line).next().is_none() || is_comment(line)
}

// Whether the line is seen to say something by its ends. Nearly all lines begin with a letter or a digit, and
// most others end with one.
fn is_said(line: &[u8]) -> bool
    ensures { result ≡ true → is_skipped line.now ≡ false }
{
    if line.is_empty() {
        return false;
    }
    if line[0] > b'#' {
        return true;
    }
    if line[0] == b'#' {
        return false;
    }
    line[line.len() - 1] != b' '
}

fn is_comment(line: &[u8]) -> bool
    ensures { result ≡ (slice_index line.now 0 == 35) }
{
    match line.first() {
        Some(byte) => *byte == b'#',
        None => false,
    }
}
