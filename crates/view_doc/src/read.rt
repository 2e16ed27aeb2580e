ghost use Rattle.std.specs.Prelude.{ℕ, ◌<◌, ◌^◌, IfOk, IsErrOf, Ok, Err, length};
ghost use Rattle.view_doc.specs.Texts.{IsFirstBad};
ghost use Rattle.view_doc.specs.Views.{IsViewOf};

use crate::read_fault::ReadView;
use crate::reader::Reader;
use crate::view::View;
use std::alloc::Global;
use tab_words::Lines;

/// What a text of less than 2^31 bytes shows.
///
/// The text is a plan's, a replay's, or the stints of a trace with or without the report after them, or a
/// plan and one of the others with a line `%%` between them. Each line is words with one space or more
/// between them, and no line is skipped. vCPUs are numbered by the `vcpu` lines, then as they come first.
///
/// `BadLine` comes exactly where the bytes are no such text, and names the first bad line.
pub fn read_view(alloc: Global, bytes: &[u8]) -> Result<View, ReadView>
    requires { length bytes.now < 2 ^ 31 }
    ensures ok { IfOk result (IsViewOf bytes.now) }
    ensures bad_line { (bad : ℕ) → IsErrOf result (ReadView.BadLine bad) → IsFirstBad bytes.now bad }
{
    let mut reader = Reader::begin(alloc)?;
    let mut number = 0;
    for line in Lines::over(bytes) {
        number += 1;
        if !reader.take_line(alloc, line)? {
            return Err(ReadView::BadLine { line: number });
        }
    }
    if !reader.may_end() {
        return Err(ReadView::BadLine { line: number + 1 });
    }
    Ok(reader.into_view())
}
