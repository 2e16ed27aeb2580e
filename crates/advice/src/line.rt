ghost use Rattle.std.specs.Prelude.{◌≡◌, ◌<◌, ◌^◌, [], drop, length, slice_index_or};
ghost use Rattle.tab_words.specs.Lines.{lines_of};
ghost use Rattle.advice.specs.Lines.{line_at, section_at};

use tab_words::{Lines, cut_sections};

// The section of this number, from 0, of an input, or nothing where there is none.
pub(crate) fn section_at(input: &[u8], number: u32) -> &[u8]
    requires { length input.now < 2 ^ 32 }
    ensures { result.now ≡ section_at number input.now }
{
    let sections = cut_sections(input);
    if number < sections.count() {
        sections.part(number)
    } else {
        b""
    }
}

// The line of this number, from 1, of a text, or nothing where there is none.
pub(crate) fn line_at(text: &[u8], number: u32) -> &[u8]
    ensures { result.now ≡ line_at number text.now }
{
    first_of(&mut lines_after(text, number.saturating_sub(1)))
}

// The lines of a text after so many.
pub(crate) fn lines_after(text: &[u8], count: u32) -> Lines<'_>
    ensures { result ≡ drop count (lines_of text.now) }
{
    let mut lines = Lines::over(text);
    for _ in 0..count {
        step_over(&mut lines);
    }
    lines
}

fn step_over(lines: &mut Lines<'_>)
    ensures { lines.new ≡ drop 1 lines.old }
{
    let _ = lines.next();
}

// Takes the first of the lines; without one it is empty.
pub(crate) fn first_of<'a>(lines: &mut Lines<'a>) -> &'a [u8]
    ensures first { result.now ≡ slice_index_or lines.old 0 [] }
    ensures rest { lines.new ≡ drop 1 lines.old }
{
    match lines.next() {
        Some(line) => line,
        None => b"",
    }
}
