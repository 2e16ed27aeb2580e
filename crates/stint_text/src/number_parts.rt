ghost use Rattle.std.specs.Prelude.{◌≡◌, ◌+◌, ◌≤◌, ◌++◌, decimal, length, take};
ghost use Rattle.stint_text.specs.NumbersLine.{numbers_line};
ghost use Rattle.line_bytes.specs.declared.block.TheConstants.{BLOCK, LINE};

use crate::numbered::Numbered;
use line_bytes::{Block, put_byte, put_number};

// Puts the line of three of them after the gathered bytes, which end at `at`, and answers where they end
// with it.
pub(crate) fn put_three(
    block: &mut Block,
    at: usize,
    first: &Numbered<'_>,
    second: &Numbered<'_>,
    third: &Numbered<'_>,
) -> usize
    requires { at + LINE ≤ BLOCK }
    ensures end { result ≤ BLOCK }
    ensures bytes { take result block.new
        ≡ take at block.old ++ numbers_line first.now second.now third.now }
{
    let one = put_one(block, at, first);
    let two = put_one(block, one, second);
    let three = put_one(block, two, third);
    put_byte(block, three, b'\n')
}

fn put_one(block: &mut Block, at: usize, one: &Numbered<'_>) -> usize
    requires { at + 20 ≤ BLOCK }
    ensures end { result ≤ at + 20 }
    ensures bytes { take result block.new ≡ take at block.old ++ (one.now.text.now ++ decimal one.now.number) }
{
    let behind = put_text(block, at, one.text);
    put_number(block, behind, one.number)
}

fn put_text(block: &mut Block, at: usize, text: &[u8]) -> usize
    requires { at + length text.now ≤ BLOCK }
    ensures end { result ≡ at + length text.now }
    ensures bytes { take result block.new ≡ take at block.old ++ text.now }
{
    let mut end = at;
    for byte in text {
        end = put_byte(block, end, *byte);
    }
    end
}
