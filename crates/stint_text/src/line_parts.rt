ghost use Rattle.std.specs.Prelude.{◌≡◌, ℕ, ◌+◌, ◌≤◌, List, [], ◌∷◌, ◌++◌, Some, codes, decimal, take};
ghost use Rattle.table_form.specs.Running.Choice.{runs_other};
ghost use Rattle.stint_text.specs.StintLine.{how_word, owned_line};
ghost use Rattle.line_bytes.specs.Tails.{tail_bytes, tail_text};
ghost use Rattle.line_bytes.specs.declared.block.TheConstants.{BLOCK, LINE};

use line_bytes::{Block, Tail, put_byte, put_number, put_short, put_tail};
use tab_core::{CoreNo, Stint, VcpuNo};

// Puts the line of a core's stint after the gathered bytes, which end at `at`, and answers where they end
// with it. The owner is that of the stint's first tick, and the tail that of whoever ran.
pub(crate) fn put_parts(
    block: &mut Block,
    at: usize,
    core: CoreNo,
    stint: &Stint,
    owner: &Option<VcpuNo>,
    tail: &Tail,
) -> usize
    requires { at + LINE ≤ BLOCK }
    ensures end { result ≤ BLOCK }
    ensures bytes { (names : List (List ℕ)) → tail_bytes tail.now ≡ tail_text names 32 stint.now.ran
        → take result block.new ≡ take at block.old ++ owned_line names core owner.now stint.now }
{
    let ticks = put_core(block, at, core);
    let counts = put_ticks(block, ticks, stint.from, stint.end);
    let ran = put_counts(block, counts, stint.used, stint.seen);
    let how = put_tail(block, ran, tail);
    put_how(block, how, owner, &stint.ran)
}

// The line's first two words, each with a space after it.
fn put_core(block: &mut Block, at: usize, core: CoreNo) -> usize
    requires { at + 18 ≤ BLOCK }
    ensures end { result ≤ at + 18 }
    ensures bytes { take result block.new ≡ take at block.old ++ (codes "core " ++ (decimal core ++ 32 ∷ [])) }
{
    let number = put_short(block, at, b"core \0\0\0", 5);
    let end = put_number(block, number, core.0);
    put_byte(block, end, b' ')
}

// Where the stint begins and ends, with a space between them.
fn put_ticks(block: &mut Block, at: usize, from: u32, end: u32) -> usize
    requires { at + 25 ≤ BLOCK }
    ensures end { result ≤ at + 25 }
    ensures bytes { take result block.new ≡ take at block.old ++ (decimal from ++ 32 ∷ decimal end) }
{
    let behind = put_number(block, at, from);
    let second = put_byte(block, behind, b' ');
    put_number(block, second, end)
}

// The two counts of events, each after its word.
fn put_counts(block: &mut Block, at: usize, used: u32, seen: u32) -> usize
    requires { at + 36 ≤ BLOCK }
    ensures end { result ≤ at + 36 }
    ensures bytes { take result block.new
        ≡ take at block.old ++ (codes " used " ++ (decimal used ++ (codes " seen " ++ decimal seen))) }
{
    let first = put_short(block, at, b" used \0\0", 6);
    let behind = put_number(block, first, used);
    let second = put_short(block, behind, b" seen \0\0", 6);
    put_number(block, second, seen)
}

// How whoever ran came to run, where this is the owner, and the line feed.
fn put_how(block: &mut Block, at: usize, owner: &Option<VcpuNo>, ran: &Option<VcpuNo>) -> usize
    requires { at + 8 ≤ BLOCK }
    ensures end { result ≤ at + 8 }
    ensures bytes { take result block.new
        ≡ take at block.old ++ (how_word (runs_other owner.now ran.now) ran.now ++ codes "\n") }
{
    let Some(vcpu) = ran else {
        return put_short(block, at, b"idle\n\0\0\0", 5);
    };
    if is_other(owner, vcpu) {
        put_short(block, at, b"shared\n\0", 7)
    } else {
        put_short(block, at, b"slot\n\0\0\0", 5)
    }
}

// Whoever ran isn't the owner.
fn is_other(owner: &Option<VcpuNo>, ran: &VcpuNo) -> bool
    ensures { result ≡ runs_other owner.now (Some ran.now) }
{
    match owner {
        Some(owner) => owner != ran,
        None => true,
    }
}
