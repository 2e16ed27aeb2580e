ghost use Rattle.std.specs.Prelude.{◌≡◌, ◌+◌, ◌/◌, ◌%◌, ◌<◌, ◌≤◌, [], ◌∷◌, ◌++◌, decimal, drop, take};
ghost use Rattle.line_bytes.specs.Tails.{tail_bytes};
ghost use Rattle.line_bytes.specs.declared.block.TheConstants.{BLOCK};

use crate::tail::Tail;

/// Where so many bytes are gathered they are written. It is what a buffered writer holds, which passes on
/// so many without a copy.
pub const FULL: usize = 8192;

/// A line takes up at most so many bytes.
pub const LINE: usize = 128;

/// How many bytes are gathered at most: a line comes after fewer than `FULL`.
pub const BLOCK: usize = 8320;

/// Of a block the first bytes are gathered, and the others mean nothing.
pub type Block = [u8; BLOCK];

// The digits of the numbers from 0 to 99, two of each.
static PAIRS: [u8; 200] = *b"0001020304050607080910111213141516171819\
2021222324252627282930313233343536373839\
4041424344454647484950515253545556575859\
6061626364656667686970717273747576777879\
8081828384858687888990919293949596979899";

/// Puts the byte after the gathered ones, which end at `at` and don't fill the block, and answers where
/// they end with it.
#[tactic(auto, using(std::proofs::lemmas::List::take_more_set))]
pub fn put_byte(block: &mut Block, at: usize, byte: u8) -> usize
    requires { at < BLOCK }
    ensures end { result ≡ at + 1 }
    ensures bytes { take result block.new ≡ take at block.old ++ byte ∷ [] }
{
    block[at] = byte;
    at + 1
}

// The two digits of a number below 100.
fn put_pair(block: &mut Block, at: usize, n: u32) -> usize
    requires small { n < 100 }
    requires room { at + 2 ≤ BLOCK }
    ensures end { result ≡ at + 2 }
    ensures bytes { take result block.new ≡ take at block.old ++ (48 + n / 10) ∷ (48 + n % 10) ∷ [] }
{
    let place = n as usize * 2;
    let ones = put_byte(block, at, PAIRS[place]);
    put_byte(block, ones, PAIRS[place + 1])
}

// A number below 100, without a leading zero.
fn put_first(block: &mut Block, at: usize, n: u32) -> usize
    requires small { n < 100 }
    requires room { at + 2 ≤ BLOCK }
    ensures end { result ≤ at + 2 }
    ensures bytes { take result block.new ≡ take at block.old ++ decimal n }
{
    if n < 10 {
        return put_byte(block, at, b'0' + n as u8);
    }
    put_pair(block, at, n)
}

/// Puts a number of at most six digits, as the ticks of a round have, after the gathered bytes, which end
/// at `at`, and answers where they end with it. The block has room for six bytes there.
pub fn put_six(block: &mut Block, at: usize, n: u32) -> usize
    requires short { n < 1000000 }
    requires room { at + 6 ≤ BLOCK }
    ensures end { result ≤ at + 6 }
    ensures bytes { take result block.new ≡ take at block.old ++ decimal n }
{
    if n < 100 {
        return put_first(block, at, n);
    }
    if n < 10_000 {
        let high = put_first(block, at, n / 100);
        return put_pair(block, high, n % 100);
    }
    let top = put_first(block, at, n / 10_000);
    let middle = put_pair(block, top, n % 10_000 / 100);
    put_pair(block, middle, n % 10_000 % 100)
}

/// Puts a number after the gathered bytes, which end at `at`, and answers where they end with it. The block
/// has room for twelve bytes there.
pub fn put_number(block: &mut Block, at: usize, n: u32) -> usize
    requires { at + 12 ≤ BLOCK }
    ensures end { result ≤ at + 12 }
    ensures bytes { take result block.new ≡ take at block.old ++ decimal n }
{
    if n < 1_000_000 {
        return put_six(block, at, n);
    }
    // its first digits, and then the last six
    let rest = n % 1_000_000;
    let high = put_six(block, at, n / 1_000_000);
    let first = put_pair(block, high, rest / 10_000);
    let middle = put_pair(block, first, rest % 10_000 / 100);
    put_pair(block, middle, rest % 10_000 % 100)
}

fn put_four(block: &mut Block, at: usize, a: u8, b: u8, c: u8, d: u8) -> usize
    requires { at + 4 ≤ BLOCK }
    ensures end { result ≡ at + 4 }
    ensures bytes { take result block.new ≡ take at block.old ++ a ∷ b ∷ c ∷ d ∷ [] }
{
    let second = put_byte(block, at, a);
    let third = put_byte(block, second, b);
    let fourth = put_byte(block, third, c);
    put_byte(block, fourth, d)
}

/// Puts a word, the first `len` of eight bytes, after the gathered ones, which end at `at`, and answers
/// where they end with it. What lies after the word's end comes with it, and the next bytes are put over
/// that. The block has room for all eight there.
pub fn put_short(block: &mut Block, at: usize, word: &[u8; 8], len: usize) -> usize
    requires room { at + 8 ≤ BLOCK }
    requires short { len ≤ 8 }
    ensures end { result ≡ at + len }
    ensures bytes { take result block.new ≡ take at block.old ++ take len word.now }
{
    let (a, b, c, d) = (word[0], word[1], word[2], word[3]);
    let (e, f, g, h) = (word[4], word[5], word[6], word[7]);
    let half = put_four(block, at, a, b, c, d);
    put_four(block, half, e, f, g, h);
    at + len
}

// Eight bytes of a tail from `from` on. All are read before one is put, so they are copied at once.
fn put_eight(block: &mut Block, at: usize, tail: &[u8; 40], from: usize) -> usize
    requires room { at + 8 ≤ BLOCK }
    requires within { from + 8 ≤ 40 }
    ensures end { result ≡ at + 8 }
    ensures bytes { take result block.new ≡ take at block.old ++ take 8 (drop from tail.now) }
{
    let (a, b, c, d) = (tail[from], tail[from + 1], tail[from + 2], tail[from + 3]);
    let (e, f, g, h) = (
        tail[from + 4],
        tail[from + 5],
        tail[from + 6],
        tail[from + 7],
    );
    let half = put_four(block, at, a, b, c, d);
    put_four(block, half, e, f, g, h)
}

fn put_forty(block: &mut Block, at: usize, tail: &[u8; 40]) -> usize
    requires { at + 40 ≤ BLOCK }
    ensures end { result ≡ at + 40 }
    ensures bytes { take result block.new ≡ take at block.old ++ tail.now }
{
    let second = put_eight(block, at, tail, 0);
    let third = put_eight(block, second, tail, 8);
    let fourth = put_eight(block, third, tail, 16);
    let fifth = put_eight(block, fourth, tail, 24);
    put_eight(block, fifth, tail, 32)
}

/// Puts a tail after the gathered bytes, which end at `at`, and answers where they end with it. What lies
/// after the tail's end comes with it, and the next bytes are put over that. The block has room for forty
/// bytes there.
pub fn put_tail(block: &mut Block, at: usize, tail: &Tail) -> usize
    requires { at + 40 ≤ BLOCK }
    ensures end { result ≤ at + 40 }
    ensures bytes { take result block.new ≡ take at block.old ++ tail_bytes tail.now }
{
    if tail.len <= 8 {
        put_eight(block, at, &tail.bytes, 0);
        return at + tail.len;
    }
    put_forty(block, at, &tail.bytes);
    at + tail.len
}
