ghost use Rattle.std.specs.Prelude.{◌≡◌, ◌≢◌, ℕ, ◌+◌, ◌*◌, ◌++◌, ◌≤◌, ◌<◌, ◌^◌, List, IfSome, MatchOption, SomeIff, All, codes, length};
ghost use Rattle.std.specs.Char.{digit_value};
ghost use Rattle.std.specs.Str.Parse.{AllDigits, digits_value};
ghost use Rattle.sizes_doc.specs.Inside.Held.{HoldsSaturated, IsSaturated};
ghost use Rattle.sizes_doc.specs.Sizes.{AreDecimals, HasPoint};

use crate::measure::times;
use tab_words::read_number;

// The parts of a number with a point and at most so many decimals, of units that have this many parts.
pub(crate) fn pointed_of(bytes: &[u8], most: usize, factor: u64) -> Option<u64>
    requires most { most ≤ 9 }
    requires factor { factor ≤ 1000000000 }
    ensures { MatchOption result ((value : ℕ) → HasPoint most factor bytes.now value → ⊥)
        (HoldsSaturated (HasPoint most factor bytes.now)) }
{
    let Some((before, after)) = cut_at_point(bytes) else {
        return None;
    };
    let Some(number) = read_number(before) else {
        return None;
    };
    match decimals_of(after, most, factor) {
        Some(count) => Some(plus(times(number, factor), count)),
        None => None,
    }
}

// The sum, or the greatest of 64 bits.
fn plus(value: u64, more: u64) -> u64
    ensures { (whole : ℕ) → IsSaturated whole value → IsSaturated (whole + more) result }
{
    match value.checked_add(more) {
        Some(sum) => sum,
        None => u64::MAX,
    }
}

// What is before the first point and after it.
fn cut_at_point(bytes: &[u8]) -> Option<(&[u8], &[u8])>
    ensures { MatchOption result ((before after : List ℕ) → bytes.now ≢ before ++ codes "." ++ after)
        (λ parts. (bytes.now ≡ parts.0.now ++ codes "." ++ parts.1.now)
        × All (λ byte. byte ≢ 46) parts.0.now) }
{
    match bytes.iter().position(|byte| *byte == b'.') {
        Some(at) => Some((&bytes[..at], &bytes[at + 1..])),
        None => None,
    }
}

// The parts that these decimals come to, if there are at most so many, and these parts are whole.
fn decimals_of(bytes: &[u8], most: usize, factor: u64) -> Option<u64>
    requires most { most ≤ 9 }
    requires factor { factor ≤ 1000000000 }
    ensures { MatchOption result ((count : ℕ) → AreDecimals most factor bytes.now count → ⊥)
        (AreDecimals most factor bytes.now) }
{
    if bytes.is_empty() {
        return None;
    }
    if bytes.len() > most {
        return None;
    }
    match digits_of(bytes) {
        Some(number) => parts_of(number, bytes.len(), factor),
        None => None,
    }
}

// The whole parts that so many decimals of this number come to, if they come to whole ones.
fn parts_of(number: u64, decimals: usize, factor: u64) -> Option<u64>
    requires small { number < 1000000000 }
    requires few { decimals ≤ 9 }
    requires factor { factor ≤ 1000000000 }
    ensures { MatchOption result ((count : ℕ) → count * 10 ^ decimals ≡ number * factor → ⊥)
        (λ count. count * 10 ^ decimals ≡ number * factor) }
{
    let scale = scale_of(decimals);
    let parts = number * factor;
    if parts % scale != 0 {
        return None;
    }
    Some(parts / scale)
}

// The power of ten.
fn scale_of(decimals: usize) -> u64
    requires { decimals ≤ 9 }
    ensures power { result ≡ 10 ^ decimals }
    ensures some { 1 ≤ result }
{
    match decimals {
        0 => 1,
        1 => 10,
        2 => 100,
        3 => 1000,
        4 => 10_000,
        5 => 100_000,
        6 => 1_000_000,
        7 => 10_000_000,
        8 => 100_000_000,
        _ => 1_000_000_000,
    }
}

// The number that at most nine digits write.
fn digits_of(bytes: &[u8]) -> Option<u64>
    requires { length bytes.now ≤ 9 }
    ensures number { SomeIff result (AllDigits 10 bytes.now) (digits_value 10 bytes.now) }
    ensures small { IfSome result (λ number. number < 1000000000) }
{
    let mut number: u64 = 0;
    for byte in bytes {
        let Some(digit) = digit_of(*byte) else {
            return None;
        };
        number = number * 10 + digit;
    }
    Some(number)
}

fn digit_of(byte: u8) -> Option<u64>
    ensures { SomeIff result (digit_value byte < 10) (digit_value byte) }
{
    if byte.is_ascii_digit() {
        Some(u64::from(byte - b'0'))
    } else {
        None
    }
}
