ghost use Rattle.std.specs.Prelude.{◌≡◌, ℕ, ◌+◌, ◌*◌, ◌<◌, ◌≤◌, ◌^◌, ◌↔◌, decimal, length, slice_index, IsTrue, SomeIff, IfSome, IfNone, MatchOption};
ghost use Rattle.std.specs.Char.{digit_value};
ghost use Rattle.std.specs.Str.Parse.{AllDigits, digits_value};
ghost use Rattle.tab_core.specs.declared.TheConstants.{MAX_CORES};
ghost use Rattle.tab_words.specs.Numbers.{Spells};

use tab_core::CoreNo;

/// The number that the bytes spell in decimal digits, with no sign and with no leading zero but in
/// `0` itself.
///
/// `None` exactly where the bytes are no such spelling of a number below 2^64.
pub fn read_number(bytes: &[u8]) -> Option<u64>
    ensures some { IfSome result (λ n. Spells bytes.now n) }
    ensures none { IfNone result ((n : ℕ) → Spells bytes.now n → ⊥) }
{
    if bytes.is_empty() || has_leading_zero(bytes) {
        return None;
    }
    number_of_digits(bytes)
}

/// The core's number that the word spells in decimal digits, where it is below the count of cores,
/// which is at most 32. None exactly where the word spells no such number.
pub fn read_core(word: &[u8], cores: u32) -> Option<CoreNo>
    requires { cores ≤ MAX_CORES }
    ensures { MatchOption result ((core : ℕ) → core < cores → word.now ≡ decimal core → ⊥)
        (λ core. (core < cores) × (word.now ≡ decimal core)) }
{
    let number = read_number(word)?;
    if number < u64::from(cores) {
        Some(CoreNo(number as u32))
    } else {
        None
    }
}

fn has_leading_zero(bytes: &[u8]) -> bool
    ensures { IsTrue result ↔ ((1 < length bytes.now) × (slice_index bytes.now 0 ≡ 48)) }
{
    bytes.len() > 1 && bytes[0] == b'0'
}

// The number that the digits write, where it is below 2^64. Leading zeros don't matter.
fn number_of_digits(bytes: &[u8]) -> Option<u64>
    ensures { SomeIff result (AllDigits 10 bytes.now × (digits_value 10 bytes.now < 2 ^ 64))
        (digits_value 10 bytes.now) }
{
    let mut number = 0;
    for byte in bytes {
        let Some(digit) = digit_of(*byte) else {
            return None;
        };
        let Some(more) = with_digit(number, digit) else {
            return None;
        };
        number = more;
    }
    Some(number)
}

fn digit_of(byte: u8) -> Option<u64>
    ensures { SomeIff result (digit_value byte < 10) (digit_value byte) }
{
    if byte.is_ascii_digit() {
        Some(u64::from(byte - b'0'))
    } else {
        None
    }
}

fn with_digit(number: u64, digit: u64) -> Option<u64>
    ensures { SomeIff result (number * 10 + digit < 2 ^ 64) (number * 10 + digit) }
{
    number.checked_mul(10)?.checked_add(digit)
}
