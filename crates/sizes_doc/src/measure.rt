ghost use Rattle.std.specs.Prelude.{◌≡◌, ◌≢◌, ℕ, ◌*◌, ◌++◌, ◌≤◌, List, IfErr, IfOk, MatchOption, decimal};
ghost use Rattle.sizes_doc.specs.Inside.Held.{HoldsSaturated, IsSaturated};
ghost use Rattle.sizes_doc.specs.Sizes.{IsBadLatency, IsBadShare, IsCount, IsLatency, IsMeasure, IsPercent, IsPercentage, IsPointed, IsShare, IsShareWord, IsTime, IsTimeIn, IsTimeOr};

use crate::decimals::pointed_of;
use crate::fault::Part;
use tab_core::{MAX_LATENCY_NS, MAX_VCPUS, WHOLE_PPM};
use tab_words::read_number;

// The count that a word is.
pub(crate) fn count_of(word: &[u8]) -> Option<u32>
    ensures { MatchOption result ((n : ℕ) → IsCount word.now n → ⊥) (IsCount word.now) }
{
    let Some(count) = read_number(word) else {
        return None;
    };
    if count < 1 {
        return None;
    }
    let most = u64::from(MAX_VCPUS);
    if count > most {
        return None;
    }
    Some(count as u32)
}

// The share that a word is, in parts per million, or why it is none.
pub(crate) fn share_of(word: &[u8]) -> Result<u32, Part>
    ensures ok { IfOk result (IsShare word.now) }
    ensures part { IfErr result (IsBadShare word.now) }
{
    let Some(ppm) = part_of(word) else {
        return match percentage_of(word) {
            Some(_) => Err(Part::ShareUnit),
            None => Err(Part::Share),
        };
    };
    if ppm == 0 {
        return Err(Part::ShareZero);
    }
    if ppm > u64::from(WHOLE_PPM) {
        return Err(Part::ShareAbove);
    }
    Ok(ppm as u32)
}

// The latency that a word is, in nanoseconds, or why it is none.
pub(crate) fn latency_of(word: &[u8]) -> Result<u64, Part>
    ensures ok { IfOk result (IsLatency word.now) }
    ensures part { IfErr result (IsBadLatency word.now) }
{
    let Some(ns) = read_time(word) else {
        return match in_unit(word, b"", 1) {
            Some(_) => Err(Part::LatencyUnit),
            None => Err(Part::Latency),
        };
    };
    if ns > MAX_LATENCY_NS {
        return Err(Part::LatencyAbove);
    }
    Ok(ns)
}

// The parts per million that a word is.
fn part_of(word: &[u8]) -> Option<u64>
    ensures { MatchOption result ((ppm : ℕ) → IsShareWord word.now ppm → ⊥) (HoldsSaturated (IsShareWord word.now)) }
{
    if let Some(ppm) = percent_of(word) {
        return Some(ppm);
    }
    in_unit(word, b"ppm", 1)
}

// The parts per million that a percentage with its sign is.
fn percent_of(word: &[u8]) -> Option<u64>
    ensures { MatchOption result ((ppm : ℕ) → IsPercent word.now ppm → ⊥) (HoldsSaturated (IsPercent word.now)) }
{
    let Some(bytes) = without(word, b"%") else {
        return None;
    };
    percentage_of(bytes)
}

// Those that a percentage without its sign is.
fn percentage_of(bytes: &[u8]) -> Option<u64>
    ensures { MatchOption result ((ppm : ℕ) → IsPercentage bytes.now ppm → ⊥)
        (HoldsSaturated (IsPercentage bytes.now)) }
{
    if let Some(ppm) = in_unit(bytes, b"", 10_000) {
        return Some(ppm);
    }
    pointed_of(bytes, 4, 10_000)
}

// The nanoseconds that a time is, or 2^64 - 1 if there are more.
fn read_time(word: &[u8]) -> Option<u64>
    ensures { MatchOption result ((ns : ℕ) → IsTime word.now ns → ⊥) (HoldsSaturated (IsTime word.now)) }
{
    if let Some(ns) = time_in(word, b"ms", 1_000_000) {
        return Some(ns);
    }
    if let Some(ns) = time_in(word, b"us", 1000) {
        return Some(ns);
    }
    if let Some(ns) = time_in(word, b"ns", 1) {
        return Some(ns);
    }
    time_in(word, b"s", 1_000_000_000)
}

/// The nanoseconds that a time is, or 2^64 - 1 if there are more: a number of s, ms, us or ns, as `20ms`, with up to nine
/// decimals, as `1.5ms`, or a whole number without a unit, which counts units of so many nanoseconds. There are none if the
/// word is no such time, or comes to no whole nanoseconds.
pub fn read_time_or(word: &[u8], factor: u64) -> Option<u64>
    ensures { MatchOption result ((ns : ℕ) → IsTimeOr factor word.now ns → ⊥)
        (HoldsSaturated (IsTimeOr factor word.now)) }
{
    if let Some(ns) = in_unit(word, b"", factor) {
        return Some(ns);
    }
    read_time(word)
}

// The nanoseconds that a time in this unit is.
fn time_in(word: &[u8], unit: &[u8], factor: u64) -> Option<u64>
    requires { factor ≤ 1000000000 }
    ensures { MatchOption result ((ns : ℕ) → IsTimeIn unit.now factor word.now ns → ⊥)
        (HoldsSaturated (IsTimeIn unit.now factor word.now)) }
{
    if let Some(ns) = in_unit(word, unit, factor) {
        return Some(ns);
    }
    pointed_in(word, unit, factor)
}

// The nanoseconds that a time with a point in this unit is.
fn pointed_in(word: &[u8], unit: &[u8], factor: u64) -> Option<u64>
    requires { factor ≤ 1000000000 }
    ensures { MatchOption result ((ns : ℕ) → IsPointed unit.now factor word.now ns → ⊥)
        (HoldsSaturated (IsPointed unit.now factor word.now)) }
{
    let Some(bytes) = without(word, unit) else {
        return None;
    };
    pointed_of(bytes, 9, factor)
}

// The value of a number with this unit after it.
fn in_unit(word: &[u8], unit: &[u8], factor: u64) -> Option<u64>
    ensures { MatchOption result ((value : ℕ) → IsMeasure unit.now factor word.now value → ⊥)
        (HoldsSaturated (IsMeasure unit.now factor word.now)) }
{
    let Some(digits) = without(word, unit) else {
        return None;
    };
    match read_number(digits) {
        Some(number) => Some(times(number, factor)),
        None => None,
    }
}

// So many times the factor.
pub(crate) fn times(number: u64, factor: u64) -> u64
    ensures { IsSaturated (number * factor) result }
{
    match number.checked_mul(factor) {
        Some(value) => value,
        None => u64::MAX,
    }
}

// The word without the unit after it.
fn without<'a>(word: &'a [u8], unit: &[u8]) -> Option<&'a [u8]>
    ensures { MatchOption result ((front : List ℕ) → word.now ≢ front ++ unit.now)
        (λ front. word.now ≡ front.now ++ unit.now) }
{
    word.strip_suffix(unit)
}
