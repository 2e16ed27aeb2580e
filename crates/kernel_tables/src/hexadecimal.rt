ghost use Rattle.std.specs.Prelude.{◌≡◌, ◌<◌, ◌≤◌, ◌+◌, ◌++◌, OnOk};
ghost use Rattle.tab_words.specs.Texts.{texts_below};
ghost use Rattle.kernel_tables.specs.Lines.{bit_of, hex_digit, hex_text, set_at, set_digit, set_text, word_text};

use crate::bytes::put_bytes;
use std::alloc::AllocError;
use tab_core::{VcpuNo, VcpuSet};

// The digit of a number below 16.
fn hex_digit(n: u8) -> u8
    requires { n < 16 }
    ensures { result ≡ hex_digit n }
{
    if n < 10 { b'0' + n } else { b'a' - 10 + n }
}

/// Appends the sixteen digits of a number.
pub(crate) fn put_hex(text: &mut Vec<u8>, n: u64) -> Result<(), AllocError>
    ensures { OnOk result (text.new.items ≡ text.old.items ++ hex_text n) }
{
    for i in 0..16u32 {
        text.push(hex_digit(((n >> (60 - 4 * i)) % 16) as u8))?;
    }
    Ok(())
}

// 1 for a member of the set, 0 for another.
fn bit_of(set: &VcpuSet, vcpu: u32) -> u8
    requires { vcpu < 256 }
    ensures value { result ≡ bit_of set.now vcpu }
    ensures small { result ≤ 1 }
{
    if set.has(VcpuNo(vcpu)) { 1 } else { 0 }
}

// The digit of four vCPUs from one on.
fn set_digit(set: &VcpuSet, vcpu: u32) -> u8
    requires { vcpu + 3 < 256 }
    ensures { result ≡ set_digit set.now vcpu }
{
    let low = bit_of(set, vcpu) + 2 * bit_of(set, vcpu + 1);
    let high = 4 * bit_of(set, vcpu + 2) + 8 * bit_of(set, vcpu + 3);
    hex_digit(low + high)
}

// Appends a word of the set.
fn put_word(text: &mut Vec<u8>, set: &VcpuSet, word: u32) -> Result<(), AllocError>
    requires { word < 4 }
    ensures { OnOk result (text.new.items ≡ text.old.items ++ word_text set.now word) }
{
    put_bytes(text, b" ")?;
    put_digits(text, set, word)
}

// Appends the digits of a word of the set.
fn put_digits(text: &mut Vec<u8>, set: &VcpuSet, word: u32) -> Result<(), AllocError>
    requires { word < 4 }
    ensures { OnOk result (text.new.items ≡ text.old.items
        ++ texts_below (set_at set.now word) 16) }
{
    for i in 0..16u32 {
        text.push(set_digit(set, 64 * word + (60 - 4 * i)))?;
    }
    Ok(())
}

/// Appends the first words of the set, each after a space.
pub(crate) fn put_set(text: &mut Vec<u8>, set: &VcpuSet, words: u32) -> Result<(), AllocError>
    requires { words ≤ 4 }
    ensures { OnOk result (text.new.items ≡ text.old.items ++ set_text set.now words) }
{
    for word in 0..words {
        put_word(text, set, word)?;
    }
    Ok(())
}
