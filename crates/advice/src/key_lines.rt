//! The line of a host document that an advice names.
ghost use Rattle.std.specs.Prelude.{◌≡◌, ◌<◌, ◌≤◌, ◌^◌, IfSome, false, length, option_map};
ghost use Rattle.tab_words.specs.Lines.{lines_of};
ghost use Rattle.tab_words.specs.Words.{words_of};
ghost use Rattle.advice.specs.KeyLines.{any_line, begin_value, begin_vcpu, begins_vcpu, give_key, gives_key, host_line, is_equals, key_line_after, key_line_from, line_part, named_text, vcpu_line, vcpu_start, vcpu_start_from};
ghost use Rattle.advice.specs.Parts.{part_text};

use crate::line::lines_after;
use crate::part::Part;
use tab_words::{Lines, Words};

// The longest text of which lines are named.
const LONGEST: usize = 2_000_000_000;

// The line that gives a key of the host a value.
pub(crate) fn host_line<'a>(text: &'a [u8], key: &[u8]) -> Option<(u32, &'a [u8])>
    ensures { option_map (λ line. (line.0, line.1.now)) result ≡ host_line key.now text.now }
{
    key_line_after(named(text), 0, key)
}

// The first line that gives the key a value, in the host's table or in a vCPU's.
pub(crate) fn any_line<'a>(text: &'a [u8], key: &[u8]) -> Option<(u32, &'a [u8])>
    ensures { option_map (λ line. (line.0, line.1.now)) result ≡ any_line key.now text.now }
{
    any_line_in(named(text), key)
}

// The line that gives a key of the vCPU of this number a value, or else the one that begins the vCPU, or all of them.
pub(crate) fn vcpu_line<'a>(text: &'a [u8], number: u32, key: &[u8]) -> Option<(u32, &'a [u8])>
    ensures { option_map (λ line. (line.0, line.1.now)) result ≡ vcpu_line number key.now text.now }
{
    let text = named(text);
    let Some(start) = vcpu_start_in(text, number) else {
        return key_line_after(text, 0, b"vcpu");
    };
    match key_line_after(text, start.0, key) {
        Some(line) => Some(line),
        None => Some(start),
    }
}

// The line that begins the vCPU of this number.
pub(crate) fn vcpu_start(text: &[u8], number: u32) -> Option<(u32, &[u8])>
    ensures { option_map (λ line. (line.0, line.1.now)) result ≡ vcpu_start number text.now }
{
    vcpu_start_in(named(text), number)
}

// The number of a line and the line in quotes, if there is one.
pub(crate) fn line_part<'a>(line: Option<(u32, &'a [u8])>) -> Part<'a>
    ensures { part_text result ≡ line_part (option_map (λ line. (line.0, line.1.now)) line.entry) }
{
    match line {
        Some((number, line)) => Part::Line(number, line),
        None => Part::Text(b""),
    }
}

// The text, if it is short enough that its lines are named.
fn named(text: &[u8]) -> &[u8]
    ensures is { result.now ≡ named_text text.now }
    ensures short { length result.now < 2 ^ 31 }
{
    if text.len() <= LONGEST { text } else { b"" }
}

fn any_line_in<'a>(text: &'a [u8], key: &[u8]) -> Option<(u32, &'a [u8])>
    requires { length text.now < 2 ^ 31 }
    ensures { option_map (λ line. (line.0, line.1.now)) result
        ≡ key_line_from false key.now 1 (lines_of text.now) }
{
    let mut number = 0u32;
    for line in Lines::over(text) {
        number += 1;
        if gives_key(line, key) {
            return Some((number, line));
        }
    }
    None
}

// The line that gives the key a value in the table that goes on after so many lines.
#[tactic(auto, using(crate::proofs::KeyLinesLemmas::lines_left))]
fn key_line_after<'a>(text: &'a [u8], count: u32, key: &[u8]) -> Option<(u32, &'a [u8])>
    requires short { length text.now < 2 ^ 31 }
    requires within { count ≤ length text.now }
    ensures { option_map (λ line. (line.0, line.1.now)) result ≡ key_line_after count key.now text.now }
{
    let mut number = count;
    for line in lines_after(text, count) {
        number += 1;
        if begins_vcpu(line) {
            return None;
        }
        if gives_key(line, key) {
            return Some((number, line));
        }
    }
    None
}

// The line that begins the vCPU of this number.
fn vcpu_start_in(text: &[u8], number: u32) -> Option<(u32, &[u8])>
    requires { length text.now < 2 ^ 31 }
    ensures start { option_map (λ line. (line.0, line.1.now)) result
        ≡ vcpu_start_from number 1 (lines_of text.now) }
    ensures within { IfSome result (λ line. line.0 ≤ length text.now) }
{
    let mut before = number;
    let mut at = 0u32;
    for line in Lines::over(text) {
        at += 1;
        if begins_vcpu(line) {
            if before == 0 {
                return Some((at, line));
            }
            before -= 1;
        }
    }
    None
}

// Whether the line begins a vCPU.
pub(crate) fn begins_vcpu(line: &[u8]) -> bool
    ensures { result ≡ begins_vcpu line.now }
{
    match Words::of(line).next() {
        None => false,
        Some(word) => word.starts_with(b"[[vcpu]]") || word.starts_with(b"{"),
    }
}

// Whether the line gives this key a value.
pub(crate) fn gives_key(line: &[u8], key: &[u8]) -> bool
    ensures { result ≡ gives_key key.now line.now }
{
    let mut words = Words::of(line);
    match words.next() {
        None => false,
        Some(word) if word == key => begin_value(&mut words),
        Some(word) => word.starts_with(key) && is_equals(word.get(key.len())),
    }
}

// Whether the words begin with an equals sign.
pub(crate) fn begin_value(words: &mut Words<'_>) -> bool
    ensures { result ≡ begin_value words.old }
{
    match words.next() {
        None => false,
        Some(word) => word.starts_with(b"="),
    }
}

fn is_equals(byte: Option<&u8>) -> bool
    ensures { result ≡ is_equals (option_map (λ byte. byte.now) byte.entry) }
{
    match byte {
        None => false,
        Some(byte) => *byte == b'=',
    }
}
