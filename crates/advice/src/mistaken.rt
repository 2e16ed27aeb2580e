//! What a text is that was given by mistake.
ghost use Rattle.std.specs.Prelude.{◌≡◌, [], drop, slice_index_or};
ghost use Rattle.tab_words.specs.Words.{words_of};
ghost use Rattle.advice.specs.Mistaken.{first_of_words, first_said, has_control, is_control, is_event, is_json, is_plan, is_refusal, is_size, is_wide, is_wide_start, is_yaml, kind_of_fault, kind_of_plan_line, kind_of_script_line, kind_of_text, kind_of_three, kind_of_words, kind_or, kind_text, plan_kind_text, script_kind_text};

use crate::key_lines::{begin_value, begins_vcpu};
use script_doc::is_skipped;
use tab_words::{Lines, Words};

// What a text or a line is.
#[derive(Clone, Copy, PartialEq, Eq)]
pub(crate) enum Kind {
    // A text in UTF-16.
    Utf16,
    // The refusal of an earlier call.
    Refusal,
    Plan,
    Sizes,
    Script,
    Json,
    Yaml,
    // A host document with a key twice.
    Twice,
    // A host document that isn't in UTF-8.
    NoUtf8,
    // A host document with a control character.
    Control,
    // A line that ends in a carriage return.
    Return,
    // A line of a host document.
    Host,
    // None of these.
    Other,
}

// What a text is that is no host document: this line is the one that the reader of TOML refuses with these words.
pub(crate) fn kind_of_text(text: &[u8], line: &[u8], message: &[u8]) -> Kind
    ensures { result ≡ kind_of_text text.now line.now message.now }
{
    if is_wide(text) {
        return Kind::Utf16;
    }
    kind_or(
        kind_of_words(first_said(text)),
        kind_of_fault(line, message),
    )
}

// The one kind, or where the text is of no kind the other.
fn kind_or(kind: Kind, other: Kind) -> Kind
    ensures { result ≡ kind_or kind other }
{
    match kind {
        Kind::Other => other,
        _ => kind,
    }
}

// Whether the text is in UTF-16.
fn is_wide(text: &[u8]) -> bool
    ensures { result ≡ is_wide text.now }
{
    match text {
        [first, second, ..] => is_wide_start(*first, *second),
        _ => false,
    }
}

fn is_wide_start(first: u8, second: u8) -> bool
    ensures { result ≡ is_wide_start first second }
{
    (first == 255 && second == 254)
        || ((first == 254 && second == 255) || (first == 0 || second == 0))
}

// The first line that says something.
fn first_said(text: &[u8]) -> &[u8]
    ensures { result.now ≡ first_said text.now }
{
    for line in Lines::over(text) {
        if !is_skipped(line) {
            return line;
        }
    }
    b""
}

// The kind of a text whose first line that says something is this one.
fn kind_of_words(line: &[u8]) -> Kind
    ensures { result ≡ kind_of_words (words_of line.now) }
{
    let mut words = Words::of(line);
    let first = next_word(&mut words);
    let second = next_word(&mut words);
    let third = next_word(&mut words);
    kind_of_three(first, second, third)
}

// Takes the first of the words; without one it is empty.
fn next_word<'a>(words: &mut Words<'a>) -> &'a [u8]
    ensures first { result.now ≡ first_of_words words.old }
    ensures rest { words.new ≡ drop 1 words.old }
{
    match words.next() {
        Some(word) => word,
        None => b"",
    }
}

// The kind of a text whose first line that says something begins with these words.
fn kind_of_three(first: &[u8], second: &[u8], third: &[u8]) -> Kind
    ensures { result ≡ kind_of_three first.now second.now third.now }
{
    if is_refusal(first) {
        Kind::Refusal
    } else if is_plan(first, second) {
        Kind::Plan
    } else if is_size(first, second, third) {
        Kind::Sizes
    } else if is_event(second) {
        Kind::Script
    } else if is_json(first) {
        Kind::Json
    } else if is_yaml(first) {
        Kind::Yaml
    } else {
        Kind::Other
    }
}

fn is_refusal(first: &[u8]) -> bool
    ensures { result ≡ is_refusal first.now }
{
    first == b"refused:".as_slice() || first == b"no:".as_slice()
}

fn is_plan(first: &[u8], second: &[u8]) -> bool
    ensures { result ≡ is_plan first.now second.now }
{
    first == b"plan".as_slice() && second == b"cores".as_slice()
}

fn is_size(first: &[u8], second: &[u8], third: &[u8]) -> bool
    ensures { result ≡ is_size first.now second.now third.now }
{
    !second.starts_with(b"=") && (first == b"vm".as_slice() || third == b"x".as_slice())
}

fn is_event(second: &[u8]) -> bool
    ensures { result ≡ is_event second.now }
{
    second == b"wake".as_slice()
        || (second == b"block".as_slice()
            || (second == b"burst".as_slice() || second == b"change".as_slice()))
}

fn is_json(first: &[u8]) -> bool
    ensures { result ≡ is_json first.now }
{
    first.starts_with(b"{") || (first == b"[".as_slice() || first.starts_with(b"[{"))
}

fn is_yaml(first: &[u8]) -> bool
    ensures { result ≡ is_yaml first.now }
{
    first.ends_with(b":") || first == b"---".as_slice()
}

// How a line is wrong that the reader of TOML refuses with these words.
fn kind_of_fault(line: &[u8], message: &[u8]) -> Kind
    ensures { result ≡ kind_of_fault line.now message.now }
{
    if message == b"duplicate key".as_slice() {
        Kind::Twice
    } else if message == b"invalid UTF-8".as_slice() {
        Kind::NoUtf8
    } else if has_control(line) {
        Kind::Control
    } else {
        Kind::Other
    }
}

// Whether the line has a control character other than a tab.
fn has_control(line: &[u8]) -> bool
    ensures { result ≡ has_control line.now }
{
    line.iter().any(|byte| is_control(*byte))
}

fn is_control(byte: u8) -> bool
    ensures { result ≡ is_control byte }
{
    (byte < 32 && byte != 9) || byte == 127
}

// What is said of a text that is no host document.
pub(crate) fn kind_text(kind: Kind) -> &'static [u8]
    ensures { result.now ≡ kind_text kind }
{
    match kind {
        Kind::Utf16 => b"the text is in UTF-16: save it in UTF-8",
        Kind::Refusal => b"the text is the refusal of an earlier call: do what that says first",
        Kind::Plan => b"the text is a plan: the host comes first, then a line %%, then its plan",
        Kind::Sizes =>
            b"the text has sizes of VMs: tableau-tools host --cores N makes a host document of them",
        Kind::Script =>
            b"the text is a script: the host comes first, then a line %%, then its script",
        Kind::Json =>
            b"the text is JSON, and a host document is TOML:\ntableau: a line cores = 1, and a line [[vcpu]] before the keys of each vCPU",
        Kind::Yaml => b"the text is YAML, and a host document is TOML: cores = 1, not cores: 1",
        Kind::Twice =>
            b"a table has a key once: leave one line out, or begin another vCPU by [[vcpu]]",
        Kind::NoUtf8 => b"the text isn't in UTF-8: save it so",
        Kind::Control => b"a ? there is a byte that no text has: leave it out",
        _ =>
            b"texts are in quotes, and a number has neither % nor unit:\ntableau: share_ppm 200000 is 20 %, latency_ns 20000000 is 20 ms",
    }
}

// What a line is that is none of a plan.
pub(crate) fn kind_of_plan_line(line: &[u8]) -> Kind
    ensures { result ≡ kind_of_plan_line line.now }
{
    let mut words = Words::of(line);
    let first = next_word(&mut words);
    if is_refusal(first) {
        Kind::Refusal
    } else if line.ends_with(b"\r") {
        Kind::Return
    } else if begins_vcpu(line) || begin_value(&mut words) {
        Kind::Host
    } else {
        Kind::Other
    }
}

// What is said of a line that is none of a plan; of one that is of no other text, these words.
pub(crate) fn plan_kind_text(kind: Kind, other: &[u8]) -> &[u8]
    ensures { result.now ≡ plan_kind_text kind other.now }
{
    match kind {
        Kind::Refusal =>
            b"; it is the refusal of an earlier call: do what that says, and plan again",
        Kind::Return =>
            b"; it ends in CR LF, and lines end in LF alone: tableau-tools sections mends that",
        Kind::Host => b"; it is of a host document: tableau plan makes the plan of it",
        _ => other,
    }
}

// What a line is that is none of a script.
pub(crate) fn kind_of_script_line(line: &[u8]) -> Kind
    ensures { result ≡ kind_of_script_line line.now }
{
    let mut words = Words::of(line);
    let first = next_word(&mut words);
    let second = next_word(&mut words);
    if is_plan(first, second) {
        Kind::Plan
    } else {
        kind_of_plan_line(line)
    }
}

// What is said of a line that is none of a script; of one that is of no other text, these words.
pub(crate) fn script_kind_text(kind: Kind, other: &[u8]) -> &[u8]
    ensures { result.now ≡ script_kind_text kind other.now }
{
    match kind {
        Kind::Refusal => b"it is the refusal of an earlier call: do what that says first",
        Kind::Plan => b"it is the first line of a plan, and a script is wanted there",
        Kind::Return =>
            b"it ends in CR LF, and lines end in LF alone:\ntableau: tableau-tools sections mends that",
        Kind::Host => b"it is of a host document, which comes before the script",
        _ => other,
    }
}
