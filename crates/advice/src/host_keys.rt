ghost use Rattle.std.specs.Prelude.{◌≡◌, ℕ, List, option_map};
ghost use Rattle.std.specs.Option.{option_or};
ghost use Rattle.tab_io.specs.Sinks.{Writes};
ghost use Rattle.toml.specs.Data.{get_item, get_member};
ghost use Rattle.toml.specs.View.{items_view, table_view, view};
ghost use Rattle.host_doc.specs.OtherKeys.{is_among};
ghost use Rattle.advice.specs.Parts.{part_text, quote_of};
ghost use Rattle.advice.specs.KeyLines.{line_part};
ghost use Rattle.advice.specs.Keys.{first_other, has_second_format, host_keys, host_rule, is_missing, is_two, line_word, member_at, member_name, other_in_vcpu, other_line, other_text, other_text_of, rule_text, rule_text_of, rule_words, same_text, space_of, stray_text, vcpu_key_text, vcpu_rule, vcpu_text_of};

use crate::key_lines::{any_line, host_line, line_part, vcpu_line};
use crate::part::{Part, put_parts};
use host_doc::Key;
use tab_io::{Sink, WriteFault};
use toml::{Table, Value};

// The keys of a host of format 1.
const FIRST_KEYS: [Key; 6] = [
    Key::Format,
    Key::Cores,
    Key::Lag,
    Key::Sliver,
    Key::Quantum,
    Key::Vcpu,
];

// Those of format 2.
const SECOND_KEYS: [Key; 7] = [
    Key::TickNs,
    Key::Format,
    Key::Cores,
    Key::Lag,
    Key::Sliver,
    Key::Quantum,
    Key::Vcpu,
];

const VCPU_KEYS: [Key; 6] = [
    Key::Name,
    Key::Admitted,
    Key::Runnable,
    Key::Share,
    Key::Latency,
    Key::Capped,
];

// Writes the advice on a known key of a host.
pub(crate) fn put_rule<K: Sink>(sink: &mut K, section: &[u8], key: Key) -> Result<(), WriteFault>
    ensures { Writes (K.state sink.old) (K.state sink.new) (rule_text section.now key) result }
{
    let word = key.word().as_bytes();
    put_rule_of(sink, host_line(section, word), any_line(section, word), key)
}

// Writes that advice, if the key has this line in the host's table and that first line in any table.
fn put_rule_of<'a, K: Sink>(
    sink: &mut K,
    own: Option<(u32, &'a [u8])>,
    any: Option<(u32, &'a [u8])>,
    key: Key,
) -> Result<(), WriteFault>
    ensures { Writes (K.state sink.old) (K.state sink.new)
        (rule_text_of (option_map (λ line. (line.0, line.1.now)) own.entry)
        (option_map (λ line. (line.0, line.1.now)) any.entry) key) result }
{
    put_parts(
        sink,
        &[
            Part::Text(b"tableau: host"),
            line_part(either(own, any)),
            Part::Text(b": "),
            Part::Text(rule_words(own, any, key)),
            Part::Text(b"\n"),
        ],
    )
}

// The first line, or else the second one.
fn either<'a>(own: Option<(u32, &'a [u8])>, any: Option<(u32, &'a [u8])>) -> Option<(u32, &'a [u8])>
    ensures { option_map (λ line. (line.0, line.1.now)) result
        ≡ option_or (option_map {U = ℕ × List ℕ} (λ line. (line.0, line.1.now)) own.entry)
        (option_map {U = ℕ × List ℕ} (λ line. (line.0, line.1.now)) any.entry) }
{
    match own {
        Some(line) => Some(line),
        None => any,
    }
}

// What the key has to be, or that it is misplaced.
fn rule_words(own: Option<(u32, &[u8])>, any: Option<(u32, &[u8])>, key: Key) -> &'static [u8]
    ensures { result.now ≡ rule_words (option_map (λ line. (line.0, line.1.now)) own.entry)
        (option_map (λ line. (line.0, line.1.now)) any.entry) key }
{
    match (own, any) {
        (None, Some(_)) =>
            b"after a line [[vcpu]] a key is that vCPU's;\ntableau: put the keys of the host above the first [[vcpu]]",
        _ => host_rule(key),
    }
}

// Writes the advice on a document of this table, which has an unknown key of a host.
pub(crate) fn put_other_key<K: Sink>(
    sink: &mut K,
    section: &[u8],
    table: &Table,
) -> Result<(), WriteFault>
    ensures { Writes (K.state sink.old) (K.state sink.new) (other_text section.now (table_view table.now)) result }
{
    put_other_of(sink, section, other_in_host(table))
}

// Writes the advice on an unknown key, which may be this one.
fn put_other_of<'a, K: Sink>(
    sink: &mut K,
    section: &'a [u8],
    other: Option<&'a str>,
) -> Result<(), WriteFault>
    ensures { Writes (K.state sink.old) (K.state sink.new)
        (other_text_of (option_map (λ text. text.now) other.entry) section.now) result }
{
    put_parts(
        sink,
        &[
            Part::Text(b"tableau: host"),
            line_part(other_line(section, other)),
            Part::Text(b": "),
            part_of(other),
            Part::Text(host_rule(Key::Unknown)),
            Part::Text(b"\n"),
        ],
    )
}

// The line that gives this key of the host a value, if there is a key.
fn other_line<'a>(section: &'a [u8], other: Option<&str>) -> Option<(u32, &'a [u8])>
    ensures { option_map (λ line. (line.0, line.1.now)) result
        ≡ other_line (option_map (λ text. text.now) other.entry) section.now }
{
    match other {
        None => None,
        Some(word) => host_line(section, word.as_bytes()),
    }
}

// Writes the advice on a key of the vCPU of this number in a document of this table.
pub(crate) fn put_vcpu_key<K: Sink>(
    sink: &mut K,
    section: &[u8],
    table: &Table,
    number: u32,
    key: Key,
) -> Result<(), WriteFault>
    ensures { Writes (K.state sink.old) (K.state sink.new)
        (vcpu_key_text section.now number key (table_view table.now)) result }
{
    let name = name_at(table, number);
    let other = other_in_vcpu(key, member_at(table, number));
    put_vcpu_of(sink, section, number, key, name, other)
}

// Writes that advice on a vCPU, whose name and unknown key may be these.
fn put_vcpu_of<'a, K: Sink>(
    sink: &mut K,
    section: &'a [u8],
    number: u32,
    key: Key,
    name: Option<&'a str>,
    other: Option<&'a str>,
) -> Result<(), WriteFault>
    ensures { Writes (K.state sink.old) (K.state sink.new)
        (vcpu_text_of number key (option_map (λ text. text.now) name.entry)
        (option_map (λ text. text.now) other.entry) section.now) result }
{
    put_parts(
        sink,
        &[
            Part::Text(b"tableau: vcpu "),
            Part::Number(number),
            space_of(name),
            part_of(name),
            line_part(vcpu_line(section, number, line_word(key, other))),
            Part::Text(b": "),
            part_of(other),
            Part::Text(stray_words(key, other)),
            Part::Text(vcpu_rule(key)),
            Part::Text(b"\n"),
        ],
    )
}

// The word by which the line of a fault is found.
fn line_word<'a>(key: Key, other: Option<&'a str>) -> &'a [u8]
    ensures { result.now ≡ line_word key (option_map (λ text. text.now) other.entry) }
{
    match other {
        None => key.word().as_bytes(),
        Some(other) => other.as_bytes(),
    }
}

// What an unknown key of a vCPU is.
fn stray_words(key: Key, other: Option<&str>) -> &'static [u8]
    ensures { result.now ≡ stray_text key (option_map (λ text. text.now) other.entry) }
{
    let Some(other) = other else {
        return b"";
    };
    if key != Key::Unknown {
        b" is no key of a vCPU; "
    } else if is_among(&SECOND_KEYS, other) {
        b" is a key of the host: put it above the first [[vcpu]]; it"
    } else {
        b""
    }
}

// Writes the advice on a vCPU that has the name of an earlier one.
pub(crate) fn put_same_name<'a, K: Sink>(
    sink: &mut K,
    section: &'a [u8],
    table: &'a Table,
    number: u32,
) -> Result<(), WriteFault>
    ensures { Writes (K.state sink.old) (K.state sink.new)
        (same_text section.now (table_view table.now) number) result }
{
    put_parts(
        sink,
        &[
            Part::Text(b"tableau: vcpu "),
            Part::Number(number),
            Part::Text(b" "),
            part_of(name_at(table, number)),
            line_part(vcpu_line(section, number, b"name")),
            Part::Text(b": an earlier one has this name; rename one of them\n"),
        ],
    )
}

// The space before a name, or nothing where there is none.
fn space_of(name: Option<&str>) -> Part<'static>
    ensures { part_text result ≡ space_of (option_map (λ text. text.now) name.entry) }
{
    match name {
        Some(_) => Part::Text(b" "),
        None => Part::Text(b""),
    }
}

// The name of a vCPU as the document has it, if it has one.
fn name_at(table: &Table, number: u32) -> Option<&str>
    ensures { option_map (λ name. name.now) result ≡ member_name number (table_view table.now) }
{
    let Some(member) = member_at(table, number) else {
        return None;
    };
    let Some(value) = value_at(member, "name") else {
        return None;
    };
    value.as_str()
}

// The member of `vcpu` of this number, where it is a table.
fn member_at(table: &Table, number: u32) -> Option<&Table>
    ensures { option_map (λ member. table_view member.now) result ≡ member_at number (table_view table.now) }
{
    let Some(value) = value_at(table, "vcpu") else {
        return None;
    };
    let Some(values) = value.as_array() else {
        return None;
    };
    let Some(member) = item_at(values, number) else {
        return None;
    };
    member.as_table()
}

// What is at a key of a table.
fn value_at<'a>(table: &'a Table, word: &str) -> Option<&'a Value>
    ensures { option_map (λ value. view value.now) result ≡ get_member word.now (table_view table.now) }
{
    table.get(word)
}

// The value of this number of an array.
fn item_at(values: &[Value], number: u32) -> Option<&Value>
    ensures { option_map (λ value. view value.now) result ≡ get_item number (items_view values.now) }
{
    values.get(number as usize)
}

// The first key of a host that is none of the keys of its format.
fn other_in_host(table: &Table) -> Option<&str>
    ensures { option_map (λ word. word.now) result
        ≡ first_other (host_keys (table_view table.now)) (table_view table.now) }
{
    if is_second(table) {
        first_other(table, &SECOND_KEYS)
    } else {
        first_other(table, &FIRST_KEYS)
    }
}

// Whether the format has a key for the tick.
fn is_second(table: &Table) -> bool
    ensures { result ≡ has_second_format (table_view table.now) }
{
    let Some(value) = value_at(table, "format") else {
        return false;
    };
    is_two(value.as_integer())
}

fn is_two(number: Option<i64>) -> bool
    ensures { result ≡ is_two number }
{
    match number {
        Some(number) => number == 2,
        None => false,
    }
}

// The first key of a vCPU that is none of its keys, if the fault is one, or if the key at fault isn't there.
fn other_in_vcpu<'a>(key: Key, member: Option<&'a Table>) -> Option<&'a str>
    ensures { option_map (λ word. word.now) result
        ≡ other_in_vcpu key (option_map (λ member. table_view member.now) member.entry) }
{
    let Some(member) = member else {
        return None;
    };
    if key == Key::Unknown || is_missing(value_at(member, key.word())) {
        first_other(member, &VCPU_KEYS)
    } else {
        None
    }
}

fn is_missing(value: Option<&Value>) -> bool
    ensures { result ≡ is_missing (option_map (λ value. view value.now) value.entry) }
{
    value.is_none()
}

fn part_of(word: Option<&str>) -> Part<'_>
    ensures { part_text result ≡ quote_of (option_map (λ text. text.now) word.entry) }
{
    match word {
        Some(word) => Part::Quoted(word.as_bytes()),
        None => Part::Text(b""),
    }
}

// The first key of the table that is none of these.
fn first_other<'a>(table: &'a Table, keys: &[Key]) -> Option<&'a str>
    ensures { option_map (λ word. word.now) result ≡ first_other keys.now (table_view table.now) }
{
    for word in table.keys() {
        if !is_among(keys, word.as_str()) {
            return Some(word.as_str());
        }
    }
    None
}

fn is_among(keys: &[Key], word: &str) -> bool
    ensures { result ≡ is_among keys.now word.now }
{
    keys.iter().any(|key| word == key.word())
}

// What a key of a host has to be.
fn host_rule(key: Key) -> &'static [u8]
    ensures { result.now ≡ host_rule key }
{
    match key {
        Key::Format => b"format is 1 or 2, and 1 where it is left out",
        Key::TickNs =>
            b"tick_ns is a whole number from 500 to 2002, in nanoseconds, and 1001 where it is left out",
        Key::Cores => b"cores is a whole number from 1 to 32, and has to be there",
        Key::Lag =>
            b"lag is a whole number from 1 to 102600, in ticks, and 1000 where it is left out",
        Key::Sliver =>
            b"sliver is a whole number from 0 to 1000, in ticks, and 30 where it is left out",
        Key::Quantum =>
            b"quantum is a whole number from 1 to 102600, in ticks, and 1000 where it is left out",
        Key::Vcpu => b"vcpu is an array of tables; a line [[vcpu]] begins each",
        _ =>
            b" is no key of a host of this format; those are format, cores, lag, sliver, quantum and vcpu,\ntableau: and tick_ns beside format = 2",
    }
}

// What a key of a vCPU has to be.
fn vcpu_rule(key: Key) -> &'static [u8]
    ensures { result.now ≡ vcpu_rule key }
{
    match key {
        Key::Vcpu =>
            b"it has to be a table, as { name = \"web\", share_ppm = 250000, latency_ns = 20000000 }",
        Key::Name =>
            b"name is 1 to 32 characters of a-z A-Z 0-9 _ - . in quotes, and has to be there",
        Key::Admitted => b"admitted is true or false, and true where it is left out",
        Key::Runnable => b"runnable is true or false, and true where it is left out",
        Key::Capped => b"capped is true or false, and false where it is left out",
        Key::Share =>
            b"share_ppm is a whole number from 1 to 1000000, and has to be there; 20 % is 200000",
        Key::Latency =>
            b"latency_ns is a whole number from 0 to 1000000000000, and has to be there; 20 ms is 20000000",
        _ =>
            b" is no key of a vCPU; those are name, admitted, runnable, share_ppm, latency_ns and capped",
    }
}
