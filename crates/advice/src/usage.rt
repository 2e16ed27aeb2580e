ghost use Rattle.std.specs.Prelude.{◌≡◌, ◌≤◌, ◌++◌, flat_map, length, option_map, slice_get, string_bytes, take};
ghost use Rattle.tab_io.specs.Sinks.{Writes};
ghost use Rattle.tab_words.specs.Commands.{texts};
ghost use Rattle.advice.specs.Usage.{after_space, are_figures, are_plain, asks_help, behind_text, file_text, file_word, found_word_text, has_dot, hint_text, is_begun, is_figure, is_file_word, is_plain_byte, missing_text, read_behind, reads_by_name, shell_text, usage_text, wanted_behind, wanted_first, wanted_name, wanted_rounds, wanted_second, wanted_third, wanted_word_text};

use crate::part::{Part, put_parts};
use tab_io::{Sink, WriteFault, write_all};

// What may be after words that a command begins with.
#[derive(Clone, Copy)]
pub(crate) enum Wanted {
    Command,
    Nothing,
    Whole,
    Rounds,
    Mode,
    Seed,
    Cores,
    Vcpus,
}

// Writes the advice on words that are no command.
pub(crate) fn put_usage<K: Sink>(
    sink: &mut K,
    words: &[String],
    place: u32,
) -> Result<(), WriteFault>
    ensures { Writes (K.state sink.old) (K.state sink.new) (usage_text (texts words.now) place) result }
{
    put_behind(
        sink,
        words_before(words, place),
        word_at(words, place),
        place,
    )
}

// Writes the advice on this word after those, or on none there.
fn put_behind<'a, K: Sink>(
    sink: &mut K,
    front: &'a [String],
    word: Option<&'a [u8]>,
    place: u32,
) -> Result<(), WriteFault>
    ensures { Writes (K.state sink.old) (K.state sink.new)
        (behind_text (texts front.now) place (option_map (λ bytes. bytes.now) word.entry)) result }
{
    match word {
        None => put_missing(sink, front),
        Some(word) => put_found(sink, front, word, place),
    }
}

// The words before a place.
fn words_before(words: &[String], place: u32) -> &[String]
    ensures { texts result.now ≡ take place (texts words.now) }
{
    if place as usize <= words.len() {
        first_words(words, place)
    } else {
        words
    }
}

fn first_words(words: &[String], place: u32) -> &[String]
    requires { place ≤ length words.now }
    ensures { texts result.now ≡ take place (texts words.now) }
{
    let (front, _) = words.split_at(place as usize);
    front
}

// The word at a place, if there is one.
fn word_at(words: &[String], place: u32) -> Option<&[u8]>
    ensures { option_map (λ word. word.now) result ≡ slice_get (texts words.now) place }
{
    match words.get(place as usize) {
        Some(word) => Some(word.as_bytes()),
        None => None,
    }
}

// Writes what has to be after all the words.
fn put_missing<K: Sink>(sink: &mut K, front: &[String]) -> Result<(), WriteFault>
    ensures { Writes (K.state sink.old) (K.state sink.new) (missing_text (texts front.now)) result }
{
    put_parts(
        sink,
        &[
            Part::Text(b"tableau: "),
            Part::Text(name_words(front, b"a word")),
            Part::Text(b" is missing: "),
            Part::Text(wanted_words(front)),
            Part::Text(b"\n"),
        ],
    )
}

// Writes what has to be in this word's place, and what to type.
fn put_found<K: Sink>(
    sink: &mut K,
    front: &[String],
    word: &[u8],
    place: u32,
) -> Result<(), WriteFault>
    ensures { Writes (K.state sink.old) (K.state sink.new)
        (found_word_text (texts front.now) word.now place ++ hint_text (texts front.now) word.now) result }
{
    if let Err(fault) = put_word(sink, front, word, place) {
        return Err(fault);
    }
    put_hint(sink, front, word)
}

fn put_word<K: Sink>(
    sink: &mut K,
    front: &[String],
    word: &[u8],
    place: u32,
) -> Result<(), WriteFault>
    ensures { Writes (K.state sink.old) (K.state sink.new) (found_word_text (texts front.now) word.now place) result }
{
    put_parts(
        sink,
        &[
            Part::Text(b"tableau: word "),
            Part::Number(place),
            Part::Text(b", "),
            Part::Quoted(word),
            Part::Text(b", isn't "),
            Part::Text(name_words(front, b"expected")),
            Part::Text(b": "),
            Part::Text(wanted_words(front)),
            Part::Text(b"\n"),
        ],
    )
}

#[tactic(auto, using(tab_io::proofs::SinkLemmas::writes_nothing))]
fn put_hint<K: Sink>(sink: &mut K, front: &[String], word: &[u8]) -> Result<(), WriteFault>
    ensures { Writes (K.state sink.old) (K.state sink.new) (hint_text (texts front.now) word.now) result }
{
    if !is_begun(front) {
        Ok(())
    } else if asks_help(word) {
        write_all(sink, b"tableau: for help type: tableau --help\n")
    } else if read_behind(front) && !are_figures(word) {
        put_shell(sink, front, word)
    } else {
        Ok(())
    }
}

// Writes the line to type where the word is a file's name.
fn put_shell<K: Sink>(sink: &mut K, front: &[String], word: &[u8]) -> Result<(), WriteFault>
    ensures { Writes (K.state sink.old) (K.state sink.new) (shell_text (texts front.now) word.now) result }
{
    if let Err(fault) = write_all(sink, b"tableau: a file goes to standard input: tableau") {
        return Err(fault);
    }
    put_shell_end(sink, front, word)
}

// Writes the line's words, and the file after them.
fn put_shell_end<K: Sink>(sink: &mut K, front: &[String], word: &[u8]) -> Result<(), WriteFault>
    ensures { Writes (K.state sink.old) (K.state sink.new)
        (flat_map after_space (texts front.now) ++ file_text (texts front.now) word.now) result }
{
    if let Err(fault) = put_spaced(sink, front) {
        return Err(fault);
    }
    put_file(sink, front, word)
}

fn put_file<K: Sink>(sink: &mut K, front: &[String], word: &[u8]) -> Result<(), WriteFault>
    ensures { Writes (K.state sink.old) (K.state sink.new) (file_text (texts front.now) word.now) result }
{
    put_parts(
        sink,
        &[
            Part::Text(rounds_words(front)),
            Part::Text(b" < "),
            Part::Text(file_word(word)),
            Part::Text(b"\n"),
        ],
    )
}

// Writes the words, each after a space.
pub(crate) fn put_spaced<K: Sink>(sink: &mut K, words: &[String]) -> Result<(), WriteFault>
    ensures { Writes (K.state sink.old) (K.state sink.new) (flat_map after_space (texts words.now)) result }
{
    for word in words {
        put_spaced_word(sink, word)?;
    }
    Ok(())
}

fn put_spaced_word<K: Sink>(sink: &mut K, word: &String) -> Result<(), WriteFault>
    ensures { Writes (K.state sink.old) (K.state sink.new) (after_space (string_bytes word.now)) result }
{
    put_parts(sink, &[Part::Text(b" "), Part::Text(word.as_bytes())])
}

// The name of what has to be after these words; where nothing has to, these other words.
fn name_words<'a>(front: &[String], other: &'a [u8]) -> &'a [u8]
    ensures { result.now ≡ wanted_name (wanted_behind (texts front.now)) other.now }
{
    name_text(wanted_behind(front), other)
}

// What may be after these words, in words.
fn wanted_words(front: &[String]) -> &'static [u8]
    ensures { result.now ≡ wanted_word_text (wanted_behind (texts front.now)) }
{
    wanted_text(wanted_behind(front))
}

fn rounds_words(front: &[String]) -> &'static [u8]
    ensures { result.now ≡ wanted_rounds (wanted_behind (texts front.now)) }
{
    rounds_text(wanted_behind(front))
}

// What may be after these words.
fn wanted_behind(front: &[String]) -> Wanted
    ensures { result ≡ wanted_behind (texts front.now) }
{
    match front {
        [] => Wanted::Command,
        [word] => wanted_first(word.as_bytes()),
        [word, _] => wanted_second(word.as_bytes()),
        [word, _, _] => wanted_third(word.as_bytes()),
        _ => Wanted::Nothing,
    }
}

fn wanted_first(word: &[u8]) -> Wanted
    ensures { result ≡ wanted_first word.now }
{
    if word == b"plan".as_slice() {
        Wanted::Whole
    } else if word == b"replay".as_slice() || word == b"run".as_slice() {
        Wanted::Rounds
    } else if word == b"gen".as_slice() || word == b"selftest".as_slice() {
        Wanted::Seed
    } else {
        Wanted::Nothing
    }
}

fn wanted_second(word: &[u8]) -> Wanted
    ensures { result ≡ wanted_second word.now }
{
    if word == b"run".as_slice() {
        Wanted::Mode
    } else if word == b"gen".as_slice() {
        Wanted::Cores
    } else {
        Wanted::Nothing
    }
}

fn wanted_third(word: &[u8]) -> Wanted
    ensures { result ≡ wanted_third word.now }
{
    if word == b"gen".as_slice() {
        Wanted::Vcpus
    } else {
        Wanted::Nothing
    }
}

fn name_text(wanted: Wanted, other: &[u8]) -> &[u8]
    ensures { result.now ≡ wanted_name wanted other.now }
{
    match wanted {
        Wanted::Command => b"a command",
        Wanted::Rounds => b"a count of rounds",
        Wanted::Seed => b"a seed",
        Wanted::Cores => b"a count of cores",
        Wanted::Vcpus => b"a count of vCPUs",
        _ => other,
    }
}

fn wanted_text(wanted: Wanted) -> &'static [u8]
    ensures { result.now ≡ wanted_word_text wanted }
{
    match wanted {
        Wanted::Command => {
            b"the commands are plan, check, run, replay, gen and selftest; for help type: tableau --help"
        }
        Wanted::Nothing => b"the command takes no more words",
        Wanted::Whole => b"plan takes no word but whole or stay",
        Wanted::Rounds => b"type a number from 1 to 10000",
        Wanted::Mode => b"run takes no more words but trace, burst or live",
        Wanted::Seed => b"type a number from 0 to 18446744073709551615",
        Wanted::Cores => b"type a number from 1 to 32",
        Wanted::Vcpus => b"type a number, at most 256 and at most 99 for each core and one more",
    }
}

// What the line to type has for a count of rounds that is missing.
fn rounds_text(wanted: Wanted) -> &'static [u8]
    ensures { result.now ≡ wanted_rounds wanted }
{
    match wanted {
        Wanted::Rounds => b" ROUNDS",
        _ => b"",
    }
}

// Whether the word asks for help, or for anything that begins with a dash.
fn asks_help(word: &[u8]) -> bool
    ensures { result ≡ asks_help word.now }
{
    word.starts_with(b"-") || word == b"help".as_slice()
}

fn is_begun(front: &[String]) -> bool
    ensures { result ≡ is_begun (texts front.now) }
{
    match front.first() {
        None => false,
        Some(_) => true,
    }
}

// Whether a command that reads its input begins so.
fn read_behind(front: &[String]) -> bool
    ensures { result ≡ read_behind (texts front.now) }
{
    match front.first() {
        None => false,
        Some(word) => reads(word.as_bytes()),
    }
}

fn reads(word: &[u8]) -> bool
    ensures { result ≡ reads_by_name word.now }
{
    word == b"plan".as_slice()
        || word == b"check".as_slice()
        || word == b"run".as_slice()
        || word == b"replay".as_slice()
}

// The word where it looks like a file's name, which needs no quotes, else `FILE`.
fn file_word(word: &[u8]) -> &[u8]
    ensures { result.now ≡ file_word word.now }
{
    if is_file_word(word) { word } else { b"FILE" }
}

fn is_file_word(word: &[u8]) -> bool
    ensures { result ≡ is_file_word word.now }
{
    has_dot(word) && are_plain(word)
}

fn has_dot(word: &[u8]) -> bool
    ensures { result ≡ has_dot word.now }
{
    word.contains(&b'.')
}

fn are_plain(word: &[u8]) -> bool
    ensures { result ≡ are_plain word.now }
{
    word.iter().all(|byte| is_plain_byte(*byte))
}

// Whether the word is meant as a number and not as a file's name.
fn are_figures(word: &[u8]) -> bool
    ensures { result ≡ are_figures word.now }
{
    word.iter().all(|byte| is_figure(*byte))
}

// A digit or a point.
fn is_figure(byte: u8) -> bool
    ensures { result ≡ is_figure byte }
{
    byte.is_ascii_digit() || byte == b'.'
}

// A letter, a digit or one of `-./_`, which no shell takes for more than it is.
fn is_plain_byte(byte: u8) -> bool
    ensures { result ≡ is_plain_byte byte }
{
    byte.is_ascii_alphanumeric() || byte == b'.' || byte == b'/' || byte == b'_' || byte == b'-'
}
