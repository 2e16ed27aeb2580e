use std::alloc::{AllocError, Global};
use tab_words::Lines;

// How many bytes of a word or a line are shown.
const SHOWN: usize = 60;

/// The bytes as a fault shows them: the first 60, and `..` after these, where each that is no printable character of
/// ASCII is a question mark.
pub fn shown(alloc: Global, bytes: &[u8]) -> Result<String, AllocError> {
    let mut text = String::new(alloc);
    for byte in bytes.iter().take(SHOWN) {
        text.push(shown_byte(*byte))?;
    }
    if bytes.len() > SHOWN {
        text.push_str("..")?;
    }
    Ok(text)
}

/// All of the bytes as a fault shows them, where it shows a line of ours.
pub fn shown_whole(alloc: Global, bytes: &[u8]) -> Result<String, AllocError> {
    let mut text = String::new(alloc);
    for byte in bytes {
        text.push(shown_byte(*byte))?;
    }
    Ok(text)
}

// The byte as a character of ASCII; a question mark for one that isn't printable.
fn shown_byte(byte: u8) -> char {
    if (32..=126).contains(&byte) {
        char::from(byte)
    } else {
        '?'
    }
}

/// What is before a fault of the file of this path: its name, a colon and a space; nothing for standard input.
pub fn place_of(alloc: Global, path: &str) -> Result<String, AllocError> {
    let mut place = shown_name(alloc, path)?;
    if !path.is_empty() {
        place.push_str(": ")?;
    }
    Ok(place)
}

// The name of a file as a fault shows it: the first 60 characters, and `..` after these, where each that is neither a letter
// or digit of any script nor a printable character of ASCII is a question mark.
fn shown_name(alloc: Global, name: &str) -> Result<String, AllocError> {
    let mut text = String::new(alloc);
    for (number, letter) in name.chars().enumerate() {
        if number == SHOWN {
            text.push_str("..")?;
            return Ok(text);
        }
        text.push(shown_letter(letter))?;
    }
    Ok(text)
}

// The character, if it is a letter or digit or a printable one of ASCII, and else a question mark.
fn shown_letter(letter: char) -> char {
    if letter.is_alphanumeric() || (' '..='~').contains(&letter) {
        letter
    } else {
        '?'
    }
}

/// Whether a line ends in a carriage return.
pub fn ends_in_return(line: &[u8]) -> bool {
    line.ends_with(b"\r")
}

/// The line of this number, from 1; there is none after the last.
pub fn line_of(bytes: &[u8], number: u32) -> Option<&[u8]> {
    let mut before = number;
    for line in Lines::over(bytes) {
        before = before.saturating_sub(1);
        if before == 0 {
            return Some(line);
        }
    }
    None
}
