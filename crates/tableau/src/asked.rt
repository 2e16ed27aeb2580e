//! Help and the version, asked for by other words than those of the call's grammar.
use std::alloc::{AllocError, Global};

/// The words that the call has for what these ask: `--help` for `-h`, for `help`, and for a command with `--help` or `-h` as its
/// last word; `--version` for `-V`. Nothing where these ask for neither, or are the call's own.
pub(crate) fn asked(alloc: Global, words: &[String]) -> Result<Option<Vec<String>>, AllocError> {
    let word = match words {
        [word] => match word.as_str() {
            "-h" | "help" => "--help",
            "-V" => "--version",
            _ => return Ok(None),
        },
        [command, .., last] => match (command.as_str(), last.as_str()) {
            ("plan" | "check" | "run" | "replay" | "gen" | "selftest", "--help" | "-h") => "--help",
            _ => return Ok(None),
        },
        [] => return Ok(None),
    };
    let mut known = Vec::new(alloc);
    known.push(String::from_str(alloc, word)?)?;
    Ok(Some(known))
}
