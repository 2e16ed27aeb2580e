//! The words that a program is called with: its own path, which is before them, need not be text. Besides, whether the
//! pipe that a program writes to was closed at its other end.
#![tactic(auto)]

use std::alloc::Global;
use std::env::{self, Env, FillError};
use std::io::{self, ErrorKind, Write};

// The environment of a program whose own name is empty.
#[derive(Clone, Copy)]
struct Nameless<'a, R> {
    given: &'a R,
}

impl<R: Env> Env for Nameless<'_, R> {
    fn arg(&self, i: usize, buf: &mut [u8]) -> Result<usize, FillError> {
        if i == 0 {
            return Ok(0);
        }
        self.given.arg(i, buf)
    }

    fn var(&self, name: &str, buf: &mut [u8]) -> Result<usize, FillError> {
        self.given.var(name, buf)
    }

    fn var_at(&self, i: usize, buf: &mut [u8]) -> Result<usize, FillError> {
        self.given.var_at(i, buf)
    }
}

/// The words of the program, after an empty one in the place of its name.
///
/// The error's kind is `OutOfMemory` where memory ran out; otherwise a word isn't text.
pub fn words<R: Env>(given: &R, alloc: Global) -> io::Result<Vec<String>> {
    let all = env::args(&(Nameless { given }, alloc))?;
    Ok(all.collect(alloc)?)
}

/// Whether the output, of which a write has failed, is a pipe that was closed at its other end, as by `head`.
///
/// The output's error was let go of by then, so one more line feed is written, of which a closed pipe takes nothing.
pub fn is_closed_pipe<W: Write>(output: &mut W) -> bool {
    match output.write(b"\n") {
        Ok(_) => false,
        Err(fault) => fault.kind() == ErrorKind::BrokenPipe,
    }
}
