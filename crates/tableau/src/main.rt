//! The program `tableau`: it answers its words by one call, over standard input and output, and
//! tells on standard error what it reads from a terminal, and what to do about a refusal. Where the pipe that it
//! writes to was closed, it tells nothing. After a run a terminal also sees whose threads made it.
#![tactic(auto)]

mod asked;
mod progress;
mod told;

use advice::KeptSource;
use asked::asked;
use program_words::is_closed_pipe;
use progress::{ClearedSink, ProgressGate};
use round_words::RoundBoard;
use std::io::{self, BufWriter, ErrorKind, IsTerminal};
use std::process::ExitCode;
use tab_io::{StdSink, StdSource};
use tableau_sim::{Status, tableau};
use told::{prompt, tell, tell_no_text};

fn main(rt: HostRuntime) -> ExitCode {
    let (all, are_text) = match program_words::words(&rt, rt.alloc()) {
        Ok(words) => (words, true),
        Err(fault) if fault.kind() == ErrorKind::OutOfMemory => {
            return ExitCode::from(Status::NoMemory.exit());
        }
        // A word isn't text: the answer is that to no words.
        Err(_) => (Vec::new(rt.alloc()), false),
    };
    let words = match all.as_slice() {
        [] => &[],
        [_, words @ ..] => words,
    };
    let Ok(known) = asked(rt.alloc(), words) else {
        return ExitCode::from(Status::NoMemory.exit());
    };
    let words = match &known {
        Some(known) => known.as_slice(),
        None => words,
    };
    let Ok((board, seat)) = RoundBoard::make(rt.alloc()) else {
        return ExitCode::from(Status::NoMemory.exit());
    };
    let Ok(writer) = BufWriter::new(rt.alloc(), io::writer(&rt)) else {
        return ExitCode::from(Status::NoMemory.exit());
    };
    let mut input = KeptSource::of(rt.alloc(), StdSource::of(rt.reader()));
    let gate = ProgressGate::new(rt, rt.stderr(), rt.stderr().is_terminal(), words);
    let mut output = ClearedSink {
        inner: StdSink::of(writer),
        gate: &gate,
    };
    if rt.stdin().is_terminal() {
        prompt(&rt.stderr(), rt.alloc(), words);
    }
    let done = tableau(
        &rt,
        rt.alloc(),
        words,
        &mut input,
        &mut output,
        &board,
        seat,
        &gate,
    );
    gate.clear();
    if matches!(done.status, Status::Ok) {
        gate.tell_threads();
    }
    let is_over = matches!(done.status, Status::WriteFault) && is_closed_pipe(&mut io::writer(&rt));
    if !are_text {
        tell_no_text(&rt.stderr());
    } else if !is_over {
        tell(&rt.stderr(), rt.alloc(), words, input.kept(), &done);
    }
    ExitCode::from(done.status.exit())
}
