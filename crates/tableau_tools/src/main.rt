//! The program `tableau-tools`: it shows what `tableau` wrote.
//!
//! `command` has the words, and `words` makes of those that were met what a command takes. The commands are in crates of
//! their own: `tool_views` shows what `tableau` wrote, `tool_hosts` has those about hosts, and `tool_input` what they share.
#![tactic(auto)]

mod command;
mod words;

use clap::error::ErrorKind;
use clap::{ArgMatches, Error};
use program_words::is_closed_pipe;
use std::io;
use std::process::ExitCode;
use tool_hosts::{fit, host, judge, place_vms, sections};
use tool_input::Fault;
use tool_views::{chart, diff, report, table};
use view_judge::Verdict;
use words::{
    chart_words, diff_words, export, form_words, has_tick, judge_words, place_words, size_words,
    table_words,
};

// The status of `diff` and of `judge` for a fault, since their 1 says that the plans differ, or that a promise was broken.
const NO_ANSWER: u8 = 2;

// The status of `judge` where no promise was broken, but not all were judged.
const UNJUDGED: u8 = 3;

// The status of `fit` where the host has no plan, as of `tableau plan`, and of `place` where VMs are left over.
const NO_PLAN: u8 = 3;

fn main(rt: HostRuntime) -> ExitCode {
    let words = match program_words::words(&rt, rt.alloc()) {
        Ok(words) => words,
        Err(fault) if fault.kind() == io::ErrorKind::OutOfMemory => {
            return ExitCode::from(refusal(&rt, &Fault::NoMemory));
        }
        Err(_) => return ExitCode::from(refusal(&rt, &Fault::NoText)),
    };
    match run(&rt, words.as_slice()) {
        Ok(status) => ExitCode::from(status),
        Err(fault) => {
            let status = refusal(&rt, &fault);
            ExitCode::from(if answers(words.as_slice()) {
                NO_ANSWER
            } else {
                status
            })
        }
    }
}

// Whether the words name a command whose status is its answer.
fn answers(words: &[String]) -> bool {
    match words.get(1) {
        Some(word) => word.as_str() == "diff" || word.as_str() == "judge",
        None => false,
    }
}

// Says why a command doesn't end well, and gives the status. Where the pipe that it writes to was closed, nothing is said.
fn refusal(rt: &HostRuntime, fault: &Fault) -> u8 {
    let is_over = matches!(fault, Fault::WriteFault) && is_closed_pipe(&mut io::writer(rt));
    if !is_over {
        // (where the line can't be written, the status says it)
        let _ = eprintln!(rt; "tableau-tools: {fault}");
    }
    fault.status()
}

// Does what the words say. The status is 0 or the command's, or that of words that are no command: 1, or 2 for `diff` and
// `judge`.
fn run(rt: &HostRuntime, words: &[String]) -> Result<u8, Fault> {
    let Ok(command) = command::command(rt.alloc()) else {
        return Err(Fault::NoMemory);
    };
    match command.try_get_matches_from(words) {
        Ok(matches) => dispatch(rt, &matches),
        Err(error) => told(rt, &error, if answers(words) { NO_ANSWER } else { 1 }),
    }
}

// Prints what clap answers, which is help or a version or a usage, and gives its status.
fn told(rt: &HostRuntime, error: &Error, status: u8) -> Result<u8, Fault> {
    if error.kind() == ErrorKind::OutOfMemory {
        return Err(Fault::NoMemory);
    }
    let printed = error.print(rt);
    if error.exit_code() != 0 {
        return Ok(status);
    }
    match printed {
        Ok(()) => Ok(0),
        Err(_) => Err(Fault::WriteFault),
    }
}

// Does the command that was met, and gives its status.
fn dispatch(rt: &HostRuntime, matches: &ArgMatches<'_>) -> Result<u8, Fault> {
    if let Some((_, matches)) = matches.subcommand() {
        has_tick(rt.alloc(), matches)?;
    }
    match matches.subcommand() {
        Some(("diff", matches)) => differs(rt, matches),
        Some(("judge", matches)) => judged(rt, matches),
        Some(("fit", matches)) => status_of(fit(rt, &size_words(matches))),
        Some(("place", matches)) => status_of(place_vms(rt, &place_words(matches))),
        Some((name, matches)) => {
            write(rt, name, matches)?;
            Ok(0)
        }
        None => Ok(0),
    }
}

// Does the command of this name, which answers nothing.
fn write(rt: &HostRuntime, name: &str, matches: &ArgMatches<'_>) -> Result<(), Fault> {
    match name {
        "chart" => chart(rt, &chart_words(matches)),
        "export" => export(rt, matches),
        "table" => tables(rt, matches),
        "report" => report(rt, matches.get_str("FILE"), matches.get_str("old")),
        "sections" => sections(rt, matches.get_strs("FILE").unwrap_or_default()),
        "host" => host(rt, &size_words(matches)),
        _ => Ok(()),
    }
}

// Does `table`.
fn tables(rt: &HostRuntime, matches: &ArgMatches<'_>) -> Result<(), Fault> {
    let form = form_words(matches)?;
    table(rt, &table_words(matches, form))
}

// Does `diff`, and gives its status: 1 where the plans differ.
fn differs(rt: &HostRuntime, matches: &ArgMatches<'_>) -> Result<u8, Fault> {
    let form = form_words(matches)?;
    Ok(u8::from(diff(rt, &diff_words(matches, form))?))
}

// Does `judge`, and gives its status: 1 where a promise was broken, and 3 where none was but not all were judged.
fn judged(rt: &HostRuntime, matches: &ArgMatches<'_>) -> Result<u8, Fault> {
    Ok(match judge(rt, &judge_words(matches))? {
        Verdict::Kept => 0,
        Verdict::Broken => 1,
        Verdict::Unjudged(_) => UNJUDGED,
    })
}

// The status of `fit` and `place` by what they answer.
fn status_of(is_planned: Result<bool, Fault>) -> Result<u8, Fault> {
    Ok(if is_planned? { 0 } else { NO_PLAN })
}
