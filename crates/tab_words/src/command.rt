ghost use Rattle.std.specs.Prelude.{◌≡◌, ℕ, ◌<◌, ◌≤◌, [], ◌∷◌, ◌++◌, length, codes, decimal, Some, Ok, Err, IfNone, IfOk, IfSome, IsErrOf, MatchResult};
ghost use Rattle.tab_words.specs.Commands.{IsCommand, IsFaultAt, texts};
ghost use Rattle.tab_words.specs.Inside.Readings.{BeginsWithNumber, IsModeOf, IsReading};

use crate::number::read_number;
use std::error::Error;
use std::fmt;
use tab_core::{MAX_CORES, MAX_ROUNDS, MAX_VCPUS};

/// What a run writes.
#[derive(Clone, Copy, Debug, PartialEq, Eq)]
pub enum RunMode {
    /// The report alone.
    Report,
    /// `trace`: every stint, then the report.
    Trace,
    /// `burst`: when each burst of work was seen and done and by when at the latest, then the report.
    Burst,
    /// `live`: the report alone, of a run whose later plans are made while the cores run.
    Live,
}

/// What the words of the command line ask for.
#[derive(Clone, Copy, Debug, PartialEq, Eq)]
pub enum Command {
    /// `plan`
    Plan,
    /// `plan whole`
    PlanWhole,
    /// `plan stay`
    PlanStay,
    /// `check`
    Check,
    /// `replay ROUNDS`, from 1 to `MAX_ROUNDS` rounds
    Replay { rounds: u32 },
    /// `run ROUNDS`, or that with `trace`, `burst` or `live`, with as many rounds
    Run { rounds: u32, mode: RunMode },
    /// `gen SEED CORES VCPUS`, from 1 to `MAX_CORES` cores, with at most `MAX_VCPUS` vCPUs and at most
    /// 99 for each core and one more
    Gen { seed: u64, cores: u32, vcpus: u32 },
    /// `selftest SEED`
    Selftest { seed: u64 },
    /// `--help`
    Help,
    /// `--version`
    Version,
}

/// The words are no command: its first fault.
#[derive(Clone, Copy, Debug, PartialEq, Eq)]
pub struct Usage {
    /// The number, from 0, of the first word such that no command begins with the words up to it, or
    /// the count of the words where a command begins with all of them.
    pub place: u32,
}

impl fmt::Display for Usage {
    ghost output = { λ usage. Some (codes "usage at word " ++ decimal usage.place) };

    fn fmt<W: fmt::Write>(&self, f: &mut fmt::Formatter<W>) -> fmt::Result {
        write!(f, "usage at word {}", self.place)
    }
}

impl Error for Usage {}

/// The command that the words are, which come without the program's name.
///
/// `Usage` comes exactly where they are none, with the one place of their fault.
pub fn read_words(words: &[String]) -> Result<Command, Usage>
    ensures ok { IfOk result (λ command. IsCommand (texts words.now) command) }
    ensures due { (command : Command) → IsCommand (texts words.now) command → result ≡ Ok command }
    ensures usage { (place : ℕ) → IsErrOf result (record { place = place })
        → IsFaultAt (texts words.now) place }
    ensures usage_due { (place : ℕ) → IsFaultAt (texts words.now) place
        → result ≡ Err (record { place = place }) }
{
    reading_of(words)
}

// The command that the words are, or the place of their fault.
fn reading_of(words: &[String]) -> Result<Command, Usage>
    ensures { IsReading (texts words.now) result }
{
    let Some((name, rest)) = words.split_first() else {
        return Err(Usage { place: 0 });
    };
    match name.as_str() {
        "plan" => read_plan(rest),
        "check" => read_end(Command::Check, rest, 1),
        "replay" => read_replay(rest),
        "run" => read_run(rest),
        "gen" => read_gen(rest),
        "selftest" => read_selftest(rest),
        "--help" => read_end(Command::Help, rest, 1),
        "--version" => read_end(Command::Version, rest, 1),
        _ => Err(Usage { place: 0 }),
    }
}

// A command that ends before these words, of which the first would be at this place.
fn read_end(command: Command, rest: &[String], place: u32) -> Result<Command, Usage>
    ensures { MatchResult result (λ read. (read ≡ command) × (rest.now ≡ []))
        (λ usage. (usage.place ≡ place) × (0 < length rest.now)) }
{
    if rest.is_empty() {
        Ok(command)
    } else {
        Err(Usage { place })
    }
}

// The number from `least` to `most` that the first word spells, and the words after it.
fn read_first(words: &[String], least: u64, most: u64) -> Option<(u64, &[String])>
    ensures some { IfSome result (λ read. (texts words.now ≡ decimal read.0 ∷ texts read.1.now)
        × (least ≤ read.0) × (read.0 ≤ most)) }
    ensures none { IfNone result (BeginsWithNumber least most (texts words.now) → ⊥) }
{
    let Some((word, rest)) = words.split_first() else {
        return None;
    };
    let Some(number) = read_number(word.as_bytes()) else {
        return None;
    };
    if least <= number && number <= most {
        Some((number, rest))
    } else {
        None
    }
}

// What is after `plan`: nothing, `whole` or `stay`.
fn read_plan(rest: &[String]) -> Result<Command, Usage>
    ensures { IsReading (codes "plan" ∷ texts rest.now) result }
{
    let Some((word, more)) = rest.split_first() else {
        return Ok(Command::Plan);
    };
    match word.as_str() {
        "whole" => read_end(Command::PlanWhole, more, 2),
        "stay" => read_end(Command::PlanStay, more, 2),
        _ => Err(Usage { place: 1 }),
    }
}

// The count of rounds after `replay`, after which nothing follows.
fn read_replay(rest: &[String]) -> Result<Command, Usage>
    ensures { IsReading (codes "replay" ∷ texts rest.now) result }
{
    let Some((rounds, more)) = read_first(rest, 1, u64::from(MAX_ROUNDS)) else {
        return Err(Usage { place: 1 });
    };
    let rounds = rounds as u32;
    read_end(Command::Replay { rounds }, more, 2)
}

// The count of rounds after `run`, which is followed by nothing, or by a word for what is written.
fn read_run(rest: &[String]) -> Result<Command, Usage>
    ensures { IsReading (codes "run" ∷ texts rest.now) result }
{
    let Some((rounds, more)) = read_first(rest, 1, u64::from(MAX_ROUNDS)) else {
        return Err(Usage { place: 1 });
    };
    let rounds = rounds as u32;
    let Some((word, more)) = more.split_first() else {
        return Ok(Command::Run {
            rounds,
            mode: RunMode::Report,
        });
    };
    match mode_of(word.as_str()) {
        Some(mode) => read_end(Command::Run { rounds, mode }, more, 3),
        None => Err(Usage { place: 2 }),
    }
}

// What the word after the count of rounds asks for.
fn mode_of(word: &str) -> Option<RunMode>
    ensures { IsModeOf word.now result }
{
    match word {
        "trace" => Some(RunMode::Trace),
        "burst" => Some(RunMode::Burst),
        "live" => Some(RunMode::Live),
        _ => None,
    }
}

// The three numbers after `gen`, after which nothing follows.
fn read_gen(rest: &[String]) -> Result<Command, Usage>
    ensures { IsReading (codes "gen" ∷ texts rest.now) result }
{
    let Some((seed, more)) = read_first(rest, 0, u64::MAX) else {
        return Err(Usage { place: 1 });
    };
    let Some((cores, more)) = read_first(more, 1, u64::from(MAX_CORES)) else {
        return Err(Usage { place: 2 });
    };
    let most = u64::from(MAX_VCPUS).min(99 * cores + 1);
    let Some((vcpus, more)) = read_first(more, 0, most) else {
        return Err(Usage { place: 3 });
    };
    let (cores, vcpus) = (cores as u32, vcpus as u32);
    read_end(Command::Gen { seed, cores, vcpus }, more, 4)
}

// The seed after `selftest`, after which nothing follows.
fn read_selftest(rest: &[String]) -> Result<Command, Usage>
    ensures { IsReading (codes "selftest" ∷ texts rest.now) result }
{
    let Some((seed, more)) = read_first(rest, 0, u64::MAX) else {
        return Err(Usage { place: 1 });
    };
    read_end(Command::Selftest { seed }, more, 2)
}
