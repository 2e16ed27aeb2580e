ghost use Rattle.std.specs.Prelude.{◌≡◌, ℕ, ◌<◌, ◌≤◌, ◌^◌, ◌⊎◌, [], ◌∷◌, ◌++◌, codes, length, IfOk, IfSome, IsErrOf, MatchOption};
ghost use Rattle.tab_core.specs.declared.TheConstants.{MAX_CORES};
ghost use Rattle.tab_words.specs.Words.{words_of};
ghost use Rattle.script_doc.specs.Statements.{statements_of};
ghost use Rattle.script_doc.specs.Steps.{AreSteps, IsFirstBadLine, IsNoStep, IsStep};
ghost use Rattle.script_doc.specs.declared.step_reader.StepsFault.TheVariants.{NoMemory};

use crate::line::is_skipped;
use crate::step::Step;
use crate::step_list::{LineNumbers, StepList, StepSequence};
use std::alloc::{AllocError, AllocFailed, Global};
use std::error::Error;
use std::fmt;
use tab_words::{Lines, Words, read_core};

/// Why a text isn't read as a list of steps.
#[derive(Clone, Copy, Debug, PartialEq, Eq)]
pub enum StepsFault {
    /// The line is no step, and it is the first such. Its number is from 1.
    BadLine { line: u32 },
    NoMemory,
}

impl fmt::Display for StepsFault {
    fn fmt<W: fmt::Write>(&self, f: &mut fmt::Formatter<W>) -> fmt::Result {
        match self {
            StepsFault::BadLine { line } => write!(f, "steps line {line}"),
            StepsFault::NoMemory => write!(f, "want of memory"),
        }
    }
}

impl Error for StepsFault {}

impl From<AllocError> for StepsFault {
    ghost from_gives = { λ _ fault. fault ≡ NoMemory };

    fn from(_: AllocError) -> StepsFault {
        StepsFault::NoMemory
    }
}

impl<T: Drop> From<AllocFailed<T>> for StepsFault {
    ghost from_gives = { λ _ fault. fault ≡ NoMemory };

    fn from(_: AllocFailed<T>) -> StepsFault {
        StepsFault::NoMemory
    }
}

/// The steps of a text of less than 2^32 bytes, for a host with so many cores, of which there are 1
/// to 32.
///
/// A line is `post`, or `see C`, `decide C` or `run C` with a core's number below the count of
/// cores. A line without words and one whose first byte is `#` are skipped, and count as lines.
/// `BadLine` comes exactly where another line is there, and names the first.
pub fn read_steps(alloc: Global, bytes: &[u8], cores: u32) -> Result<StepList, StepsFault>
    requires some_core { 1 ≤ cores }
    requires few_cores { cores ≤ MAX_CORES }
    requires short { length bytes.now < 2 ^ 32 }
    ensures ok { IfOk result (λ list. AreSteps cores (statements_of bytes.now) list.steps list.lines) }
    ensures bad_line { (line : ℕ) → IsErrOf result (StepsFault.BadLine line)
        → IsFirstBadLine cores (statements_of bytes.now) line }
    // Steps are read, and a first line that is none is answered.
    ensures read { (list : StepList) → AreSteps cores (statements_of bytes.now) list.steps list.lines
        → (result ≡ Ok list) ⊎ (result ≡ Err StepsFault.NoMemory) }
    ensures due { (line : ℕ) → IsFirstBadLine cores (statements_of bytes.now) line
        → (result ≡ Err (StepsFault.BadLine line)) ⊎ (result ≡ Err StepsFault.NoMemory) }
{
    let mut steps = Vec::new(alloc);
    let mut numbers = Vec::new(alloc);
    let mut number = 0;
    for line in Lines::over(bytes) {
        number += 1;
        if !is_skipped(line) {
            let Some(step) = step_of(line, cores) else {
                return Err(StepsFault::BadLine { line: number });
            };
            steps.push(step)?;
            numbers.push(number)?;
        }
    }
    Ok(StepList {
        steps: StepSequence::of(steps),
        lines: LineNumbers::of(numbers),
    })
}

// The step that the line is.
fn step_of(line: &[u8], cores: u32) -> Option<Step>
    requires { cores ≤ MAX_CORES }
    ensures { MatchOption result (IsNoStep cores (words_of line.now)) (IsStep cores (words_of line.now)) }
{
    if let Some(step) = plain_step(line, cores) {
        return Some(step);
    }
    let mut words = Words::of(line);
    match (words.next(), words.next(), words.next()) {
        (Some(name), None, _) => step_of_all(name),
        (Some(name), Some(word), None) => step_of_core(name, word, cores),
        _ => None,
    }
}

// The step that the line is, where it is a `see` or a `run` with one space. Most lines of a long list are so.
fn plain_step(line: &[u8], cores: u32) -> Option<Step>
    requires { cores ≤ MAX_CORES }
    ensures { IfSome result (IsStep cores (words_of line.now)) }
{
    if let Some(word) = behind_four(line, b"see ") {
        return see_of(word, cores);
    }
    if let Some(word) = behind_four(line, b"run ") {
        return run_of(word, cores);
    }
    None
}

fn see_of(word: &[u8], cores: u32) -> Option<Step>
    requires { cores ≤ MAX_CORES }
    ensures { IfSome result (IsStep cores (words_of (codes "see " ++ word.now))) }
{
    let core = read_core(word, cores)?;
    Some(Step::See(core))
}

fn run_of(word: &[u8], cores: u32) -> Option<Step>
    requires { cores ≤ MAX_CORES }
    ensures { IfSome result (IsStep cores (words_of (codes "run " ++ word.now))) }
{
    let core = read_core(word, cores)?;
    Some(Step::Run(core))
}

// What follows these bytes, if the line begins with them.
fn behind_four<'a>(line: &'a [u8], front: &[u8; 4]) -> Option<&'a [u8]>
    ensures { IfSome result (λ rest. line.now ≡ front.now ++ rest.now) }
{
    if line.len() < 4 || line[0] != front[0] || line[1] != front[1] {
        return None;
    }
    if line[2] != front[2] || line[3] != front[3] {
        return None;
    }
    Some(&line[4..])
}

// The step of one word.
fn step_of_all(name: &[u8]) -> Option<Step>
    ensures { (cores : ℕ) → MatchOption result (IsNoStep cores (name.now ∷ []))
        (IsStep cores (name.now ∷ [])) }
{
    if name == b"post".as_slice() {
        Some(Step::Post)
    } else {
        None
    }
}

// The step of these two words.
fn step_of_core(name: &[u8], word: &[u8], cores: u32) -> Option<Step>
    requires { cores ≤ MAX_CORES }
    ensures { MatchOption result (IsNoStep cores (name.now ∷ word.now ∷ []))
        (IsStep cores (name.now ∷ word.now ∷ [])) }
{
    let core = read_core(word, cores)?;
    if name == b"see".as_slice() {
        Some(Step::See(core))
    } else if name == b"decide".as_slice() {
        Some(Step::Decide(core))
    } else if name == b"run".as_slice() {
        Some(Step::Run(core))
    } else {
        None
    }
}
