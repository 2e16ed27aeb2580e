ghost use Rattle.std.specs.Prelude.{◌≡◌, ℕ, ◌<◌, ◌^◌, List, Option, MatchOption, decimal};
ghost use Rattle.host_trace.specs.Inside.Written.{fields_in};
ghost use Rattle.host_trace.specs.TraceLines.{IsCpuOf, LineTells, SaysMark, is_head, is_passed_over, state_word};
ghost use Rattle.host_trace.specs.declared.mark.Mark.{Mark};
ghost use Rattle.host_trace.specs.declared.mark.State.{State};

use crate::fields::{Written, written_in};
use crate::mark::{Mark, State, Told};
use script_doc::is_skipped;
use tab_words::read_number;
use vcpu_names::Names;

/// Whether a line of a trace says nothing: it has no words, its first byte is `#`, or it is the head that names
/// the columns.
pub fn is_passed_over(line: &[u8]) -> bool
    ensures { result ≡ is_passed_over line.now }
{
    is_skipped(line) || is_head(line)
}

fn is_head(line: &[u8]) -> bool
    ensures { result ≡ is_head line.now }
{
    line == b"TIME_NS,VCPU,STATE".as_slice() || line == b"TIME_NS,VCPU,STATE,CPU".as_slice()
}

/// What the line of this number says of the vCPUs of these names. None exactly where it says nothing.
///
/// A line is TIME_NS,VCPU,STATE or TIME_NS,VCPU,STATE,CPU with nothing around the commas: a number below 2^64, a
/// name, `run`, `wait` or `block`, and a number below 2^32.
pub fn mark_of(names: &Names<'_>, line: u64, text: &[u8]) -> Option<Mark>
    ensures { MatchOption result ((mark : Mark) → SaysMark names.now text.now mark → ⊥)
        (λ mark. (mark.line ≡ line) × SaysMark names.now text.now mark) }
{
    let Some(told) = told_of(text) else {
        return None;
    };
    Some(Mark {
        line,
        time_ns: told.time_ns,
        vcpu: names.number_of(told.name),
        state: told.state,
        cpu: told.cpu,
    })
}

/// What the line says of the vCPU that it names. None exactly where it says nothing.
pub fn told_of(text: &[u8]) -> Option<Told<'_>>
    ensures { MatchOption result
        ((name : List ℕ) (time : ℕ) (state : State) (cpu : Option ℕ) → LineTells text.now name time state cpu → ⊥)
        (λ told. LineTells text.now told.name.now told.time_ns told.state told.cpu) }
{
    let Some(written) = written_in(text) else {
        return None;
    };
    if written.name.is_empty() {
        return None;
    }
    let Some(time_ns) = read_number(written.time) else {
        return None;
    };
    let Some(state) = state_of(written.state) else {
        return None;
    };
    let Some(cpu) = cpu_of(&written) else {
        return None;
    };
    Some(Told {
        time_ns,
        name: written.name,
        state,
        cpu,
    })
}

// The state that a word names.
fn state_of(word: &[u8]) -> Option<State>
    ensures { MatchOption result ((state : State) → word.now ≡ state_word state → ⊥)
        (λ state. word.now ≡ state_word state) }
{
    if word == b"run".as_slice() {
        return Some(State::Run);
    }
    if word == b"wait".as_slice() {
        return Some(State::Wait);
    }
    if word == b"block".as_slice() {
        return Some(State::Block);
    }
    None
}

// The CPU that the fields name, which may be none; nothing where the field is no number of a CPU.
fn cpu_of(written: &Written<'_>) -> Option<Option<u32>>
    ensures { MatchOption result ((cpu : Option ℕ) → IsCpuOf (fields_in written.now).cpu cpu → ⊥)
        (λ cpu. IsCpuOf (fields_in written.now).cpu cpu) }
{
    let Some(word) = written.cpu else {
        return Some(None);
    };
    let Some(cpu) = small_number(word) else {
        return None;
    };
    Some(Some(cpu))
}

// The number below 2^32 that the word spells.
fn small_number(word: &[u8]) -> Option<u32>
    ensures { MatchOption result ((n : ℕ) → n < 2 ^ 32 → word.now ≡ decimal n → ⊥)
        (λ n. (n < 2 ^ 32) × (word.now ≡ decimal n)) }
{
    let number = read_number(word)?;
    if number <= u64::from(u32::MAX) {
        Some(number as u32)
    } else {
        None
    }
}
