ghost use Rattle.std.specs.Prelude.{◌≡◌, ℕ, ◌<◌, ◌^◌, ◌∷◌, [], MatchOption, codes};
ghost use Rattle.tab_words.specs.Words.{words_of};
ghost use Rattle.view_report.specs.Inside.NoLines.{NoBegun, NoChange, NoCoreRan, NoOutcome, NoStart, NoVcpuRan};
ghost use Rattle.view_report.specs.Lines.{IsGoodOutcome, SaysLine, SaysNoLine, became_words, begins_run};

use crate::said::{Became, CoreRan, PlanStart, ReportedChange, Said, VcpuRan};
use crate::words::{next_name, next_number, next_tick, no_more, number_after, step_over};
use tab_words::Words;

// Whether a report may begin with the line.
pub(crate) fn begins_run(line: &[u8]) -> bool
    ensures { result ≡ begins_run (words_of line.now) }
{
    match Words::of(line).next() {
        Some(word) => word == b"run".as_slice(),
        None => false,
    }
}

// What the line of a report says.
pub(crate) fn said_of<'a>(line: &'a [u8]) -> Option<Said<'a>>
    ensures { MatchOption result (SaysNoLine (words_of line.now)) (SaysLine (words_of line.now)) }
{
    if let Some(said) = vcpu_of(line) {
        return Some(said);
    }
    if let Some(said) = core_of(line) {
        return Some(said);
    }
    if let Some(said) = start_of(line) {
        return Some(said);
    }
    if let Some(said) = change_of(line) {
        return Some(said);
    }
    if let Some(said) = begun_of(line) {
        return Some(said);
    }
    done_of(line)
}

// The first line of a report.
fn begun_of<'a>(line: &'a [u8]) -> Option<Said<'a>>
    ensures { MatchOption result (NoBegun (words_of line.now)) (SaysLine (words_of line.now)) }
{
    let mut words = Words::of(line);
    let rounds = number_after(&mut words, b"run")?;
    let cores = number_after(&mut words, b"rounds")?;
    let events = number_after(&mut words, b"cores")?;
    step_over(&mut words, b"events")?;
    no_more(&mut words)?;
    Some(Said::Begun {
        rounds,
        cores,
        events,
    })
}

// The line of a change.
fn change_of<'a>(line: &'a [u8]) -> Option<Said<'a>>
    ensures { MatchOption result (NoChange (words_of line.now)) (SaysLine (words_of line.now)) }
{
    let mut words = Words::of(line);
    let number = number_after(&mut words, b"change")?;
    step_over(&mut words, b"at")?;
    let tick = next_tick(&mut words)?;
    let became = became_of(&mut words)?;
    Some(Said::Changed {
        number,
        change: ReportedChange { tick, became },
    })
}

// What the words say became of a change.
fn became_of<'a>(words: &mut Words<'a>) -> Option<Became<'a>>
    ensures { MatchOption result (NoOutcome words.old)
        (λ became. IsGoodOutcome became × (words.old ≡ became_words became)) }
{
    let first = words.next()?;
    if first == b"planned".as_slice() {
        no_more(words)?;
        return Some(Became::Planned);
    }
    if first != b"no".as_slice() {
        return None;
    }
    let cause = words.next()?;
    step_over(words, b"for")?;
    let name = next_name(words)?;
    no_more(words)?;
    if cause == b"period".as_slice() {
        Some(Became::NoPeriod(name))
    } else if cause == b"room".as_slice() {
        Some(Became::NoRoom(name))
    } else {
        None
    }
}

// The line of a round that begins with another plan.
fn start_of<'a>(line: &'a [u8]) -> Option<Said<'a>>
    ensures { MatchOption result (NoStart (words_of line.now)) (SaysLine (words_of line.now)) }
{
    let mut words = Words::of(line);
    let round = number_after(&mut words, b"round")?;
    let plan = number_after(&mut words, b"plan")?;
    no_more(&mut words)?;
    Some(Said::Planned(PlanStart { round, plan }))
}

// The line of a vCPU.
fn vcpu_of<'a>(line: &'a [u8]) -> Option<Said<'a>>
    ensures { MatchOption result (NoVcpuRan (words_of line.now)) (SaysLine (words_of line.now)) }
{
    let mut words = Words::of(line);
    step_over(&mut words, b"vcpu")?;
    let name = next_name(&mut words)?;
    let offered = number_after(&mut words, b"offered")?;
    let slots = number_after(&mut words, b"slots")?;
    let shared = number_after(&mut words, b"shared")?;
    let gap = number_after(&mut words, b"gap")?;
    no_more(&mut words)?;
    Some(Said::Vcpu(VcpuRan {
        name,
        offered,
        slots,
        shared,
        gap,
    }))
}

// The line of a core.
fn core_of<'a>(line: &'a [u8]) -> Option<Said<'a>>
    ensures { MatchOption result (NoCoreRan (words_of line.now)) (SaysLine (words_of line.now)) }
{
    let mut words = Words::of(line);
    let number = number_after(&mut words, b"core")?;
    let slots = number_after(&mut words, b"slots")?;
    let shared = number_after(&mut words, b"shared")?;
    let idle = number_after(&mut words, b"idle")?;
    no_more(&mut words)?;
    Some(Said::Core {
        number,
        ran: CoreRan {
            slots,
            shared,
            idle,
        },
    })
}

// The last line.
fn done_of<'a>(line: &'a [u8]) -> Option<Said<'a>>
    ensures { MatchOption result (words_of line.now ≡ codes "done" ∷ [] → ⊥) (SaysLine (words_of line.now)) }
{
    let mut words = Words::of(line);
    step_over(&mut words, b"done")?;
    no_more(&mut words)?;
    Some(Said::Done)
}
