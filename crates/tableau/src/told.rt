//! What is written to standard error: what a command reads from a terminal, and after a refusal what to
//! do.
ghost use Rattle.std.specs.Prelude.{◌<◌, ◌^◌, length};

use advice::{Due, Refusal, write_advice, write_prompt};
use std::alloc::Global;
use step_machine::{Answer, Phase};
use tab_io::MemSink;
use table_check::CheckFault;
use tableau_sim::{Done, Status};

// Room for the longest of these texts.
const ROOM: usize = 4096;

/// Writes what the command of these words reads, before it reads that from a terminal. Where memory
/// runs out, or the output fails, nothing more is written.
pub(crate) fn prompt<P: Print>(output: &P, alloc: Global, words: &[String]) {
    let Ok(mut sink) = MemSink::with_room(alloc, ROOM) else {
        return;
    };
    let _ = write_prompt(words, &mut sink);
    let _ = output.write_all(sink.bytes());
}

/// Writes the advice on the status of this end of a call with these words, which read this input. Where memory
/// runs out, or the output fails, nothing more is written.
pub(crate) fn tell<P: Print>(output: &P, alloc: Global, words: &[String], input: &[u8], done: &Done)
    requires short { length input.now < 2 ^ 32 }
{
    let Some(refusal) = refusal_of(done) else {
        return;
    };
    let Ok(mut sink) = MemSink::with_room(alloc, ROOM) else {
        return;
    };
    let _ = write_advice(alloc, words, input, &refusal, &mut sink);
    let _ = output.write_all(sink.bytes());
}

/// Writes what to do about a word that isn't text. Where the output fails, nothing more is written.
pub(crate) fn tell_no_text<P: Print>(output: &P) {
    let _ = output.write_all(
        b"tableau: a word of the command isn't text in UTF-8; for help type: tableau --help\n",
    );
}

// What the advice is asked of.
fn refusal_of(done: &Done) -> Option<Refusal<'_>> {
    let refusal = match &done.status {
        Status::Ok => return None,
        Status::Usage { place } => Refusal::Usage { place: *place },
        Status::ReadFault => Refusal::ReadFault,
        Status::TooLong => Refusal::TooLong,
        Status::BadSections { found, wanted } => Refusal::BadSections {
            found: *found,
            wanted: *wanted,
        },
        Status::Host(fault) => Refusal::Host(*fault),
        Status::Script(fault) => Refusal::Script(*fault),
        Status::BadStep { line } => Refusal::BadStep { line: *line },
        Status::NoPeriod { vcpu } => Refusal::NoPeriod { vcpu: *vcpu },
        Status::NoRoom { .. } => Refusal::NoRoom {
            host: done.host.as_ref()?,
        },
        Status::NoFit { demand, room } => Refusal::NoFit {
            demand: *demand,
            room: *room,
        },
        Status::BadPlanLine { line } => Refusal::BadPlanLine { line: *line },
        Status::CheckNo(fault) => return of_tables(fault),
        Status::TraceTooLong { .. } => Refusal::TraceTooLong,
        Status::StepRefused { line, answer } => return of_step(*line, answer),
        Status::WriteFault => Refusal::WriteFault,
        Status::NoMemory => Refusal::NoMemory,
    };
    Some(refusal)
}

// What the advice is asked of tables that are no plan.
fn of_tables(fault: &CheckFault) -> Option<Refusal<'static>> {
    match fault {
        CheckFault::BadShape { core, place } => Some(Refusal::BadShape {
            core: *core,
            place: *place,
        }),
        CheckFault::Twice {
            tick,
            core,
            other,
            ..
        } => Some(Refusal::Twice {
            tick: *tick,
            core: *core,
            other: *other,
        }),
        CheckFault::Short {
            period_no,
            got,
            cost,
            ..
        } => Some(Refusal::Short {
            period_no: *period_no,
            got: *got,
            cost: *cost,
        }),
        CheckFault::NoMemory => None,
    }
}

// What the advice is asked of a step that isn't done.
fn of_step(line: u32, answer: &Answer) -> Option<Refusal<'static>> {
    let due = match answer {
        Answer::Done => return None,
        Answer::Behind { who, tick } => {
            return Some(Refusal::Behind {
                line,
                who: *who,
                tick: *tick,
            });
        }
        Answer::NotNow { phase } => match phase {
            Phase::See => Due::See,
            Phase::Decide => Due::Decide,
            Phase::Run => Due::Run,
            Phase::Finished => Due::Finished,
            Phase::AllPosted => Due::AllPosted,
        },
    };
    Some(Refusal::NotNow { line, due })
}
