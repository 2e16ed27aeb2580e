ghost use Rattle.std.specs.Prelude.{◌≡◌};
ghost use Rattle.tab_io.specs.Sinks.{Writes};
ghost use Rattle.advice.specs.Steps.{bad_step_text, due_text, due_words, waits_text};

use crate::line::line_at;
use crate::part::{Part, put_parts};
use crate::refusal::Due;
use tab_core::Actor;
use tab_io::{Sink, WriteFault};

// Writes the advice on a list of steps, whose line of this number is no step.
pub(crate) fn put_bad_step<K: Sink>(
    sink: &mut K,
    steps: &[u8],
    number: u32,
) -> Result<(), WriteFault>
    ensures { Writes (K.state sink.old) (K.state sink.new) (bad_step_text steps.now number) result }
{
    put_parts(
        sink,
        &[
            Part::Text(b"tableau: steps line "),
            Part::Number(number),
            Part::Text(b", "),
            Part::Quoted(line_at(steps, number)),
            Part::Text(
                b": wanted is post, see CORE, decide CORE or run CORE,\ntableau: with the number of one of the host's cores, from 0\n",
            ),
        ],
    )
}

// Writes the advice on the step on this line, which isn't due, as this is.
pub(crate) fn put_due<K: Sink>(
    sink: &mut K,
    steps: &[u8],
    number: u32,
    due: Due,
) -> Result<(), WriteFault>
    ensures { Writes (K.state sink.old) (K.state sink.new) (due_text steps.now number due) result }
{
    put_parts(
        sink,
        &[
            Part::Text(b"tableau: steps line "),
            Part::Number(number),
            Part::Text(b", "),
            Part::Quoted(line_at(steps, number)),
            Part::Text(b": "),
            Part::Text(due_words(due)),
            Part::Text(b"\n"),
        ],
    )
}

// Writes the advice on the step on this line, which waits for this actor at this tick.
pub(crate) fn put_waits<K: Sink>(
    sink: &mut K,
    steps: &[u8],
    number: u32,
    who: &Actor,
    tick: u32,
) -> Result<(), WriteFault>
    ensures { Writes (K.state sink.old) (K.state sink.new) (waits_text steps.now number who.now tick) result }
{
    match who {
        Actor::Core(core) => put_parts(
            sink,
            &[
                Part::Text(b"tableau: steps line "),
                Part::Number(number),
                Part::Text(b", "),
                Part::Quoted(line_at(steps, number)),
                Part::Text(b": let core "),
                Part::Number(core.0),
                Part::Text(b" go on first, which is at tick "),
                Part::Number(tick),
                Part::Text(b"\n"),
            ],
        ),
        Actor::Controller => put_parts(
            sink,
            &[
                Part::Text(b"tableau: steps line "),
                Part::Number(number),
                Part::Text(b", "),
                Part::Quoted(line_at(steps, number)),
                Part::Text(b": post the event of tick "),
                Part::Number(tick),
                Part::Text(b" first\n"),
            ],
        ),
    }
}

fn due_words(due: Due) -> &'static [u8]
    ensures { result.now ≡ due_words due }
{
    match due {
        Due::See => b"first the core has to see the posted events: see",
        Due::Decide => b"first the core has to enter its round: decide",
        Due::Run => b"the core has seen and decided, and runs now: run",
        Due::Finished =>
            b"the core is at the end of the run; leave the line out, or take more rounds",
        Due::AllPosted => b"every event of the script is posted; leave the line out",
    }
}
