ghost use Rattle.std.specs.Prelude.{◌≡◌, flat_map};
ghost use Rattle.tab_io.specs.Sinks.{Writes};
ghost use Rattle.tab_words.specs.Blocks.{PutsBehind};
ghost use Rattle.vcpu_names.specs.Names.{names_of};
ghost use Rattle.replay_text.specs.ReplayText.{made_line, posted_line, replay_text};
ghost use Rattle.step_machine.specs.Traces.{AreOfCourse, IsOfCourse};

use crate::entry_line::put_entry;
use step_machine::{Made, Trace};
use stint_text::StintLines;
use tab_core::{Host, Vcpu};
use tab_io::{Sink, WriteFault};
use tab_words::put_numbered;
use table_form::Course;

/// Writes the text of a run that has this trace, for the names of a host.
///
/// Each entry and each stint in the trace has its line, in the order of the steps that made them.
/// What the trace has is of the course.
///
/// A fault leaves a prefix of the text in the sink. Nothing is settled, and nothing is allocated.
pub fn write_replay<K: Sink>(
    sink: &mut K,
    host: &Host,
    course: &Course,
    trace: &Trace,
) -> Result<(), WriteFault>
    requires { AreOfCourse course.now trace.now.made }
    ensures { Writes (K.state sink.old) (K.state sink.new)
        (replay_text (names_of host.now.vcpus) course.now trace.now.made trace.now.posted) result }
{
    let vcpus = host.vcpus.items();
    if let Err(fault) = put_all_made(sink, vcpus, course, trace) {
        return Err(fault);
    }
    put_posted(sink, trace.posted())
}

// Writes a line for each entry and stint. They are gathered, since a run has up to some 100,000 of them.
fn put_all_made<K: Sink>(
    sink: &mut K,
    vcpus: &[Vcpu],
    course: &Course,
    trace: &Trace,
) -> Result<(), WriteFault>
    requires { AreOfCourse course.now trace.now.made }
    ensures { Writes (K.state sink.old) (K.state sink.new)
        (flat_map (made_line (names_of vcpus.now) course.now) trace.now.made) result }
{
    let mut lines = StintLines::of(vcpus);
    for place in 0..trace.count() {
        let made = trace.made(place);
        put_made(sink, &mut lines, course, &made)?;
    }
    lines.write(sink)
}

// Puts the line after the gathered ones.
fn put_made<K: Sink>(
    sink: &mut K,
    lines: &mut StintLines<'_>,
    course: &Course,
    made: &Made,
) -> Result<(), WriteFault>
    requires { IsOfCourse course.now made.now }
    ensures names { lines.new.names ≡ lines.old.names }
    ensures bytes { PutsBehind (K.state sink.old) (K.state sink.new) lines.old.gathered lines.new.gathered
        (made_line lines.old.names course.now made.now) result }
{
    match made {
        Made::Entered { core, entry } => put_entry(sink, lines, *core, entry),
        Made::Ran { core, stint } => lines.put_stint(sink, course, *core, stint),
    }
}

#[tactic(auto, unfolding(crate::specs::ReplayText::posted_line))]
fn put_posted<K: Sink>(sink: &mut K, posted: u32) -> Result<(), WriteFault>
    ensures { Writes (K.state sink.old) (K.state sink.new) (posted_line posted) result }
{
    put_numbered(sink, b"posted ", posted, b"\n")
}
