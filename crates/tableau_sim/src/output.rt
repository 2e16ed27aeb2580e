ghost use Rattle.std.specs.Prelude.{◌≡◌};
ghost use Rattle.tab_io.specs.Sinks.{Writes};
ghost use Rattle.tab_io.specs.Views.{SinkView};
ghost use Rattle.vcpu_names.specs.Names.{names_of};
ghost use Rattle.tableau_sim.specs.Inside.Reply.{CanBeWritten, IsWritable, bytes_of, handed, host_in, names_in, outcome_in};
ghost use Rattle.tableau_sim.specs.Frame.{WritesReply};
ghost use Rattle.tableau_sim.specs.Outcomes.{CallOutcome, status_of, text_of_outcome};

use crate::commands::prepared::put_run;
use crate::help::{HELP, VERSION};
use crate::line::put_line;
use crate::reply::{RunReply, Stop, Text};
use crate::status::Status;
use host_gen::write_host;
use plan_text::write_plan;
use replay_text::write_replay;
use tab_core::{Host, Vcpu};
use tab_io::{Put, Sink, WriteFault, write_all};

// Writes what is due and settles it, and hands on the host of a refusal for room.
pub(crate) fn write_reply<K: Sink>(output: &mut K, reply: RunReply<'_>) -> (Status, Option<Host>)
    requires { CanBeWritten reply }
    ensures written { WritesReply (K.state output.old) (K.state output.new) (outcome_in reply.entry) result.0 }
    ensures host { result.1 ≡ handed result.0 (host_in reply.entry) }
{
    let put = put_reply(output, &reply);
    let (due, host) = parts_of(reply);
    let status = settle(output, put, due);
    let host = handed(&status, host);
    (status, host)
}

// The host that is handed on with this status.
fn handed(status: &Status, host: Option<Host>) -> Option<Host>
    ensures { result ≡ handed status.now host }
{
    match status {
        Status::NoRoom { .. } => host,
        _ => None,
    }
}

// Settles a text that was put, if that came whole, and says how it ended: done, or with a write fault.
fn settle<K: Sink>(output: &mut K, put: Result<(), WriteFault>, done: Status) -> Status
    ensures { (before : SinkView) (due : CallOutcome) → Writes before (K.state output.old) (text_of_outcome due) put
        → done ≡ status_of due → WritesReply before (K.state output.new) due result }
{
    if let Err(_fault) = put {
        return Status::WriteFault;
    }
    match output.finish() {
        Put::Took(_) => done,
        Put::Failed => Status::WriteFault,
    }
}

fn put_reply<K: Sink>(output: &mut K, reply: &RunReply<'_>) -> Result<(), WriteFault>
    requires { CanBeWritten reply.now }
    ensures { Writes (K.state output.old) (K.state output.new)
        (text_of_outcome (outcome_in reply.now)) result }
{
    match reply {
        Ok(text) => put_text(output, text),
        Err(Stop::Refused { status, host }) => put_line(output, status, vcpus_in(host)),
        Err(Stop::NoMemory) => put_line(output, &Status::NoMemory, &[]),
    }
}

// One row for each text.
fn put_text<K: Sink>(output: &mut K, text: &Text<'_>) -> Result<(), WriteFault>
    requires { IsWritable text.now }
    ensures { Writes (K.state output.old) (K.state output.new) (bytes_of text.now) result }
{
    match text {
        Text::Help => write_all(output, HELP.as_bytes()),
        Text::Version => write_all(output, VERSION.as_bytes()),
        Text::Plan { host, plan } => write_plan(output, host, plan),
        Text::Same { text } => write_all(output, text),
        Text::Checked => write_all(output, b"ok\n"),
        Text::Generated { host } => write_host(output, host),
        Text::Replay { host, book, trace } => write_replay(output, host, book.course(), trace),
        Text::Run {
            rounds,
            mode,
            prepared,
            bursts,
            ran,
        } => put_run(output, *rounds, *mode, prepared, bursts.answers(), ran),
        Text::RunBeside { rounds, host, ran } => run_live::write_run(output, host, *rounds, ran),
    }
}

fn vcpus_in(host: &Option<Host>) -> &[Vcpu]
    ensures { names_of result.now ≡ names_in host.now }
{
    match host {
        Some(host) => host.vcpus.items(),
        None => &[],
    }
}

// The status of what is due, and the host of a refusal.
fn parts_of(reply: RunReply<'_>) -> (Status, Option<Host>)
    ensures status { result.0 ≡ status_of (outcome_in reply.entry) }
    ensures host { result.1 ≡ host_in reply.entry }
{
    match reply {
        Ok(_) => (Status::Ok, None),
        Err(Stop::Refused { status, host }) => (status, host),
        Err(Stop::NoMemory) => (Status::NoMemory, None),
    }
}
