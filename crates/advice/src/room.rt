ghost use Rattle.std.specs.Prelude.{◌≡◌, ◌<◌, ◌≤◌, ◌++◌, codes, decimal};
ghost use Rattle.tab_core.specs.declared.TheConstants.{ROUND};
ghost use Rattle.tab_io.specs.Sinks.{Writes};
ghost use Rattle.advice.specs.Room.{ask_text, beyond_text, cores_text, due_of_task, due_of_tasks, more_cores_text, none_text, percent_text, planned_text, remedy_text, room_text, unplanned_text};

use crate::part::{Part, put_parts};
use reservation::demand_of;
use tab_core::{MAX_CORES, Periodic, ROUND, Tasks};
use tab_io::{Sink, WriteFault, write_all};

// Writes the advice on vCPUs that are due so many ticks of a round, on cores that have so many.
pub(crate) fn put_room<K: Sink>(sink: &mut K, demand: u64, room: u64) -> Result<(), WriteFault>
    ensures { Writes (K.state sink.old) (K.state sink.new) (room_text demand room) result }
{
    if let Err(fault) = put_asked(sink, demand, room) {
        return Err(fault);
    }
    put_remedy(sink, demand, room)
}

// Writes the ticks that the vCPUs ask for and that all cores have.
fn put_asked<K: Sink>(sink: &mut K, demand: u64, room: u64) -> Result<(), WriteFault>
    ensures { Writes (K.state sink.old) (K.state sink.new) (ask_text demand room) result }
{
    if let Err(fault) = put_ticks(sink, demand, room) {
        return Err(fault);
    }
    put_percent(sink, demand, room)
}

fn put_ticks<K: Sink>(sink: &mut K, demand: u64, room: u64) -> Result<(), WriteFault>
    ensures { Writes (K.state sink.old) (K.state sink.new)
        (codes "tableau: the vCPUs ask "
        ++ (decimal demand ++ (codes " ticks of a round, and all cores have " ++ decimal room))) result }
{
    put_parts(
        sink,
        &[
            Part::Text(b"tableau: the vCPUs ask "),
            Part::Wide(demand),
            Part::Text(b" ticks of a round, and all cores have "),
            Part::Wide(room),
        ],
    )
}

fn put_percent<K: Sink>(sink: &mut K, demand: u64, room: u64) -> Result<(), WriteFault>
    ensures { Writes (K.state sink.old) (K.state sink.new) (percent_text demand room) result }
{
    if 1 <= room && (room <= 1_000_000_000 && demand <= 1_000_000_000) {
        put_percent_of(sink, (demand * 100 + (room - 1)) / room)
    } else {
        write_all(sink, b"\n")
    }
}

fn put_percent_of<K: Sink>(sink: &mut K, percent: u64) -> Result<(), WriteFault>
    ensures { Writes (K.state sink.old) (K.state sink.new)
        (codes ": that is " ++ (decimal percent ++ codes " percent\n")) result }
{
    put_parts(
        sink,
        &[
            Part::Text(b": that is "),
            Part::Wide(percent),
            Part::Text(b" percent\n"),
        ],
    )
}

fn put_remedy<K: Sink>(sink: &mut K, demand: u64, room: u64) -> Result<(), WriteFault>
    ensures { Writes (K.state sink.old) (K.state sink.new) (remedy_text demand room) result }
{
    if demand <= room {
        return write_all(
            sink,
            b"tableau: tableau plan whole has a plan for them; or take smaller shares, longer latencies\ntableau: or one core more\n",
        );
    }
    put_cores(sink, demand.div_ceil(u64::from(ROUND)))
}

fn put_cores<K: Sink>(sink: &mut K, cores: u64) -> Result<(), WriteFault>
    ensures { Writes (K.state sink.old) (K.state sink.new) (cores_text cores) result }
{
    if cores <= u64::from(MAX_CORES) {
        put_more(sink, cores)
    } else {
        put_beyond(sink, cores)
    }
}

// Writes the advice to take so many cores.
fn put_more<K: Sink>(sink: &mut K, cores: u64) -> Result<(), WriteFault>
    ensures { Writes (K.state sink.old) (K.state sink.new) (more_cores_text cores) result }
{
    put_parts(
        sink,
        &[
            Part::Text(b"tableau: take fewer or smaller shares, or "),
            Part::Wide(cores),
            Part::Text(b" cores\n"),
        ],
    )
}

// Writes that no host has so many cores, in place of that.
fn put_beyond<K: Sink>(sink: &mut K, cores: u64) -> Result<(), WriteFault>
    ensures { Writes (K.state sink.old) (K.state sink.new) (beyond_text cores) result }
{
    put_parts(
        sink,
        &[
            Part::Text(b"tableau: take fewer or smaller shares; these want "),
            Part::Wide(cores),
            Part::Text(b" cores, and a host has at most 32\n"),
        ],
    )
}

// Writes that `plan` has a plan for such vCPUs.
pub(crate) fn put_planned<K: Sink>(sink: &mut K, demand: u64, room: u64) -> Result<(), WriteFault>
    ensures { Writes (K.state sink.old) (K.state sink.new) (planned_text demand room) result }
{
    if let Err(fault) = put_asked(sink, demand, room) {
        return Err(fault);
    }
    write_all(
        sink,
        b"tableau: tableau plan has a plan for them, which may move others\n",
    )
}

// Writes that `plan` has none either.
pub(crate) fn put_unplanned<K: Sink>(sink: &mut K, demand: u64, room: u64) -> Result<(), WriteFault>
    ensures { Writes (K.state sink.old) (K.state sink.new) (unplanned_text demand room) result }
{
    if let Err(fault) = put_asked(sink, demand, room) {
        return Err(fault);
    }
    put_none_either(sink, demand, room)
}

fn put_none_either<K: Sink>(sink: &mut K, demand: u64, room: u64) -> Result<(), WriteFault>
    ensures { Writes (K.state sink.old) (K.state sink.new) (none_text demand room) result }
{
    if let Err(fault) = write_all(sink, b"tableau: tableau plan has no plan for them either\n") {
        return Err(fault);
    }
    put_remedy(sink, demand, room)
}

// The ticks of a round that these budgets are due together.
pub(crate) fn due_of(tasks: &Tasks) -> u64
    ensures { result ≡ due_of_tasks tasks.now }
{
    let mut due = 0;
    for task in tasks.items() {
        due += due_of_task(task);
    }
    due
}

fn due_of_task(task: &Option<Periodic>) -> u64
    ensures value { result ≡ due_of_task task.now }
    ensures within { result ≤ ROUND }
{
    match task {
        None => 0,
        Some(task) => u64::from(demand_of(task)),
    }
}
