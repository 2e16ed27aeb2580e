ghost use Rattle.std.specs.Prelude.{◌≡◌, ◌+◌, ◌<◌, ◌≤◌, ◌++◌, ◌^◌, codes, length};
ghost use Rattle.tab_io.specs.Sinks.{Writes};
ghost use Rattle.tab_words.specs.Texts.{texts_below};
ghost use Rattle.view_schedulers.specs.CpuLists.{cpu_at};
ghost use Rattle.view_schedulers.specs.Lines.{admitted_part, chrt_line, cpu_word, cpus_line, deadline_of, deadline_text, deadline_text_of, each_vcpu_text, extra_of, into_line, pin_line, plan_comment, rtds_line, rtds_of, rtds_text, rtds_text_of, shell_head};

use crate::budget::{budget_in, period_in};
use crate::cpu_list::cpu_at;
use crate::guest::{guest_of, number_of};
use crate::heads::{ADMIT_ALL, ADMITTED, DEADLINE_HEAD, PARTITIONS, RTDS_HEAD, SHELL_HEAD};
use crate::reserved::is_capped;
use crate::scheduler::Scheduler;
use crate::unkept::name_at;
use tab_core::{Name, Vcpu};
use tab_io::{Sink, WriteFault, write_all};
use tab_words::{TextPiece, put_pieces};
use view_doc::{Task, View};

/// Writes the lines that put a plan's vCPUs on Xen's RTDS: for each a pin to one CPU, and a period and a budget in
/// microseconds. `cpus` has the CPU of each core by its number, and a tick has so many nanoseconds.
///
/// A fault leaves a prefix of the text in the sink. Nothing is settled, and nothing is allocated.
pub fn write_rtds<K: Sink>(
    sink: &mut K,
    cpus: &[u32],
    tick_ns: u32,
    host: &[Vcpu],
    view: &View,
) -> Result<(), WriteFault>
    ensures { Writes (K.state sink.old) (K.state sink.new) (rtds_text cpus.now tick_ns host.now view.now) result }
{
    put_rtds_text(
        sink,
        cpus,
        tick_ns,
        host,
        view.cores,
        &view.names,
        &view.tasks,
    )
}

// Writes the text of a plan of these vCPUs.
fn put_rtds_text<K: Sink>(
    sink: &mut K,
    cpus: &[u32],
    tick_ns: u32,
    host: &[Vcpu],
    cores: u32,
    names: &[Name],
    tasks: &[Task],
) -> Result<(), WriteFault>
    ensures { Writes (K.state sink.old) (K.state sink.new)
        (rtds_text_of cpus.now tick_ns host.now cores names.now tasks.now) result }
{
    write_all(sink, RTDS_HEAD)?;
    put_made(sink, cores, tasks, tick_ns, cpus)?;
    put_rtds_vcpus(sink, cpus, tick_ns, host, names, tasks)
}

/// Writes the lines that make a plan's vCPUs deadline tasks of Linux: a partition for each core, and
/// for each vCPU its way into that of its home, and a period and a budget in nanoseconds. `cpus`
/// has the CPU of each core by its number, and a tick has so many nanoseconds.
///
/// A fault leaves a prefix of the text in the sink. Nothing is settled, and nothing is allocated.
pub fn write_deadline<K: Sink>(
    sink: &mut K,
    scheduler: Scheduler,
    cpus: &[u32],
    tick_ns: u32,
    view: &View,
) -> Result<(), WriteFault>
    ensures { Writes (K.state sink.old) (K.state sink.new)
        (deadline_text scheduler cpus.now tick_ns view.now) result }
{
    put_deadline_text(
        sink,
        scheduler,
        cpus,
        tick_ns,
        view.cores,
        &view.names,
        &view.tasks,
    )
}

// Writes the text of a plan of these vCPUs.
fn put_deadline_text<K: Sink>(
    sink: &mut K,
    scheduler: Scheduler,
    cpus: &[u32],
    tick_ns: u32,
    cores: u32,
    names: &[Name],
    tasks: &[Task],
) -> Result<(), WriteFault>
    ensures { Writes (K.state sink.old) (K.state sink.new)
        (deadline_text_of scheduler cpus.now tick_ns cores names.now tasks.now) result }
{
    put_head(sink, DEADLINE_HEAD)?;
    put_made(sink, cores, tasks, tick_ns, cpus)?;
    put_admitted(sink, scheduler)?;
    put_cpus_line(sink, cpus, cores)?;
    write_all(sink, PARTITIONS)?;
    put_deadline_vcpus(sink, scheduler, cpus, tick_ns, names, tasks)
}

// Writes the comments of a text that speaks of threads, and what finds these.
pub(crate) fn put_head<K: Sink>(sink: &mut K, head: &'static [u8]) -> Result<(), WriteFault>
    ensures { Writes (K.state sink.old) (K.state sink.new) (shell_head head.now) result }
{
    write_all(sink, head)?;
    write_all(sink, SHELL_HEAD)
}

// Writes how much of a CPU the kernel admits.
fn put_admitted<K: Sink>(sink: &mut K, scheduler: Scheduler) -> Result<(), WriteFault>
    ensures { Writes (K.state sink.old) (K.state sink.new) (admitted_part scheduler) result }
{
    write_all(sink, admitted(scheduler))
}

fn admitted(scheduler: Scheduler) -> &'static [u8]
    ensures { result.now ≡ admitted_part scheduler }
{
    match scheduler {
        Scheduler::Rtds | Scheduler::Deadline | Scheduler::Quota => ADMITTED,
        Scheduler::FullDeadline => ADMIT_ALL,
    }
}

// Writes what the text is made from.
#[tactic(auto, unfolding(crate::specs::Lines::plan_comment))]
pub(crate) fn put_made<K: Sink>(
    sink: &mut K,
    cores: u32,
    tasks: &[Task],
    tick_ns: u32,
    cpus: &[u32],
) -> Result<(), WriteFault>
    ensures { Writes (K.state sink.old) (K.state sink.new)
        (plan_comment cores (length tasks.now) tick_ns (cpu_at cpus.now 0)) result }
{
    put_pieces(
        sink,
        &[
            TextPiece::Text(b"# The plan has "),
            TextPiece::Number(cores),
            TextPiece::Text(b" cores and "),
            TextPiece::Wide(tasks.len() as u64),
            TextPiece::Text(b" vCPUs, in ticks of "),
            TextPiece::Number(tick_ns),
            TextPiece::Text(b" ns. Its core 0 is CPU "),
            TextPiece::Wide(cpu_at(cpus, 0)),
            TextPiece::Text(b".\n"),
        ],
    )
}

// Writes the line of the CPUs of so many cores.
fn put_cpus_line<K: Sink>(sink: &mut K, cpus: &[u32], cores: u32) -> Result<(), WriteFault>
    ensures { Writes (K.state sink.old) (K.state sink.new) (cpus_line cpus.now cores) result }
{
    write_all(sink, b"cpus=\"")?;
    put_cpus(sink, cpus, cores)?;
    write_all(sink, b"\"\n")
}

// Writes the CPUs of so many cores.
fn put_cpus<K: Sink>(sink: &mut K, cpus: &[u32], cores: u32) -> Result<(), WriteFault>
    ensures { Writes (K.state sink.old) (K.state sink.new) (texts_below (cpu_word cpus.now) cores) result }
{
    for core in 0..cores {
        put_cpu(sink, cpus, core)?;
    }
    Ok(())
}

fn put_cpu<K: Sink>(sink: &mut K, cpus: &[u32], core: u32) -> Result<(), WriteFault>
    ensures { Writes (K.state sink.old) (K.state sink.new) (cpu_word cpus.now core) result }
{
    let cpu = cpu_at(cpus, core);
    put_pieces(sink, &[TextPiece::Text(b" "), TextPiece::Wide(cpu)])
}

// Writes the lines of each vCPU.
fn put_rtds_vcpus<K: Sink>(
    sink: &mut K,
    cpus: &[u32],
    tick_ns: u32,
    host: &[Vcpu],
    names: &[Name],
    tasks: &[Task],
) -> Result<(), WriteFault>
    ensures { Writes (K.state sink.old) (K.state sink.new)
        (texts_below (each_vcpu_text (rtds_of cpus.now tick_ns host.now) names.now tasks.now)
        (length tasks.now)) result }
{
    for vcpu in 0..tasks.len() {
        put_rtds_at(sink, cpus, tick_ns, host, names, tasks, vcpu)?;
    }
    Ok(())
}

fn put_rtds_at<K: Sink>(
    sink: &mut K,
    cpus: &[u32],
    tick_ns: u32,
    host: &[Vcpu],
    names: &[Name],
    tasks: &[Task],
    vcpu: usize,
) -> Result<(), WriteFault>
    requires { vcpu < length tasks.now }
    ensures { Writes (K.state sink.old) (K.state sink.new)
        (each_vcpu_text (rtds_of cpus.now tick_ns host.now) names.now tasks.now vcpu) result }
{
    let name = name_at(names, vcpu);
    put_rtds(sink, cpus, tick_ns, host, name, &tasks[vcpu])
}

fn put_rtds<K: Sink>(
    sink: &mut K,
    cpus: &[u32],
    tick_ns: u32,
    host: &[Vcpu],
    name: &[u8],
    task: &Task,
) -> Result<(), WriteFault>
    ensures { Writes (K.state sink.old) (K.state sink.new)
        (rtds_of cpus.now tick_ns host.now name.now task.now) result }
{
    let guest = guest_of(name);
    let number = number_of(name);
    let period = period_in(Scheduler::Rtds, tick_ns, task);
    let budget = budget_in(Scheduler::Rtds, tick_ns, task);
    let extra = extra_of(is_capped(host, name));
    let cpu = cpu_of(cpus, task);
    put_rtds_lines(sink, guest, number, cpu, period, budget, extra)
}

fn put_rtds_lines<'a, K: Sink>(
    sink: &mut K,
    guest: &'a [u8],
    number: &'a [u8],
    cpu: u64,
    period: u64,
    budget: u64,
    extra: u32,
) -> Result<(), WriteFault>
    ensures { Writes (K.state sink.old) (K.state sink.new)
        (pin_line guest.now number.now cpu ++ rtds_line guest.now number.now period budget extra) result }
{
    put_pin(sink, guest, number, cpu)?;
    put_budget(sink, guest, number, period, budget, extra)
}

// The CPU of a task's home.
pub(crate) fn cpu_of(cpus: &[u32], task: &Task) -> u64
    ensures { result ≡ cpu_at cpus.now task.now.home }
{
    cpu_at(cpus, task.home.0)
}

fn extra_of(capped: bool) -> u32
    ensures { result ≡ extra_of capped }
{
    if capped { 0 } else { 1 }
}

#[tactic(auto, unfolding(crate::specs::Lines::pin_line))]
fn put_pin<'a, K: Sink>(
    sink: &mut K,
    guest: &'a [u8],
    number: &'a [u8],
    cpu: u64,
) -> Result<(), WriteFault>
    ensures { Writes (K.state sink.old) (K.state sink.new) (pin_line guest.now number.now cpu) result }
{
    put_pieces(
        sink,
        &[
            TextPiece::Text(b"xl vcpu-pin "),
            TextPiece::Text(guest),
            TextPiece::Text(b" "),
            TextPiece::Text(number),
            TextPiece::Text(b" "),
            TextPiece::Wide(cpu),
            TextPiece::Text(b" "),
            TextPiece::Wide(cpu),
            TextPiece::Text(b"\n"),
        ],
    )
}

#[tactic(auto, unfolding(crate::specs::Lines::rtds_line))]
fn put_budget<'a, K: Sink>(
    sink: &mut K,
    guest: &'a [u8],
    number: &'a [u8],
    period: u64,
    budget: u64,
    extra: u32,
) -> Result<(), WriteFault>
    ensures { Writes (K.state sink.old) (K.state sink.new)
        (rtds_line guest.now number.now period budget extra) result }
{
    put_pieces(
        sink,
        &[
            TextPiece::Text(b"xl sched-rtds -d "),
            TextPiece::Text(guest),
            TextPiece::Text(b" -v "),
            TextPiece::Text(number),
            TextPiece::Text(b" -p "),
            TextPiece::Wide(period),
            TextPiece::Text(b" -b "),
            TextPiece::Wide(budget),
            TextPiece::Text(b" -e "),
            TextPiece::Number(extra),
            TextPiece::Text(b"\n"),
        ],
    )
}

// Writes the lines of each vCPU.
fn put_deadline_vcpus<K: Sink>(
    sink: &mut K,
    scheduler: Scheduler,
    cpus: &[u32],
    tick_ns: u32,
    names: &[Name],
    tasks: &[Task],
) -> Result<(), WriteFault>
    ensures { Writes (K.state sink.old) (K.state sink.new)
        (texts_below (each_vcpu_text (deadline_of scheduler cpus.now tick_ns) names.now
        tasks.now) (length tasks.now)) result }
{
    for vcpu in 0..tasks.len() {
        put_deadline_at(sink, scheduler, cpus, tick_ns, names, tasks, vcpu)?;
    }
    Ok(())
}

fn put_deadline_at<K: Sink>(
    sink: &mut K,
    scheduler: Scheduler,
    cpus: &[u32],
    tick_ns: u32,
    names: &[Name],
    tasks: &[Task],
    vcpu: usize,
) -> Result<(), WriteFault>
    requires { vcpu < length tasks.now }
    ensures { Writes (K.state sink.old) (K.state sink.new)
        (each_vcpu_text (deadline_of scheduler cpus.now tick_ns) names.now tasks.now vcpu)
        result }
{
    let name = name_at(names, vcpu);
    put_deadline(sink, scheduler, cpus, tick_ns, name, &tasks[vcpu])
}

fn put_deadline<K: Sink>(
    sink: &mut K,
    scheduler: Scheduler,
    cpus: &[u32],
    tick_ns: u32,
    name: &[u8],
    task: &Task,
) -> Result<(), WriteFault>
    ensures { Writes (K.state sink.old) (K.state sink.new)
        (deadline_of scheduler cpus.now tick_ns name.now task.now) result }
{
    let guest = guest_of(name);
    let number = number_of(name);
    let period = period_in(scheduler, tick_ns, task);
    let budget = budget_in(scheduler, tick_ns, task);
    let cpu = cpu_of(cpus, task);
    put_deadline_lines(sink, guest, number, cpu, period, budget)
}

fn put_deadline_lines<'a, K: Sink>(
    sink: &mut K,
    guest: &'a [u8],
    number: &'a [u8],
    cpu: u64,
    period: u64,
    budget: u64,
) -> Result<(), WriteFault>
    ensures { Writes (K.state sink.old) (K.state sink.new)
        (into_line guest.now number.now cpu ++ chrt_line period budget) result }
{
    put_into(sink, guest, number, cpu)?;
    put_chrt(sink, period, budget)
}

#[tactic(auto, unfolding(crate::specs::Lines::into_line))]
fn put_into<'a, K: Sink>(
    sink: &mut K,
    guest: &'a [u8],
    number: &'a [u8],
    cpu: u64,
) -> Result<(), WriteFault>
    ensures { Writes (K.state sink.old) (K.state sink.new) (into_line guest.now number.now cpu) result }
{
    put_pieces(
        sink,
        &[
            TextPiece::Text(b"into "),
            TextPiece::Text(guest),
            TextPiece::Text(b" "),
            TextPiece::Text(number),
            TextPiece::Text(b" "),
            TextPiece::Wide(cpu),
            TextPiece::Text(b"\n"),
        ],
    )
}

#[tactic(auto, unfolding(crate::specs::Lines::chrt_line))]
fn put_chrt<K: Sink>(sink: &mut K, period: u64, budget: u64) -> Result<(), WriteFault>
    ensures { Writes (K.state sink.old) (K.state sink.new) (chrt_line period budget) result }
{
    put_pieces(
        sink,
        &[
            TextPiece::Text(b"chrt --deadline --sched-runtime "),
            TextPiece::Wide(budget),
            TextPiece::Text(b" --sched-deadline "),
            TextPiece::Wide(period),
            TextPiece::Text(b" --sched-period "),
            TextPiece::Wide(period),
            TextPiece::Text(b" --pid 0 \"$task\"\n"),
        ],
    )
}
